// The answers in numbers, as C is told them: 0 where nothing is refused, else the number of the refusal, and zeros, or the record as it came.
ghost use Rattle.std.specs.Prelude.{◌≡◌};
ghost use Rattle.book.specs.Told.{as_updated, as_ran, as_figure, as_window};

use crate::{Book, RunRefusal};
use refusals::Refusal;

// A refusal number, 0 for none, and the record to go on with.
#[repr(C)]
#[derive(Clone, Copy)]
pub struct Updated {
    pub refusal: u8,
    pub book: Book,
}

impl Updated {
    // `before`: the record that comes back where the call is refused.
    #[inline(always)]
    pub fn of(before: Book, answer: Result<Book, Refusal>) -> Updated
        ensures { result ≡ as_updated before answer }
    {
        match answer {
            Ok(book) => Updated { refusal: 0, book },
            Err(refusal) => Updated {
                refusal: refusal.number(),
                book: before,
            },
        }
    }
}

// A refusal number, 0 for none; with 7 the place, from 1, of the first count above the bound, else 0; and the record to go on with.
#[repr(C)]
#[derive(Clone, Copy)]
pub struct Ran {
    pub refusal: u8,
    pub place: u64,
    pub book: Book,
}

impl Ran {
    pub fn of(before: Book, answer: Result<Book, RunRefusal>) -> Ran
        ensures { result ≡ as_ran before answer }
    {
        match answer {
            Ok(book) => Ran {
                refusal: 0,
                place: 0,
                book,
            },
            Err(RunRefusal::Refused(refusal)) => Ran {
                refusal: refusal.number(),
                place: 0,
                book: before,
            },
            Err(RunRefusal::CountTooLarge(place)) => Ran {
                refusal: Refusal::ItemTooLarge.number(),
                place,
                book: before,
            },
        }
    }
}

// A refusal number, 0 for none, and a window, which is 0 at a refusal. (C has a struct of its own for each of the two numbers.)
#[repr(C)]
#[derive(Clone, Copy)]
pub struct Window {
    pub refusal: u8,
    pub window: u64,
}

impl From<Result<u64, Refusal>> for Window {
    ghost from_gives = { λ answer told. told ≡ as_window answer };

    fn from(answer: Result<u64, Refusal>) -> Window {
        match answer {
            Ok(window) => Window { refusal: 0, window },
            Err(refusal) => Window {
                refusal: refusal.number(),
                window: 0,
            },
        }
    }
}

// A refusal number, 0 for none, and a figure, which is 0 at a refusal.
#[repr(C)]
#[derive(Clone, Copy)]
pub struct Figure {
    pub refusal: u8,
    pub figure: u64,
}

impl From<Result<u64, Refusal>> for Figure {
    ghost from_gives = { λ answer told. told ≡ as_figure answer };

    fn from(answer: Result<u64, Refusal>) -> Figure {
        match answer {
            Ok(figure) => Figure { refusal: 0, figure },
            Err(refusal) => Figure {
                refusal: refusal.number(),
                figure: 0,
            },
        }
    }
}
