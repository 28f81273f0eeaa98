// The answer of making a book coarser in numbers, as C is told it.
ghost use Rattle.std.specs.Prelude.{◌≡◌};
ghost use Rattle.coarse.specs.Told.{as_coarser};

use crate::Coarsened;
use book::Book;
use refusals::Refusal;

// A refusal number, 0 for none; the bytes that the new ring takes, 0 at a refusal; and the record to go on with.
#[repr(C)]
#[derive(Clone, Copy)]
pub struct Coarser {
    pub refusal: u8,
    pub bytes: u64,
    pub book: Book,
}

impl Coarser {
    // `before`: the record that comes back where the call is refused.
    pub fn of(before: Book, answer: Result<Coarsened, Refusal>) -> Coarser
        ensures { result ≡ as_coarser before answer }
    {
        match answer {
            Ok(made) => Coarser {
                refusal: 0,
                bytes: made.bytes,
                book: made.book,
            },
            Err(refusal) => Coarser {
                refusal: refusal.number(),
                bytes: 0,
                book: before,
            },
        }
    }
}
