// The answer of a salvage in numbers, as C is told it.
ghost use Rattle.std.specs.Prelude.{◌≡◌};
ghost use Rattle.salvage.specs.Told.{as_salvaged};

use crate::Mended;
use book::Book;
use refusals::Refusal;

// A refusal number, 0 for none; how many slots were altered, 0 at a refusal; and the record to go on with.
#[repr(C)]
#[derive(Clone, Copy)]
pub struct Salvaged {
    pub refusal: u8,
    pub count: u64,
    pub book: Book,
}

impl Salvaged {
    // `before`: the record that comes back where the call is refused.
    pub fn of(before: Book, answer: Result<Mended, Refusal>) -> Salvaged
        ensures { result ≡ as_salvaged before answer }
    {
        match answer {
            Ok(mended) => Salvaged {
                refusal: 0,
                count: mended.count,
                book: mended.book,
            },
            Err(refusal) => Salvaged {
                refusal: refusal.number(),
                count: 0,
                book: before,
            },
        }
    }
}
