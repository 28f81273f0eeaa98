// A book that was judged: the record, and the numbers that follow from its L, n and D. A call that has it need not ask again whether the record is
// a book, and neither need the crates above.
ghost use Rattle.std.specs.Prelude.{◌≡◌};
ghost use Rattle.book.specs.Record.{shape_for};
ghost use Rattle.book.specs.Sound.{Sound};

use crate::Book;
use crate::shape::Shape;

// In this crate src/judge.rt alone makes one. What it does is in src/slots.rt, adding.rt, running.rt, totals.rt, two_windows.rt, distance.rt and verdicts.rt.
#[derive(Clone, Copy)]
pub struct Known {
    pub book: Book,
    pub shape: Shape,
    pub ghost sound: { Sound book },
    pub ghost derived: { shape ≡ shape_for book },
}
