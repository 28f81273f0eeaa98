// Whether a record is a book and its ring is lent whole: refusals 8 and 4, which every call with a book and its ring asks first; and whether
// it takes items: 17 where it rests, which adding and runs ask next.
ghost use Rattle.std.specs.Prelude.{◌≡◌, length};
ghost use Rattle.refusals.specs.First.{first_of};
ghost use Rattle.refusals.specs.Refused.{number_in};
ghost use Rattle.book.specs.Record.{shape_for};
ghost use Rattle.book.specs.Sound.{Ranges};
ghost use Rattle.book.specs.Calls.{state_faults};
ghost use Rattle.book.specs.Judged.{JudgedAlone, Judged, JudgedTaking};

use crate::known::Known;
use crate::shape::Shape;
use crate::{Book, resting, shape};
use refusals::Refusal;

// 8, for the numbers that adding changes.
fn state(book: Book, shape: Shape) -> Result<(), Refusal>
    requires { Ranges book.bound book.length book.tolerance × (shape ≡ shape_for book) }
    ensures { number_in result ≡ first_of (state_faults book) }
{
    if book.length < book.kept {
        return Err(Refusal::NoBook);
    }
    if book.kept < book.phase {
        return Err(Refusal::NoBook);
    }
    if shape.block <= book.phase {
        return Err(Refusal::NoBook);
    }
    if shape.slots <= book.head {
        return Err(Refusal::NoBook);
    }
    if book.tolerance - 1 + book.phase * book.bound < book.carry {
        return Err(Refusal::NoBook);
    }
    Ok(())
}

// 8 alone; without it the book is there with its numbers.
pub(crate) fn known(book: Book) -> Result<Known, Refusal>
    ensures { JudgedAlone book result }
{
    let Ok(shape) = shape::derive(book.bound, book.length, book.tolerance) else {
        return Err(Refusal::NoBook);
    };
    state(book, shape)?;
    Ok(Known { book, shape })
}

// 8, then 4: the book with its numbers, whose ring is lent whole.
pub fn usable(book: Book, lent: usize) -> Result<Known, Refusal>
    ensures { Judged book lent result }
{
    let known = known(book)?;
    if (lent as u64) < known.shape.bytes {
        return Err(Refusal::RingTooShort);
    }
    Ok(known)
}

// 8, 4, then 17.
pub(crate) fn takes(book: Book, lent: usize) -> Result<Known, Refusal>
    ensures { JudgedTaking book lent result }
{
    let known = usable(book, lent)?;
    if book.resting != resting::AWAKE {
        return Err(Refusal::BookRests);
    }
    Ok(known)
}
