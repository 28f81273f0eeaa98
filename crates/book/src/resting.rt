// The resting mark: its two values, and the one call behind `rest` and `wake`. specs/Resting.antt.
ghost use Rattle.std.specs.Prelude.{◌≡◌};
ghost use Rattle.refusals.specs.Call.{result_of};
ghost use Rattle.book.specs.Told.{as_updated};
ghost use Rattle.book.specs.Calls.{mark_call};

use crate::{Book, judge};
use refusals::Refusal;

pub(crate) const AWAKE: u64 = 0;

pub(crate) const AT_REST: u64 = 1;

// Marks a record that is a book; any other comes back as it came.
pub(crate) fn mark(book: Book, mark: u64) -> Result<Book, Refusal>
    ensures { as_updated book result ≡ result_of (mark_call book mark) }
{
    judge::known(book)?;
    Ok(Book {
        resting: mark,
        ..book
    })
}
