// What is refused before anything is changed: 8, 4 for the first ring, 19, 3, 4 for the second ring, 18.
ghost use Rattle.std.specs.Prelude.{◌≡◌, MatchResult};
ghost use Rattle.refusals.specs.First.{first_of};
ghost use Rattle.refusals.specs.Refused.{number_of};
ghost use Rattle.coarse.specs.Steps.{row_faults, Passed};

use book::Book;
use book::judge::usable;
use book::known::Known;
use refusals::Refusal;
use sums::judge::{room_for_ring, room_for_row};

const FEWEST_TIMES: u64 = 2;

const MOST_TIMES: u64 = 16;

// Where nothing is refused: the book with its numbers, and the bytes that the second ring takes.
#[derive(Clone, Copy)]
pub(crate) struct Judged {
    pub(crate) known: Known,
    pub(crate) bytes: u64,
}

// The numbers of the coarser book are asked for only once m·D is known to be small, and are refused with 3 alone.
pub(crate) fn coarser(
    book: Book,
    ring: usize,
    times: u64,
    second: usize,
    row: usize,
) -> Result<Judged, Refusal>
    ensures { MatchResult result (λ judged. Passed book ring times second row judged) (λ refusal. number_of refusal ≡ first_of (row_faults book ring times second row)) }
{
    let known = usable(book, ring)?;
    if book.tolerance % book.bound != 0 {
        return Err(Refusal::CannotCoarsen);
    }
    if times < FEWEST_TIMES || MOST_TIMES < times {
        return Err(Refusal::CannotCoarsen);
    }
    let coarser = book::shape::derive(book.bound, book.length, times * book.tolerance)?;
    room_for_ring(coarser, second)?;
    room_for_row(coarser, row)?;
    Ok(Judged {
        known,
        bytes: coarser.bytes,
    })
}
