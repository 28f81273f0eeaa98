// What is refused before anything is changed: the row's own refusal, 18, behind the book's 8 and 4, and what a run of counts asks next.
ghost use Rattle.std.specs.Prelude.{◌≡◌, ℕ, ◌≤◌, ◌<◌, false, [], ◌∷◌, ◌++◌, length, slice_index, EachIndex, MatchOption, MatchResult};
ghost use Rattle.refusals.specs.First.{first_of};
ghost use Rattle.refusals.specs.Refused.{number_of, number_in};
ghost use Rattle.book.specs.Record.{shape_for};
ghost use Rattle.book.specs.Resting.{awake};
ghost use Rattle.book.specs.RunOfCounts.{any_above};
ghost use Rattle.book.specs.Calls.{room_fault, book_faults};
ghost use Rattle.sums.specs.Row.{entries_for, entries_of};
ghost use Rattle.sums.specs.RunParts.{RefusedFor};
ghost use Rattle.sums.specs.Calls.{row_fault};

use crate::row;
use book::judge::usable;
use book::shape::Shape;
use book::{Book, RunRefusal};
use refusals::Refusal;

// 4: the ring is too short.
pub fn room_for_ring(shape: Shape, ring: usize) -> Result<(), Refusal>
    ensures { number_in result ≡ first_of (room_fault shape.bytes ring ∷ []) }
{
    if (ring as u64) < shape.bytes {
        return Err(Refusal::RingTooShort);
    }
    Ok(())
}

// 18: the row is too short.
pub fn room_for_row(shape: Shape, row: usize) -> Result<(), Refusal>
    ensures { number_in result ≡ first_of (row_fault (entries_for shape.slots) row ∷ []) }
{
    if row < row::entries(shape.slots) {
        return Err(Refusal::RowTooShort);
    }
    Ok(())
}

// 18, for a call of the book that asks for 8 and 4 by itself: they come before it, but are asked for here only where the row is too short.
pub(crate) fn room_beside(book: Book, ring: usize, row: usize) -> Result<Shape, Refusal>
    ensures { MatchResult result (λ shape. (shape ≡ shape_for book) × (entries_of book ≤ row)) (λ refusal. number_of refusal ≡ first_of (book_faults book ring ++ row_fault (entries_of book) row ∷ [])) }
{
    let Ok(shape) = book::shape::derive(book.bound, book.length, book.tolerance) else {
        return Err(Refusal::NoBook);
    };
    if let Err(short) = room_for_row(shape, row) {
        usable(book, ring)?;
        return Err(short);
    }
    Ok(shape)
}

// 17, then 7 with the place, from 1, of the first count above the bound.
pub(crate) fn takes(book: Book, counts: &[u64]) -> Result<(), RunRefusal>
    ensures { MatchResult result (λ done. (book.resting ≡ awake) × (any_above book.bound counts.now ≡ false)) (λ refusal. RefusedFor book counts.now refusal) }
{
    if book.resting != 0 {
        return Err(RunRefusal::Refused(Refusal::BookRests));
    }
    if let Some(index) = first_above(book.bound, counts) {
        return Err(RunRefusal::CountTooLarge(index as u64 + 1));
    }
    Ok(())
}

// The index of the first count above the bound, if there is one.
fn first_above(bound: u64, counts: &[u64]) -> Option<usize>
    ensures { MatchOption result (EachIndex counts.now (λ k. slice_index counts.now k ≤ bound)) (λ i. (i < length counts.now) × (bound < slice_index counts.now i) × ((k : ℕ) → k < i → slice_index counts.now k ≤ bound)) }
{
    counts.iter().position(|count| bound < *count)
}
