// A book with a row of running sums beside it: the book's own calls, handed a lent row of 32-bit numbers too, so that a total reads at most 64
// fields of the ring and 3 numbers of the row. What each call gives and leaves is defined in specs/Calls.antt, which fields and sums a total
// reads in specs/Rule.antt.

#![tactic(auto)]

ghost use Rattle.std.specs.Prelude.{◌≡◌};
ghost use Rattle.refusals.specs.Call.{result_of, left_of};
ghost use Rattle.book.specs.Record.{no_book_at_all};
ghost use Rattle.book.specs.Told.{as_updated, as_ran};
ghost use Rattle.sums.specs.Told.{as_summed};
ghost use Rattle.sums.specs.Calls.{open_row_call, add_row_call, run_row_call, total_row_call};

use book::judge::usable;
use book::known::Known;
use book::{Book, RunRefusal};
use refusals::Refusal;

pub mod judge;
pub mod row;
mod rule;
mod running;
pub mod told;
pub mod totals;

// A figure, and how many fields of the ring and stored sums of the row its rule reads (specs/Rule.antt).
#[derive(Clone, Copy)]
pub struct RowTotal {
    pub figure: u64,
    pub fields: u64,
    pub sums: u64,
}

// Opens a book, and clears the bytes that its ring takes and the entries of the row that it uses.
#[inline(always)]
pub fn open(
    bound: u64,
    length: u64,
    tolerance: u64,
    ring: &mut [u8],
    row: &mut [u32],
) -> Result<Book, Refusal>
    ensures { (as_updated no_book_at_all result ≡ result_of (open_row_call bound length tolerance ring.old row.old)) × (ring.new ≡ (left_of (open_row_call bound length tolerance ring.old row.old)).ring) × (row.new ≡ (left_of (open_row_call bound length tolerance ring.old row.old)).row) }
{
    let shape = book::shape::derive(bound, length, tolerance)?;
    judge::room_for_ring(shape, ring.len())?;
    judge::room_for_row(shape, row.len())?;
    let opened = book::open(bound, length, tolerance, ring)?;
    row::clear(row, row::entries(shape.slots));
    Ok(opened)
}

// Adds one item to a book. Where its block closes and a group of slots ends with it, the row takes the sum.
#[inline(always)]
pub fn add(book: Book, ring: &mut [u8], row: &mut [u32], item: u64) -> Result<Book, Refusal>
    ensures { (as_updated book result ≡ result_of (add_row_call book ring.old row.old item)) × (ring.new ≡ (left_of (add_row_call book ring.old row.old item)).ring) × (row.new ≡ (left_of (add_row_call book ring.old row.old item)).row) }
{
    let shape = judge::room_beside(book, ring.len(), row.len())?;
    let added = book::add(book, ring, item)?;
    if added.phase == 0 {
        // The item was taken, so that the record is a book's, and these are its numbers.
        row::store(Known { book, shape }, ring, row, book.head);
    }
    Ok(added)
}

// Adds a run of counts to a book, all of them or none.
pub fn run(book: Book, ring: &mut [u8], row: &mut [u32], counts: &[u64]) -> Result<Book, RunRefusal>
    ensures { (as_ran book result ≡ result_of (run_row_call book ring.old row.old counts.now)) × (ring.new ≡ (left_of (run_row_call book ring.old row.old counts.now)).ring) × (row.new ≡ (left_of (run_row_call book ring.old row.old counts.now)).row) }
{
    let known = usable(book, ring.len())?;
    judge::room_for_row(known.shape, row.len())?;
    judge::takes(book, counts)?;
    Ok(running::add_all(known, ring, row, counts))
}

// The figure for the last `window` items, by the row; where no slot is needed, it is the book's own total.
pub fn total(book: Book, ring: &[u8], row: &[u32], window: u64) -> Result<RowTotal, Refusal>
    ensures { as_summed result ≡ result_of (total_row_call book ring.now row.now window) }
{
    let known = usable(book, ring.len())?;
    judge::room_for_row(known.shape, row.len())?;
    if book.kept < window {
        return Err(Refusal::WindowTooLong);
    }
    if window <= book.phase {
        return Ok(RowTotal {
            figure: book::total(book, ring, window)?,
            fields: 0,
            sums: 0,
        });
    }
    Ok(totals::by_row(known, ring, row, window))
}
