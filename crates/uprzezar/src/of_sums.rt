// The book's calls with a row of running sums.
ghost use Rattle.std.specs.Prelude.{◌≡◌};
ghost use Rattle.refusals.specs.Call.{result_of, left_of};
ghost use Rattle.sums.specs.Calls.{open_row_call, add_row_call, run_row_call, total_row_call};

use crate::crossing;
use book::Book;
use book::told::{Ran, Updated};
use sums::told::Summed;

// Opens a book, and clears the bytes that its ring takes and the entries of the row that it uses.
#[unsafe(no_mangle)]
pub extern "C" fn uprzezar_open_row(
    bound: u64,
    length: u64,
    tolerance: u64,
    ring: &mut [u8],
    row: &mut [u32],
) -> Updated
    ensures { (result ≡ result_of (open_row_call bound length tolerance ring.old row.old)) × (ring.new ≡ (left_of (open_row_call bound length tolerance ring.old row.old)).ring) × (row.new ≡ (left_of (open_row_call bound length tolerance ring.old row.old)).row) }
{
    Updated::of(
        crossing::no_book(),
        sums::open(bound, length, tolerance, ring, row),
    )
}

// Adds one item to a book.
#[unsafe(no_mangle)]
pub extern "C" fn uprzezar_add_row(
    book: Book,
    ring: &mut [u8],
    row: &mut [u32],
    item: u64,
) -> Updated
    ensures { (result ≡ result_of (add_row_call book ring.old row.old item)) × (ring.new ≡ (left_of (add_row_call book ring.old row.old item)).ring) × (row.new ≡ (left_of (add_row_call book ring.old row.old item)).row) }
{
    Updated::of(book, sums::add(book, ring, row, item))
}

// Adds a run of counts to a book, all of them or none.
#[unsafe(no_mangle)]
pub extern "C" fn uprzezar_run_row(
    book: Book,
    ring: &mut [u8],
    row: &mut [u32],
    counts: &[u64],
) -> Ran
    ensures { (result ≡ result_of (run_row_call book ring.old row.old counts.now)) × (ring.new ≡ (left_of (run_row_call book ring.old row.old counts.now)).ring) × (row.new ≡ (left_of (run_row_call book ring.old row.old counts.now)).row) }
{
    Ran::of(book, sums::run(book, ring, row, counts))
}

// The figure for the last `window` items by the row, and how many fields and stored sums its rule reads.
#[unsafe(no_mangle)]
pub extern "C" fn uprzezar_total_row(book: Book, ring: &[u8], row: &[u32], window: u64) -> Summed
    ensures { result ≡ result_of (total_row_call book ring.now row.now window) }
{
    Summed::from(sums::total(book, ring, row, window))
}
