// Making a book coarser.
ghost use Rattle.std.specs.Prelude.{◌≡◌};
ghost use Rattle.refusals.specs.Call.{result_of, left_of};
ghost use Rattle.coarse.specs.Calls.{coarsen_call, coarsen_row_call};

use book::Book;
use coarse::told::Coarser;

// Makes a book with `times` times the tolerance out of one, in a second ring; the first ring is only read.
#[unsafe(no_mangle)]
pub extern "C" fn uprzezar_coarsen(
    book: Book,
    ring: &[u8],
    times: u64,
    second: &mut [u8],
) -> Coarser
    ensures { (result ≡ result_of (coarsen_call book ring.now times second.old)) × (second.new ≡ left_of (coarsen_call book ring.now times second.old)) }
{
    Coarser::of(book, coarse::coarsen(book, ring, times, second))
}

// The same, and fills a row of running sums for the second ring.
#[unsafe(no_mangle)]
pub extern "C" fn uprzezar_coarsen_row(
    book: Book,
    ring: &[u8],
    times: u64,
    second: &mut [u8],
    row: &mut [u32],
) -> Coarser
    ensures { (result ≡ result_of (coarsen_row_call book ring.now times second.old row.old)) × (second.new ≡ (left_of (coarsen_row_call book ring.now times second.old row.old)).ring) × (row.new ≡ (left_of (coarsen_row_call book ring.now times second.old row.old)).row) }
{
    Coarser::of(book, coarse::coarsen_row(book, ring, times, second, row))
}
