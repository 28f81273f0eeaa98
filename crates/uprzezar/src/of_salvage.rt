// Salvage of a ring.
ghost use Rattle.std.specs.Prelude.{◌≡◌};
ghost use Rattle.refusals.specs.Call.{result_of, left_of};
ghost use Rattle.salvage.specs.Calls.{salvage_call, salvage_row_call};

use book::Book;
use salvage::told::Salvaged;

// Salvages a ring. The numbers of the altered slots go into `numbers`, from slot head round to the newest.
#[unsafe(no_mangle)]
pub extern "C" fn uprzezar_salvage(book: Book, ring: &mut [u8], numbers: &mut [u32]) -> Salvaged
    ensures { (result ≡ result_of (salvage_call book ring.old numbers.old)) × (ring.new ≡ (left_of (salvage_call book ring.old numbers.old)).ring) × (numbers.new ≡ (left_of (salvage_call book ring.old numbers.old)).numbers) }
{
    Salvaged::of(book, salvage::salvage(book, ring, numbers))
}

// The same, and rebuilds the row of running sums.
#[unsafe(no_mangle)]
pub extern "C" fn uprzezar_salvage_row(
    book: Book,
    ring: &mut [u8],
    numbers: &mut [u32],
    row: &mut [u32],
) -> Salvaged
    ensures { (result ≡ result_of (salvage_row_call book ring.old numbers.old row.old)) × (ring.new ≡ (left_of (salvage_row_call book ring.old numbers.old row.old)).ring) × (numbers.new ≡ (left_of (salvage_row_call book ring.old numbers.old row.old)).numbers) × (row.new ≡ (left_of (salvage_row_call book ring.old numbers.old row.old)).row) }
{
    Salvaged::of(book, salvage::salvage_row(book, ring, numbers, row))
}
