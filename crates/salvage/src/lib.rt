// Salvage after a brown-out: a tool that goes through a book's ring, puts right what cannot be, tells which slots that were, and shortens what is
// kept to the windows that none of them lies in. What the calls give and leave is defined in specs/Calls.antt. Values that were scrambled and are
// not above z cannot be seen; where D is at least L no field can be above z.

#![tactic(auto)]

ghost use Rattle.std.specs.Prelude.{◌≡◌};
ghost use Rattle.refusals.specs.Call.{result_of, left_of};
ghost use Rattle.salvage.specs.Told.{as_salvaged};
ghost use Rattle.salvage.specs.Calls.{salvage_call, salvage_row_call};

use book::Book;
use refusals::Refusal;

mod groups;
mod judge;
pub mod told;
mod walk;

// How many slots were altered, and the record to go on with.
#[derive(Clone, Copy)]
pub struct Mended {
    pub count: u64,
    pub book: Book,
}

// Salvages a ring. The numbers of the altered slots go into `numbers`, from slot head round to the newest.
pub fn salvage(book: Book, ring: &mut [u8], numbers: &mut [u32]) -> Result<Mended, Refusal>
    ensures { (as_salvaged book result ≡ result_of (salvage_call book ring.old numbers.old)) × (ring.new ≡ (left_of (salvage_call book ring.old numbers.old)).ring) × (numbers.new ≡ (left_of (salvage_call book ring.old numbers.old)).numbers) }
{
    let known = judge::ready(book, ring.len(), numbers.len())?;
    Ok(walk::mend(known, ring, numbers))
}

// Salvages a ring, and rebuilds its row of running sums.
pub fn salvage_row(
    book: Book,
    ring: &mut [u8],
    numbers: &mut [u32],
    row: &mut [u32],
) -> Result<Mended, Refusal>
    ensures { (as_salvaged book result ≡ result_of (salvage_row_call book ring.old numbers.old row.old)) × (ring.new ≡ (left_of (salvage_row_call book ring.old numbers.old row.old)).ring) × (numbers.new ≡ (left_of (salvage_row_call book ring.old numbers.old row.old)).numbers) × (row.new ≡ (left_of (salvage_row_call book ring.old numbers.old row.old)).row) }
{
    let known = judge::ready(book, ring.len(), numbers.len())?;
    sums::judge::room_for_row(known.shape, row.len())?;
    let mended = walk::mend(known, ring, numbers);
    groups::rebuild(known, ring, row);
    Ok(mended)
}
