// Making a live book coarser where room runs short: from a book whose tolerance D is a multiple of its bound, one with tolerance m·D in a second
// lent ring, which goes on where the old one stood. What the calls give and leave is defined in specs/Calls.antt.

#![tactic(auto)]

ghost use Rattle.std.specs.Prelude.{◌≡◌, ◌+◌, ◌*◌, ◌≤◌};
ghost use Rattle.refusals.specs.Call.{result_of, left_of};
ghost use Rattle.coarse.specs.Told.{as_coarser};
ghost use Rattle.coarse.specs.Calls.{coarsen_call, coarsen_row_call};

use book::Book;
use book::known::Known;
use refusals::Refusal;

mod judge;
mod tally;
pub mod told;

// The bytes that the new ring takes, and the record to go on with.
#[derive(Clone, Copy)]
pub struct Coarsened {
    pub bytes: u64,
    pub book: Book,
}

// The most entries that the row of a coarser book uses: its slots are at most half of 4,096.
const MOST_ENTRIES: usize = 64;

// Makes a book coarser. This is the call with a row, with a row that is then let go of.
pub fn coarsen(book: Book, ring: &[u8], times: u64, second: &mut [u8]) -> Result<Coarsened, Refusal>
    ensures { (as_coarser book result ≡ result_of (coarsen_call book ring.now times second.old)) × (second.new ≡ left_of (coarsen_call book ring.now times second.old)) }
{
    let mut row: [u32; MOST_ENTRIES] = [0; MOST_ENTRIES];
    coarsen_row(book, ring, times, second, &mut row)
}

// Makes a book coarser, and fills a row of running sums for its new ring.
pub fn coarsen_row(
    book: Book,
    ring: &[u8],
    times: u64,
    second: &mut [u8],
    row: &mut [u32],
) -> Result<Coarsened, Refusal>
    ensures { (as_coarser book result ≡ result_of (coarsen_row_call book ring.now times second.old row.old)) × (second.new ≡ (left_of (coarsen_row_call book ring.now times second.old row.old)).ring) × (row.new ≡ (left_of (coarsen_row_call book ring.now times second.old row.old)).row) }
{
    let judged = judge::coarser(book, ring.len(), times, second.len(), row.len())?;
    let known = judged.known;
    let fresh = sums::open(1, known.shape.slots, times, second, row).unwrap();
    let blocks = (book.kept - book.phase) / known.shape.block;
    let all = tally::all(known, ring, blocks, fresh, second, row);
    let next = with_tally(known, times, blocks, all);
    Ok(Coarsened {
        bytes: judged.bytes,
        book: next,
    })
}

// The record of the coarser book: the old one's, with what the tally counts.
#[tactic(auto, using(crate::proofs::AtHand::known_sizes))]
fn with_tally(known: Known, times: u64, blocks: u64, tally: Book) -> Book
    requires { (times ≤ 16) × (blocks ≤ known.shape.slots) × (tally.carry ≤ 65536) × (tally.phase ≤ 4096) }
    ensures { result ≡ record { bound = known.book.bound; length = known.book.length; tolerance = times * known.book.tolerance; carry = known.book.carry + known.book.tolerance * tally.carry; phase = known.book.phase + tally.phase * known.shape.block; kept = known.book.phase + blocks * known.shape.block; head = tally.head; resting = known.book.resting } }
{
    let book = known.book;
    let block = known.shape.block;
    Book {
        tolerance: times * book.tolerance,
        carry: book.carry + book.tolerance * tally.carry,
        phase: book.phase + tally.phase * block,
        kept: book.phase + blocks * block,
        head: tally.head,
        ..book
    }
}
