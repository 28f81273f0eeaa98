// The tally (specs/Coarser.antt): a small book that takes the old quotients as its items, the oldest first.
ghost use Rattle.std.specs.Prelude.{◌≡◌, ◌≤◌, length, take};
ghost use Rattle.ring.specs.Slot.{field};
ghost use Rattle.ring.specs.Newest.{newest};
ghost use Rattle.book.specs.RunOfCounts.{added_all, added_all_ring};
ghost use Rattle.sums.specs.Row.{added_all_row};
ghost use Rattle.coarse.specs.Quotients.{quotients};
ghost use Rattle.coarse.specs.Steps.{Takes};

use book::Book;
use book::known::Known;
use sums::totals::oldest;

// The quotients of a part: a run of so many is judged once.
const PART: usize = 64;

// The quotient of the j-th newest block, by the ring's own reading.
fn quotient(known: Known, ring: &[u8], j: u64) -> u64
    requires { (known.shape.bytes ≤ length ring.now) × (j ≤ known.shape.slots) }
    ensures { result ≡ field known.shape.width ring.now (newest known.shape.slots known.book.head j) }
{
    let shape = known.shape;
    ring::read(
        shape.width as usize,
        shape.slots as usize,
        ring,
        oldest(shape.slots, known.book.head, j) as usize,
    )
    .unwrap()
}

// The first quotients of the j newest blocks, the oldest first, as many as there are places.
fn gather(known: Known, ring: &[u8], j: usize, part: &mut [u64])
    requires { (known.shape.bytes ≤ length ring.now) × (j ≤ known.shape.slots) × (length part.old ≤ j) }
    ensures { part.new ≡ take (length part.old) (quotients known.book ring.now j) }
{
    for (i, place) in part.iter_mut().enumerate() {
        *place = quotient(known, ring, (j - i) as u64);
    }
}

// Adds the quotients of the `blocks` newest blocks to a tally, the oldest first, and in parts, so that each part is judged once. They stand in no
// slice that could be cut by `chunks`: each part is read from the ring into the same few places.
pub(crate) fn all(
    known: Known,
    ring: &[u8],
    blocks: u64,
    fresh: Book,
    second: &mut [u8],
    row: &mut [u32],
) -> Book
    requires { (known.shape.bytes ≤ length ring.now) × (known.shape.width ≡ 1) × (blocks ≤ known.shape.slots) × Takes fresh (length second.old) (length row.old) }
    ensures { (result ≡ added_all fresh (quotients known.book ring.now blocks)) × (second.new ≡ added_all_ring fresh second.old (quotients known.book ring.now blocks)) × (row.new ≡ added_all_row fresh second.old row.old (quotients known.book ring.now blocks)) }
{
    let mut tally = fresh;
    let mut left = blocks as usize;
    while 0 < left {
        let mut places: [u64; PART] = [0; PART];
        let part = &mut places[..left.min(PART)];
        gather(known, ring, left, part);
        tally = sums::run(tally, second, row, part).unwrap();
        left -= part.len();
    }
    tally
}
