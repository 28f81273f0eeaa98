// Going through the ring once, from slot head round to the newest: specs/Salvaged.antt.
ghost use Rattle.std.specs.Prelude.{◌≡◌, cond, ◌≤◌, ◌<◌, length};
ghost use Rattle.ring.specs.Slot.{written};
ghost use Rattle.book.specs.Record.{largest_of, width_of};
ghost use Rattle.salvage.specs.Altered.{too_large, altered, how_new};
ghost use Rattle.salvage.specs.Salvaged.{capped, tail_cleared, salvaged_ring, listed, kept_for, salvaged_record};
ghost use Rattle.salvage.specs.Steps.{nth};

use crate::Mended;
use book::Book;
use book::known::Known;
use sums::totals::oldest;

// How many slots were altered; and how many are newer than the newest of them, if there is one.
#[derive(Clone, Copy)]
pub(crate) struct Found {
    pub(crate) count: usize,
    pub(crate) newer: Option<u64>,
}

// One slot, by the ring's own calls: a field above z becomes z. Tells whether it was.
fn cap(known: Known, ring: &mut [u8], slot: u64) -> bool
    requires { (known.shape.bytes ≤ length ring.old) × (slot < known.shape.slots) }
    ensures { (result ≡ too_large known.book ring.old slot) × (ring.new ≡ cond (too_large known.book ring.old slot) (written (width_of known.book) ring.old slot (largest_of known.book)) ring.old) }
{
    let shape = known.shape;
    let width = shape.width as usize;
    let slots = shape.slots as usize;
    let at = slot as usize;
    if ring::read(width, slots, ring, at).unwrap() <= shape.largest {
        return false;
    }
    ring::write(width, slots, ring, at, shape.largest).unwrap();
    true
}

// Every slot, each read once. Where every number that a slot can hold is at most z, there is nothing to look for.
fn every_slot(known: Known, ring: &mut [u8], numbers: &mut [u32]) -> Found
    requires { (known.shape.bytes ≤ length ring.old) × (known.shape.slots ≤ length numbers.old) }
    ensures { (result.count ≡ length (altered known.book ring.old)) × (nth result.newer ≡ how_new known.book ring.old) × (ring.new ≡ capped known.book ring.old (altered known.book ring.old)) × (numbers.new ≡ listed (altered known.book ring.old) numbers.old) }
{
    let shape = known.shape;
    let looked_at = if shape.largest + 1 == 1u64 << shape.width {
        0
    } else {
        shape.slots
    };
    let mut found = Found {
        count: 0,
        newer: None,
    };
    for newer in (0..looked_at).rev() {
        let slot = oldest(shape.slots, known.book.head, newer + 1);
        if cap(known, ring, slot) {
            numbers[found.count] = slot as u32;
            found = Found {
                count: found.count + 1,
                newer: Some(newer),
            };
        }
    }
    found
}

// The bits after the last slot, 0 to 7 of them, stand at the end of the ring's last byte.
fn clear_tail(known: Known, ring: &mut [u8])
    requires { known.shape.bytes ≤ length ring.old }
    ensures { ring.new ≡ tail_cleared known.book ring.old }
{
    let shape = known.shape;
    let over = shape.bytes * 8 - shape.slots * shape.width;
    let last = (shape.bytes - 1) as usize;
    ring[last] = ring[last] >> over << over;
}

// The open block, and the blocks that are newer than the newest altered slot; but no more than was kept.
fn kept(known: Known, newer: Option<u64>) -> u64
    requires { nth newer ≤ known.shape.slots }
    ensures { result ≡ kept_for known.book (nth newer) }
{
    let book = known.book;
    match newer {
        Some(blocks) => book.kept.min(book.phase + blocks * known.shape.block),
        None => book.kept,
    }
}

// Puts a ring right, and gives the record that goes with it.
pub(crate) fn mend(known: Known, ring: &mut [u8], numbers: &mut [u32]) -> Mended
    requires { (known.shape.bytes ≤ length ring.old) × (known.shape.slots ≤ length numbers.old) }
    ensures { (result ≡ record { count = length (altered known.book ring.old); book = salvaged_record known.book ring.old }) × (ring.new ≡ salvaged_ring known.book ring.old) × (numbers.new ≡ listed (altered known.book ring.old) numbers.old) }
{
    let found = every_slot(known, ring, numbers);
    clear_tail(known, ring);
    let kept = kept(known, found.newer);
    Mended {
        count: found.count as u64,
        book: Book { kept, ..known.book },
    }
}
