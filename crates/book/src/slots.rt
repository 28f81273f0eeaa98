// The slots of a book's ring, by the calls of the ring: the one place where the book's numbers are handed to the ring.
ghost use Rattle.std.specs.Prelude.{◌≡◌, ◌^◌, ◌<◌, ◌≤◌, length};
ghost use Rattle.ring.specs.Slot.{field, written, cleared};
ghost use Rattle.ring.specs.Newest.{slot_before, newest, sum_newest};
ghost use Rattle.ring.specs.Lent.{Lent};

use crate::known::Known;
use crate::shape::Shape;

// Clears the bytes that the ring takes.
pub(crate) fn clear(shape: Shape, ring: &mut [u8])
    requires { Lent shape.width shape.slots (length ring.old) }
    ensures { ring.new ≡ cleared shape.width shape.slots ring.old }
{
    ring::clear(shape.width as usize, shape.slots as usize, ring).unwrap();
}

// The slot before a slot; before 0 stands the last one.
pub(crate) fn before(slots: u64, slot: u64) -> u64
    requires { slot < slots }
    ensures { result ≡ slot_before slots slot }
{
    if slot == 0 { slots - 1 } else { slot - 1 }
}

// The j-th newest slot before the slot `next`, in one step.
#[tactic(auto, using(ring::proofs::Promises::newest_near, ring::proofs::Promises::newest_far))]
pub(crate) fn place(slots: u64, next: u64, j: u64) -> u64
    requires { (next < slots) × (j ≤ slots) × (slots ≤ 4096) }
    ensures { result ≡ newest slots next j }
{
    if j <= next {
        next - j
    } else {
        next + slots - j
    }
}

impl Known {
    // The sum of the j newest slots before the slot `next`.
    pub(crate) fn sum_newest(self, ring: &[u8], next: u64, j: u64) -> u64
        requires { (self.shape.bytes ≤ length ring.now) × (next < self.shape.slots) × (j ≤ self.shape.slots) }
        ensures { result ≡ sum_newest (field self.shape.width ring.now) self.shape.slots next j }
    {
        ring::sum(
            self.shape.width as usize,
            self.shape.slots as usize,
            ring,
            next as usize,
            j as usize,
        )
        .unwrap()
    }

    // What a slot holds.
    pub(crate) fn get(self, ring: &[u8], slot: u64) -> u64
        requires { (self.shape.bytes ≤ length ring.now) × (slot < self.shape.slots) }
        ensures { result ≡ field self.shape.width ring.now slot }
    {
        ring::read(
            self.shape.width as usize,
            self.shape.slots as usize,
            ring,
            slot as usize,
        )
        .unwrap()
    }

    // Puts a value into a slot.
    pub(crate) fn put(self, ring: &mut [u8], slot: u64, value: u64)
        requires { (self.shape.bytes ≤ length ring.old) × (slot < self.shape.slots) × (value < 2 ^ self.shape.width) }
        ensures { ring.new ≡ written self.shape.width ring.old slot value }
    {
        ring::write(
            self.shape.width as usize,
            self.shape.slots as usize,
            ring,
            slot as usize,
            value,
        )
        .unwrap();
    }
}
