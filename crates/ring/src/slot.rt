// The slots of a ring: where one lies, getting and putting its number, and the sum of the newest.
ghost use Rattle.std.specs.Prelude.{◌≡◌, ◌++◌, ◌+◌, ◌≤◌, ◌<◌, ◌*◌, ◌/◌, ◌^◌, length, drop, replicate};
ghost use Rattle.ring.specs.Limits.{widest, most_slots};
ghost use Rattle.ring.specs.Slot.{ring_bytes, field, written, cleared};
ghost use Rattle.ring.specs.Newest.{sum_newest};

use crate::word;
use crate::word::Place;
use bits::ones;

// How wide a ring's slots are, and how many it has. Made where both are known to be in range (judge.rt). The ring's bytes are handed in at each
// call, since those that are read are lent by `&` and those that are written by `&mut`: a value that holds them would be needed twice. That a slot is
// one of them each function asks by itself: a type for a slot would be no plainer, as it would carry the count that `Slots` has.
#[derive(Clone, Copy)]
pub(crate) struct Slots {
    pub(crate) width: usize,
    pub(crate) count: usize,
    ghost in_range: { (1 ≤ width) × (width ≤ widest) × (1 ≤ count) × (count ≤ most_slots) },
}

impl Slots {
    // The bytes that the ring takes.
    #[tactic(auto, unfolding(crate::specs::Slot::ring_bytes))]
    pub(crate) fn bytes(self) -> usize
        ensures { result ≡ ring_bytes self.width self.count }
    {
        (self.count * self.width).div_ceil(8)
    }

    // Where a slot lies.
    #[tactic(auto, using(crate::proofs::Fields::slot_end), unfolding(crate::specs::Slot::ring_bytes))]
    fn locate(self, slot: usize) -> Place
        requires { slot < self.count }
        ensures lies { ((result.first + result.count) * 8 ≡ slot * self.width + self.width + result.after) × (result.first * 8 ≤ slot * self.width) }
        ensures within { result.first + result.count ≤ ring_bytes self.width self.count }
    {
        let from = slot * self.width;
        let first = from / 8;
        let end = from + self.width;
        let count = end.div_ceil(8) - first;
        Place {
            first,
            count,
            after: (first + count) * 8 - end,
        }
    }

    // The number in a slot with three bytes or more behind its first one: four bytes hold the slot, wherever in the first it begins.
    fn get_of_four(self, ring: &[u8], slot: usize) -> u64
        requires { (slot < self.count) × (slot * self.width / 8 + 4 ≤ length ring.now) }
        ensures { result ≡ field self.width ring.now slot }
    {
        let from = slot * self.width;
        let after = 32 - self.width - from % 8;
        (word::load_four(ring, from / 8) >> after) % word::power(self.width)
    }

    // The number in a slot. All but the last slots are read by one load, without asking in how many bytes they lie.
    pub(crate) fn get(self, ring: &[u8], slot: usize) -> u64
        requires { (ring_bytes self.width self.count ≤ length ring.now) × (slot < self.count) }
        ensures { result ≡ field self.width ring.now slot }
    {
        if slot * self.width / 8 + 4 <= ring.len() {
            return self.get_of_four(ring, slot);
        }
        let at = self.locate(slot);
        (at.load(ring) >> at.after) % word::power(self.width)
    }

    // Puts a value into a slot.
    pub(crate) fn put(self, ring: &mut [u8], slot: usize, value: u64)
        requires { (ring_bytes self.width self.count ≤ length ring.old) × (slot < self.count) × (value < 2 ^ self.width) }
        ensures { ring.new ≡ written self.width ring.old slot value }
    {
        let at = self.locate(slot);
        let old = at.load(ring);
        let new = word::patch(old, self.width, at.after, value);
        at.store(ring, new);
    }

    // The sum of the last n of the first `end` slots, slot by slot.
    #[tactic(auto, using(crate::proofs::Fields::sums))]
    fn sum_singly(self, ring: &[u8], end: usize, n: usize) -> u64
        requires { (ring_bytes self.width self.count ≤ length ring.now) × (end ≤ self.count) × (n ≤ end) }
        ensures { result ≡ sum_newest (field self.width ring.now) end end n }
    {
        let mut sum: u64 = 0;
        for slot in end - n..end {
            sum += self.get(ring, slot);
        }
        sum
    }

    // The same sum, and where a slot is one bit, without reading slot by slot (request C-14).
    #[tactic(auto, using(crate::proofs::OnesOfPart::between_is_sum), unfolding(crate::specs::Slot::ring_bytes))]
    fn sum_last(self, ring: &[u8], end: usize, n: usize) -> u64
        requires { (ring_bytes self.width self.count ≤ length ring.now) × (end ≤ self.count) × (n ≤ end) }
        ensures { result ≡ sum_newest (field self.width ring.now) end end n }
    {
        if self.width == 1 {
            return ones::between(ring, end - n, end) as u64;
        }
        self.sum_singly(ring, end, n)
    }

    // The sum of the j newest slots before the slot `next`: those below it, and then the last ones of the ring.
    #[tactic(auto, using(crate::proofs::Fields::sums))]
    pub(crate) fn sum_newest(self, ring: &[u8], next: usize, j: usize) -> u64
        requires { (ring_bytes self.width self.count ≤ length ring.now) × (next < self.count) × (j ≤ self.count) }
        ensures { result ≡ sum_newest (field self.width ring.now) self.count next j }
    {
        if j <= next {
            return self.sum_last(ring, next, j);
        }
        self.sum_last(ring, next, next) + self.sum_last(ring, self.count, j - next)
    }

    // Sets the bytes that the ring takes to 0.
    #[tactic(auto, unfolding(crate::specs::Slot::cleared))]
    pub(crate) fn wipe(self, ring: &mut [u8])
        requires { ring_bytes self.width self.count ≤ length ring.old }
        ensures { ring.new ≡ cleared self.width self.count ring.old }
    {
        ring[..self.bytes()].fill(0);
    }
}
