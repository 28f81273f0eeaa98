// The row of running sums: its entries, clearing it, and storing a sum where a group of slots ends. specs/Row.antt.
ghost use Rattle.std.specs.Prelude.{◌≡◌, ◌++◌, ◌-◌, ◌*◌, ◌≤◌, ◌<◌, length, drop, replicate, set};
ghost use Rattle.refusals.specs.Call.{result_of};
ghost use Rattle.ring.specs.Slot.{field};
ghost use Rattle.ring.specs.Calls.{sum_call};
ghost use Rattle.sums.specs.Row.{entries_for, group_end, entry_at, sum_to, stored};
ghost use Rattle.sums.specs.Rule.{stored_at};
ghost use Rattle.sums.specs.RunParts.{Stands};

use book::known::Known;

pub(crate) const GROUP: u64 = 32;

// How many entries a row has for a book with so many slots: one for each group of them.
pub fn entries(slots: u64) -> usize
    ensures { result ≡ entries_for slots }
{
    slots.div_ceil(GROUP) as usize
}

// The end of the group in which a slot lies.
#[tactic(auto, unfolding(crate::specs::Row::group_end))]
pub fn group_end(slots: u64, slot: u64) -> u64
    ensures { result ≡ group_end slots slot }
{
    slots.min((slot / GROUP + 1).saturating_mul(GROUP))
}

// The entry of a group's end.
pub(crate) fn entry(end: u64) -> usize
    requires { 1 ≤ end }
    ensures { result ≡ entry_at end }
{
    ((end - 1) / GROUP) as usize
}

// The sum that stands at an end.
#[tactic(auto, unfolding(crate::specs::Rule::stored_at))]
pub(crate) fn stored_at(row: &[u32], end: u64) -> u64
    requires { end ≤ length row.now * 32 }
    ensures { (result ≡ stored_at row.now end) × (result ≤ 4294967295) }
{
    if end == 0 {
        return 0;
    }
    row[entry(end)] as u64
}

// Sets the first n entries to 0.
pub(crate) fn clear(row: &mut [u32], n: usize)
    requires { n ≤ length row.old }
    ensures { row.new ≡ replicate n 0 ++ drop n row.old }
{
    row[..n].fill(0);
}

// The sum of the fields from slot `from` up to, not including, slot `to`: the ring's own sum, told of `to` slots and asked for the last of them; 0 where
// it is refused.
pub fn fields(known: Known, ring: &[u8], from: u64, to: u64) -> u64
    ensures { result ≡ (result_of (sum_call known.shape.width to ring.now 0 (to - from))).value }
{
    if to <= from {
        return 0;
    }
    ring::sum(
        known.shape.width as usize,
        to as usize,
        ring,
        0,
        (to - from) as usize,
    )
    .unwrap_or(0)
}

// Puts the sum of the ring's fields from slot 0 up to a group's end into the group's entry. Up to `from` the row has that sum already, so that
// only the fields behind it are read.
pub(crate) fn put(known: Known, ring: &[u8], row: &mut [u32], from: u64, end: u64)
    requires { (known.shape.bytes ≤ length ring.now) × (1 ≤ end) × (end ≤ known.shape.slots) × (entries_for known.shape.slots ≤ length row.old) × (from ≤ end) × Stands known.shape ring.now row.old from }
    ensures { row.new ≡ set row.old (entry_at end) (sum_to (field known.shape.width ring.now) end) }
{
    let sum = stored_at(row, from) + fields(known, ring, from, end);
    row[entry(end)] = sum as u32;
}

// Slot `slot` has been written: where a group ends with it, its sum is stored.
pub(crate) fn store(known: Known, ring: &[u8], row: &mut [u32], slot: u64)
    requires { (known.shape.bytes ≤ length ring.now) × (slot < known.shape.slots) × (entries_for known.shape.slots ≤ length row.old) }
    ensures { row.new ≡ stored known.shape.slots (field known.shape.width ring.now) row.old slot }
{
    if slot + 1 == group_end(known.shape.slots, slot) {
        put(known, ring, row, 0, slot + 1);
    }
}
