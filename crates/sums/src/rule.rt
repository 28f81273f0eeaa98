// Which single fields and which stored sums are read for a run of slots, and reading them. specs/Rule.antt.
ghost use Rattle.std.specs.Prelude.{◌≡◌, ◌-◌, ◌*◌, ◌≤◌, ◌<◌, length};
ghost use Rattle.ring.specs.Slot.{field};
ghost use Rattle.sums.specs.Row.{entries_for};
ghost use Rattle.sums.specs.Rule.{end_after, end_before, parts_of, read_at, fields_of, sums_of, added_by, taken_by, fields_read, sums_read, sum_by_row};

use crate::row;
use book::known::Known;

// Single fields are read up to `front`, and from `back` on; between them the sum stored at `plus` less the one at `minus`. 0 is an end as well, as
// `parts_of` has it: its sum is 0, and is not read.
#[derive(Clone, Copy)]
pub(crate) struct Parts {
    pub(crate) front: u64,
    pub(crate) plus: u64,
    pub(crate) minus: u64,
    pub(crate) back: u64,
}

// What is added and taken off for a run, and how many fields and sums were read.
#[derive(Clone, Copy)]
pub(crate) struct Reading {
    pub(crate) added: u64,
    pub(crate) taken: u64,
    pub(crate) fields: u64,
    pub(crate) sums: u64,
}

// The sum of the newest slots, and how many fields and sums were read for it.
#[derive(Clone, Copy)]
pub(crate) struct Newest {
    pub(crate) sum: u64,
    pub(crate) fields: u64,
    pub(crate) sums: u64,
}

#[tactic(auto, unfolding(crate::specs::Rule::end_after))]
fn end_after(slots: u64, slot: u64) -> u64
    ensures { result ≡ end_after slots slot }
{
    if slot == 0 {
        return 0;
    }
    row::group_end(slots, slot)
}

#[tactic(auto, unfolding(crate::specs::Rule::end_before))]
fn end_before(slots: u64, slot: u64) -> u64
    ensures { result ≡ end_before slots slot }
{
    if slot == slots {
        return slots;
    }
    slot / row::GROUP * row::GROUP
}

#[tactic(auto, unfolding(crate::specs::Rule::parts_of))]
fn split(slots: u64, from: u64, to: u64) -> Parts
    ensures { result ≡ parts_of slots from to }
{
    let first = end_after(slots, from);
    let last = end_before(slots, to);
    if first < last {
        return Parts {
            front: first,
            plus: last,
            minus: first,
            back: last,
        };
    }
    Parts {
        front: to,
        plus: 0,
        minus: 0,
        back: to,
    }
}

fn read_at(end: u64) -> u64
    ensures { result ≡ read_at end }
{
    if end == 0 { 0 } else { 1 }
}

// Reads a run of slots from `from` up to, not including, `to`.
pub(crate) fn read(known: Known, ring: &[u8], row: &[u32], from: u64, to: u64) -> Reading
    requires { (known.shape.bytes ≤ length ring.now) × (entries_for known.shape.slots ≤ length row.now) × (from ≤ to) × (to ≤ known.shape.slots) }
    ensures value { (result.added ≡ added_by (field known.shape.width ring.now) row.now from to (parts_of known.shape.slots from to)) × (result.taken ≡ taken_by row.now (parts_of known.shape.slots from to)) }
    ensures small { (result.added ≤ 4299161600) × (result.taken ≤ 4294967295) × (result.fields ≤ 63) × (result.sums ≤ 2) }
    ensures counts { (result.fields ≡ fields_of from to (parts_of known.shape.slots from to)) × (result.sums ≡ sums_of (parts_of known.shape.slots from to)) }
{
    let parts = split(known.shape.slots, from, to);
    let front = row::fields(known, ring, from, parts.front);
    let back = row::fields(known, ring, parts.back, to);
    Reading {
        added: front + row::stored_at(row, parts.plus) + back,
        taken: row::stored_at(row, parts.minus),
        fields: parts.front - from + (to - parts.back),
        sums: read_at(parts.plus) + read_at(parts.minus),
    }
}

// Reads the j newest slots before head: the run up to head, and the run up to the last slot.
pub(crate) fn read_newest(known: Known, ring: &[u8], row: &[u32], j: u64) -> Newest
    requires { (known.shape.bytes ≤ length ring.now) × (entries_for known.shape.slots ≤ length row.now) × (j ≤ known.shape.slots) }
    ensures value { (result.sum ≡ sum_by_row known.shape.slots known.book.head j (field known.shape.width ring.now) row.now) × (result.sum ≤ 17179869184) }
    ensures counts { (result.fields ≡ fields_read known.shape.slots known.book.head j) × (result.sums ≡ sums_read known.shape.slots known.book.head j) }
{
    let head = known.book.head;
    let slots = known.shape.slots;
    let near = read(known, ring, row, head.saturating_sub(j), head);
    let far = read(known, ring, row, slots - j.saturating_sub(head), slots);
    Newest {
        sum: (near.added + far.added).saturating_sub(near.taken + far.taken),
        fields: near.fields + far.fields,
        sums: near.sums + far.sums,
    }
}
