// Which refusal a call of the ring gets: the faults of specs/Calls.antt are gone down in their order.
ghost use Rattle.std.specs.Prelude.{◌≡◌, ◌∷◌, ◌++◌, ◌^◌, ◌≤◌, ◌<◌, leb, false, IfOk, OnOk};
ghost use Rattle.refusals.specs.Numbers.{bad_ring_call};
ghost use Rattle.refusals.specs.First.{◌gives◌, first_of};
ghost use Rattle.refusals.specs.Refused.{number_in};
ghost use Rattle.ring.specs.Slot.{ring_bytes};
ghost use Rattle.ring.specs.Calls.{shape_faults, room_faults, slot_fault};

use crate::slot::Slots;
use crate::word;
use refusals::Refusal;

// The most bits of a slot, and the most slots.
const WIDEST: usize = 16;

const MOST_SLOTS: usize = 4096;

fn shape(width: usize, count: usize) -> Result<Slots, Refusal>
    ensures refused { number_in result ≡ first_of (shape_faults width count) }
    ensures judged { IfOk result (λ slots. (slots.width ≡ width) × (slots.count ≡ count)) }
{
    if !(1..=WIDEST).contains(&width) || !(1..=MOST_SLOTS).contains(&count) {
        return Err(Refusal::BadRingCall);
    }
    Ok(Slots { width, count })
}

// The slots, if as many bytes are lent as they take.
fn with_room(slots: Slots, lent: usize) -> Result<Slots, Refusal>
    ensures refused { number_in result ≡ first_of (room_faults slots.width slots.count lent) }
    ensures judged { IfOk result (λ same. (same.width ≡ slots.width) × (same.count ≡ slots.count) × (ring_bytes slots.width slots.count ≤ lent)) }
{
    if lent < slots.bytes() {
        return Err(Refusal::RingTooShort);
    }
    Ok(slots)
}

// Judges a call that asks for the ring alone.
pub(crate) fn whole(width: usize, count: usize, lent: usize) -> Result<Slots, Refusal>
    ensures refused { number_in result ≡ first_of (shape_faults width count ++ room_faults width count lent) }
    ensures judged { IfOk result (λ slots. (slots.width ≡ width) × (slots.count ≡ count) × (ring_bytes width count ≤ lent)) }
{
    with_room(shape(width, count)?, lent)
}

// A value has no room in `width` bits; every value has in 64.
pub(crate) fn too_large(width: usize, value: u64) -> bool
    ensures { result ≡ leb (2 ^ width) value }
{
    width < 64 && word::power(width) <= value
}

// Judges a call that asks for a slot. `own`: another number that the call asks for is out of its range.
pub(crate) fn call(
    width: usize,
    count: usize,
    lent: usize,
    slot: usize,
    own: bool,
) -> Result<Slots, Refusal>
    ensures refused { number_in result ≡ first_of (shape_faults width count ++ slot_fault count slot ∷ (own gives bad_ring_call) ∷ room_faults width count lent) }
    ensures judged { IfOk result (λ slots. (slots.width ≡ width) × (slots.count ≡ count) × (ring_bytes width count ≤ lent)) }
    ensures passed { OnOk result ((slot < count) × (own ≡ false)) }
{
    let slots = shape(width, count)?;
    if count <= slot || own {
        return Err(Refusal::BadRingCall);
    }
    with_room(slots, lent)
}
