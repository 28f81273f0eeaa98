// A ring of packed small numbers in bytes that the caller lends: clear, read a slot, write a slot, sum the newest slots.
// Every call with every slice and every number answers; what it answers and leaves is its row in specs/Calls.antt. The calls take the width, the
// slots and the ring one by one, as C hands them in.

#![tactic(auto)]

ghost use Rattle.std.specs.Prelude.{◌≡◌};
ghost use Rattle.refusals.specs.Call.{result_of, left_of};
ghost use Rattle.refusals.specs.Refused.{number_in};
ghost use Rattle.ring.specs.Told.{as_answer};
ghost use Rattle.ring.specs.Calls.{clear_call, read_call, write_call, sum_call};

use refusals::Refusal;

mod judge;
mod slot;
mod word;

// A refusal number, 0 for none, and a number, which is 0 at a refusal: as C is told it. C has a struct of its own for each.
#[repr(C)]
#[derive(Clone, Copy)]
pub struct Answer {
    pub refusal: u8,
    pub value: u64,
}

impl From<Result<u64, Refusal>> for Answer {
    ghost from_gives = { λ answer told. told ≡ as_answer answer };

    fn from(answer: Result<u64, Refusal>) -> Answer {
        match answer {
            Ok(value) => Answer { refusal: 0, value },
            Err(refusal) => Answer {
                refusal: refusal.number(),
                value: 0,
            },
        }
    }
}

// Sets the first bytes of the ring, as many as it takes, to 0.
#[tactic(auto, using(crate::proofs::Refused::refusing), unfolding(crate::specs::Calls::clear_call, refusals::specs::Call::result_of, refusals::specs::Call::left_of))]
#[inline(always)]
pub fn clear(width: usize, slots: usize, ring: &mut [u8]) -> Result<(), Refusal>
    ensures { (number_in result ≡ result_of (clear_call width slots ring.old)) × (ring.new ≡ left_of (clear_call width slots ring.old)) }
{
    judge::whole(width, slots, ring.len())?.wipe(ring);
    Ok(())
}

// The number in a slot.
#[tactic(auto, using(crate::proofs::Refused::refusing), unfolding(crate::specs::Calls::read_call, refusals::specs::Call::result_of))]
pub fn read(width: usize, slots: usize, ring: &[u8], slot: usize) -> Result<u64, Refusal>
    ensures { as_answer result ≡ result_of (read_call width slots ring.now slot) }
{
    let slots = judge::call(width, slots, ring.len(), slot, false)?;
    Ok(slots.get(ring, slot))
}

// Puts a value into a slot.
#[tactic(auto, using(crate::proofs::Refused::refusing), unfolding(crate::specs::Calls::write_call, refusals::specs::Call::result_of, refusals::specs::Call::left_of))]
pub fn write(
    width: usize,
    slots: usize,
    ring: &mut [u8],
    slot: usize,
    value: u64,
) -> Result<(), Refusal>
    ensures { (number_in result ≡ result_of (write_call width slots ring.old slot value)) × (ring.new ≡ left_of (write_call width slots ring.old slot value)) }
{
    let own = judge::too_large(width, value);
    judge::call(width, slots, ring.len(), slot, own)?.put(ring, slot, value);
    Ok(())
}

// The sum of the j newest slots before the slot `next`; the slot before 0 is the last one.
#[tactic(auto, using(crate::proofs::Refused::refusing), unfolding(crate::specs::Calls::sum_call, refusals::specs::Call::result_of))]
pub fn sum(width: usize, slots: usize, ring: &[u8], next: usize, j: usize) -> Result<u64, Refusal>
    ensures { as_answer result ≡ result_of (sum_call width slots ring.now next j) }
{
    let slots = judge::call(width, slots, ring.len(), next, slots < j)?;
    Ok(slots.sum_newest(ring, next, j))
}
