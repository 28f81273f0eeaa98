// The ring's calls.
ghost use Rattle.std.specs.Prelude.{◌≡◌};
ghost use Rattle.refusals.specs.Call.{result_of, left_of};
ghost use Rattle.ring.specs.Calls.{clear_call, read_call, write_call, sum_call};

use crate::crossing;

// Sets the first bytes of the ring, as many as it takes, to 0.
#[unsafe(no_mangle)]
pub extern "C" fn uprzezar_ring_clear(width: usize, slots: usize, ring: &mut [u8]) -> u8
    ensures { (result ≡ result_of (clear_call width slots ring.old)) × (ring.new ≡ left_of (clear_call width slots ring.old)) }
{
    crossing::number(ring::clear(width, slots, ring))
}

// The number in a slot.
#[unsafe(no_mangle)]
pub extern "C" fn uprzezar_ring_read(
    width: usize,
    slots: usize,
    ring: &[u8],
    slot: usize,
) -> ring::Answer
    ensures { result ≡ result_of (read_call width slots ring.now slot) }
{
    ring::Answer::from(ring::read(width, slots, ring, slot))
}

// Puts a value into a slot.
#[unsafe(no_mangle)]
pub extern "C" fn uprzezar_ring_write(
    width: usize,
    slots: usize,
    ring: &mut [u8],
    slot: usize,
    value: u64,
) -> u8
    ensures { (result ≡ result_of (write_call width slots ring.old slot value)) × (ring.new ≡ left_of (write_call width slots ring.old slot value)) }
{
    crossing::number(ring::write(width, slots, ring, slot, value))
}

// The sum of the j newest slots before the slot `next`.
#[unsafe(no_mangle)]
pub extern "C" fn uprzezar_ring_sum(
    width: usize,
    slots: usize,
    ring: &[u8],
    next: usize,
    j: usize,
) -> ring::Answer
    ensures { result ≡ result_of (sum_call width slots ring.now next j) }
{
    ring::Answer::from(ring::sum(width, slots, ring, next, j))
}
