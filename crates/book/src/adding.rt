// Adding one item to a book that takes it, and closing a block, which a run of counts does too: specs/Adding.antt.
ghost use Rattle.std.specs.Prelude.{◌≡◌, ◌-◌, ◌*◌, ◌/◌, ◌^◌, ◌<◌, ◌≤◌, length};
ghost use Rattle.ring.specs.Slot.{written};
ghost use Rattle.book.specs.Adding.{slot_after, added, added_ring};

use crate::Book;
use crate::known::Known;

// Head moves on by one, from the last slot to 0.
#[tactic(auto, unfolding(crate::specs::Adding::slot_after))]
fn slot_after(slots: u64, head: u64) -> u64
    requires { head < slots }
    ensures { result ≡ slot_after slots head }
{
    if head + 1 == slots { 0 } else { head + 1 }
}

// What closing a block leaves: the carry, and the slot that is written next.
#[derive(Clone, Copy)]
pub(crate) struct Closed {
    pub(crate) carry: u64,
    pub(crate) head: u64,
}

impl Known {
    // A block closes with this carry: the quotient goes into the ring's slot head, and what is left of the carry is the remainder. (As a call of its
    // own it had the whole judged book written to memory first, in each add.)
    #[inline(always)]
    pub(crate) fn close(self, ring: &mut [u8], head: u64, carry: u64) -> Closed
        requires { (self.shape.bytes ≤ length ring.old) × (head < self.shape.slots) × (carry / self.book.tolerance < 2 ^ self.shape.width) }
        ensures { (result ≡ record { carry = carry - carry / self.book.tolerance * self.book.tolerance; head = slot_after self.shape.slots head }) × (ring.new ≡ written self.shape.width ring.old head (carry / self.book.tolerance)) }
    {
        let quotient = carry / self.book.tolerance;
        self.put(ring, head, quotient);
        Closed {
            carry: carry - quotient * self.book.tolerance,
            head: slot_after(self.shape.slots, head),
        }
    }

    // The record after the item; where the block closes, the quotient goes into the ring's slot head.
    pub(crate) fn add(self, ring: &mut [u8], item: u64) -> Book
        requires { (self.shape.bytes ≤ length ring.old) × (item ≤ self.book.bound) }
        ensures { (result ≡ added self.book item) × (ring.new ≡ added_ring self.book ring.old item) }
    {
        let book = self.book;
        let carry = book.carry + item;
        let kept = book.length.min(book.kept + 1);
        let phase = book.phase + 1;
        if phase != self.shape.block {
            return Book {
                carry,
                phase,
                kept,
                ..book
            };
        }
        let closed = self.close(ring, book.head, carry);
        Book {
            carry: closed.carry,
            phase: 0,
            kept,
            head: closed.head,
            ..book
        }
    }
}
