// A run of counts: a look at all of them, then block by block into the book. specs/RunOfCounts.antt.
ghost use Rattle.std.specs.Prelude.{◌≡◌, ◌+◌, ◌^◌, ◌<◌, ◌≤◌, false, length, sum, nat_lt};
ghost use Rattle.std.specs.List.{position};
ghost use Rattle.book.specs.RunOfCounts.{any_above, place_above, added_all, added_all_ring};
ghost use Rattle.book.specs.RunSteps.{Looked};
ghost use Rattle.book.specs.OrNone.{unless_0};

use crate::Book;
use crate::known::Known;

const TOP_BIT: u64 = 1 << 63;

// One pass over all counts, two of them in a vector register: what comes out has the top bit set exactly where a count is above the bound.
// Such a count has it set itself, or the bound less the count, modulo 2^64, has; of no other count is that so.
fn look(bound: u64, counts: &[u64]) -> u64
    requires { bound ≤ 65535 }
    ensures { Looked bound counts.now result }
{
    let mut seen = 0;
    for count in counts {
        seen |= *count | bound.wrapping_sub(*count);
    }
    seen
}

// The place, from 1, of the first count above the bound, if there is one. The search alone would do; a look at all counts is quicker, and
// mostly there is nothing to search for.
pub(crate) fn place_above(bound: u64, counts: &[u64]) -> Option<u64>
    requires { bound ≤ 65535 }
    ensures { result ≡ unless_0 (place_above bound counts.now) }
{
    if look(bound, counts) < TOP_BIT {
        return None;
    }
    let before = first_above(bound, counts)?;
    Some(before as u64 + 1)
}

// The index of that count.
fn first_above(bound: u64, counts: &[u64]) -> Option<usize>
    ensures { result ≡ position (λ count. nat_lt bound count) counts.now }
{
    counts.iter().position(|count| bound < *count)
}

// The carry with counts of one block, where there are four or more two of them in a vector register.
fn gather(carry: u64, counts: &[u64]) -> u64
    requires { carry + sum counts.now < 2 ^ 64 }
    ensures { result ≡ carry + sum counts.now }
{
    carry + counts.iter().sum::<u64>()
}

impl Known {
    // Block by block: as long as the counts that are left fill the open block, they close it; the last ones leave it open. `room` is how many
    // items the open block still takes: at first what it lacks, then a whole block, so that no iterator over parts of one size goes through them.
    pub(crate) fn add_all(self, ring: &mut [u8], counts: &[u64]) -> Book
        requires { (self.shape.bytes ≤ length ring.old) × (any_above self.book.bound counts.now ≡ false) }
        ensures { (result ≡ added_all self.book counts.now) × (ring.new ≡ added_all_ring self.book ring.old counts.now) }
    {
        let book = self.book;
        let mut carry = book.carry;
        let mut head = book.head;
        let mut room = (self.shape.block - book.phase) as usize;
        let mut left = counts;
        while room <= left.len() {
            let (block, later) = left.split_at(room);
            let whole = gather(carry, block);
            let closed = self.close(ring, head, whole);
            carry = closed.carry;
            head = closed.head;
            left = later;
            room = self.shape.block as usize;
        }
        Book {
            carry: gather(carry, left),
            phase: self.shape.block - room as u64 + left.len() as u64,
            kept: book.length.min(book.kept + counts.len() as u64),
            head,
            ..book
        }
    }
}
