// How far back for an amount: one walk over the blocks, and one division inside the block that reaches it.
ghost use Rattle.std.specs.Prelude.{◌≡◌, ◌-◌, ◌/◌, ◌<◌, ◌≤◌, length};
ghost use Rattle.book.specs.Record.{held_in};
ghost use Rattle.book.specs.HowFar.{how_far_back};
ghost use Rattle.book.specs.Stops.{Stopped, furthest};
ghost use Rattle.book.specs.OrNone.{unless_0};

use crate::known::Known;
use crate::slots;

// Where the walk stops: behind `blocks` blocks. `total` is the carry with D times their slots, `quotient` that of the oldest.
#[derive(Clone, Copy)]
struct Stop {
    blocks: u64,
    total: u64,
    quotient: u64,
}

impl Known {
    // The figure where a block ends.
    fn end_figure(self, total: u64) -> u64
        ensures { result ≡ total - (self.book.tolerance - 1) }
    {
        total.saturating_sub(self.book.tolerance - 1)
    }

    // floor(R/D) without a division: D − 1 and the open block's items are less than twice D.
    fn open_quotient(self) -> u64
        ensures { result ≡ self.book.carry / self.book.tolerance }
    {
        if self.book.carry < self.book.tolerance {
            0
        } else {
            1
        }
    }

    // Walks back over the blocks that are kept, each slot once, to the first whose end reaches the amount. `behind` items are walked over, a block
    // of them in each turn. (A `for` is no plainer: how many blocks there are would have to be divided out first, and where it broke off be kept.)
    fn walk(self, ring: &[u8], amount: u64) -> Stop
        requires { self.shape.bytes ≤ length ring.now }
        ensures { Stopped self.book (held_in self.book ring.now) amount result }
    {
        let mut slot = self.book.head;
        let mut blocks = 0;
        let mut total = self.book.carry;
        let mut quotient = self.open_quotient();
        let mut behind = self.book.phase;
        while behind < self.book.kept && self.end_figure(total) < amount {
            slot = slots::before(self.shape.slots, slot);
            quotient = self.get(ring, slot);
            total += self.book.tolerance * quotient;
            blocks += 1;
            behind += self.shape.block;
        }
        Stop {
            blocks,
            total,
            quotient,
        }
    }

    // How far before the end of `blocks` blocks a window can lie.
    fn most_places(self, blocks: u64) -> u64
        ensures { result ≡ furthest self.book blocks }
    {
        if blocks == 0 {
            self.book.phase.saturating_sub(1)
        } else {
            self.shape.block - 1
        }
    }

    // The shortest window whose figure reaches the amount, if any that is kept does. In the block where the walk stops each place before its end takes
    // L times the quotient off the figure, which has the rest of the amount to spare.
    pub(crate) fn how_far(self, ring: &[u8], amount: u64) -> Option<u64>
        requires { (self.shape.bytes ≤ length ring.now) × (0 < amount) }
        ensures { result ≡ unless_0 (how_far_back self.book ring.now amount) }
    {
        let stop = self.walk(ring, amount);
        let end = self.end_figure(stop.total);
        if end < amount {
            return None;
        }
        let fit = (end - amount) / (self.book.bound * stop.quotient);
        let places = self.most_places(stop.blocks).min(fit);
        let window = self.book.phase + stop.blocks * self.shape.block - places;
        if self.book.kept < window {
            return None;
        }
        Some(window)
    }
}
