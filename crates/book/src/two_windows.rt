// The figures of two windows of a book, the longer one reckoned on from where the shorter one ends: specs/Figure.antt.
ghost use Rattle.std.specs.Prelude.{◌≡◌, ◌+◌, ◌≤◌, length};
ghost use Rattle.book.specs.Figure.{figure};

use crate::known::Known;
use crate::shape::ceil_div;
use crate::{BothFigures, slots};

impl Known {
    // The figures for the last `window` items and for the last `window + more`. Of the longer window only the slots older than those of the shorter
    // one are still to be summed. Where the shorter one is within the open block it reads no slot, and there is nothing to share.
    pub(crate) fn figures(self, ring: &[u8], window: u64, more: u64) -> BothFigures
        requires { (self.shape.bytes ≤ length ring.now) × (window + more ≤ self.book.kept) }
        ensures { result ≡ record { shorter = figure self.book ring.now window; longer = figure self.book ring.now (window + more) } }
    {
        let book = self.book;
        let shape = self.shape;
        if window <= book.phase {
            return BothFigures {
                shorter: self.figure(ring, window),
                longer: self.figure(ring, window + more),
            };
        }
        let items = window - book.phase;
        let near = ceil_div(items, shape.block);
        let far = ceil_div(items + more, shape.block);
        let place = slots::place(shape.slots, book.head, near);
        let last = self.get(ring, place);
        let sum = self.sum_newest(ring, book.head, near - 1) + last;
        let older = self.sum_newest(ring, place, far - near);
        let oldest = self.get(ring, slots::place(shape.slots, book.head, far));
        BothFigures {
            shorter: self.reckon(sum, near * shape.block - items, last),
            longer: self.reckon(sum + older, far * shape.block - (items + more), oldest),
        }
    }
}
