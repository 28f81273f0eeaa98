// The figure for the last i items of a book: specs/Figure.antt.
ghost use Rattle.std.specs.Prelude.{◌≡◌, ◌*◌, ◌<◌, ◌≤◌, length};
ghost use Rattle.book.specs.Figure.{reckoned, figure};

use crate::known::Known;
use crate::shape::ceil_div;
use crate::slots;

impl Known {
    // R + D·sum − (D − 1) − e·L·g, or 0 if that is negative.
    pub(crate) fn reckon(self, sum: u64, e: u64, g: u64) -> u64
        requires { (sum ≤ 536870912) × (e * self.book.bound ≤ 268435456) × (g ≤ 1073741824) }
        ensures { result ≡ reckoned self.book sum e g }
    {
        let book = self.book;
        let whole = book.carry + book.tolerance * sum;
        whole.saturating_sub(book.tolerance - 1 + e * book.bound * g)
    }

    // The figure. Each slot that the window needs is read once: all but the oldest by the ring's sum, the oldest by itself.
    pub(crate) fn figure(self, ring: &[u8], window: u64) -> u64
        requires { (self.shape.bytes ≤ length ring.now) × (window ≤ self.book.kept) }
        ensures { result ≡ figure self.book ring.now window }
    {
        let book = self.book;
        if window <= book.phase {
            return self.reckon(0, book.phase - window, book.carry / book.tolerance);
        }
        let items = window - book.phase;
        let j = ceil_div(items, self.shape.block);
        let newer = self.sum_newest(ring, book.head, j - 1);
        let last = self.get(ring, slots::place(self.shape.slots, book.head, j));
        self.reckon(newer + last, j * self.shape.block - items, last)
    }
}
