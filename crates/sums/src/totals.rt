// The figure for the last i items of a book, by the row: specs/Rule.antt.
ghost use Rattle.std.specs.Prelude.{◌≡◌, ◌*◌, ◌≤◌, ◌<◌, length};
ghost use Rattle.book.specs.Figure.{slots_for, reckoned};
ghost use Rattle.sums.specs.Row.{entries_for};
ghost use Rattle.sums.specs.Rule.{oldest_slot, fields_for, sums_for, figure_by_row};

use crate::{RowTotal, rule};
use book::known::Known;

// j = ceil((i − p)/c), the slots that a window needs. Both have few bits: the shorter division is the quicker one.
fn slots_for(known: Known, window: u64) -> u64
    requires { (known.book.phase < window) × (window ≤ known.book.kept) }
    ensures { result ≡ slots_for known.book window }
{
    let block = known.shape.block;
    let up = window - known.book.phase + (block - 1);
    (up as u32 / block as u32) as u64
}

// The oldest of the j newest slots before head: where their run begins.
#[tactic(auto, unfolding(crate::specs::Rule::oldest_slot))]
pub fn oldest(slots: u64, head: u64, j: u64) -> u64
    ensures { result ≡ oldest_slot slots head j }
{
    if j <= head {
        head - j
    } else {
        slots.saturating_sub(j - head)
    }
}

// R + D·sum − (D − 1) − e·L·g, or 0 if that is negative: as the book's own total reckons, but for any sum that a row may tell, up to 2^34.
fn reckon(known: Known, sum: u64, e: u64, g: u64) -> u64
    requires { (sum ≤ 17179869184) × (e * known.book.bound ≤ 268435456) × (g ≤ 65535) }
    ensures { result ≡ reckoned known.book sum e g }
{
    let book = known.book;
    let whole = book.carry + book.tolerance * sum;
    let off = book.tolerance - 1 + e * book.bound * g;
    whole.saturating_sub(off)
}

// The figure of a window longer than the open block: the sum of its slots by the rule, and g by itself.
pub(crate) fn by_row(known: Known, ring: &[u8], row: &[u32], window: u64) -> RowTotal
    requires { (known.shape.bytes ≤ length ring.now) × (entries_for known.shape.slots ≤ length row.now) × (known.book.phase < window) × (window ≤ known.book.kept) }
    ensures { result ≡ record { figure = figure_by_row known.book ring.now row.now window; fields = fields_for known.book window; sums = sums_for known.book window } }
{
    let book = known.book;
    let shape = known.shape;
    let j = slots_for(known, window);
    let newest = rule::read_newest(known, ring, row, j);
    let g = ring::read(
        shape.width as usize,
        shape.slots as usize,
        ring,
        oldest(shape.slots, book.head, j) as usize,
    )
    .unwrap();
    RowTotal {
        figure: reckon(
            known,
            newest.sum,
            j * shape.block - (window - book.phase),
            g,
        ),
        fields: newest.fields + 1,
        sums: newest.sums,
    }
}
