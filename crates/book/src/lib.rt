// A book of frame counts: it takes one count a frame, or a run of them, and tells, within a tolerance, how much changed over the last i frames.
// The record goes in and comes back by value, the ring is lent. What each call answers and leaves is defined in specs/Calls.antt.

#![tactic(auto)]

ghost use Rattle.std.specs.Prelude.{◌≡◌};
ghost use Rattle.refusals.specs.Call.{result_of, left_of};
ghost use Rattle.book.specs.declared.RunRefusal.TheVariants.{Refused};
ghost use Rattle.book.specs.Record.{no_book_at_all};
ghost use Rattle.book.specs.Told.{as_updated, as_ran, as_figure, as_figures, as_window, as_ruling};
ghost use Rattle.book.specs.Calls.{open_call, add_call, run_call, rest_call, wake_call, total_call, two_totals_call, how_far_call, verdict_call};

use refusals::Refusal;
use verdicts::Notice;

mod adding;
mod distance;
pub mod judge;
pub mod known;
mod resting;
mod running;
pub mod shape;
mod slots;
pub mod told;
mod totals;
mod two_windows;
pub mod verdicts;

// L, n and D, which opening sets; the carry R, the phase p, kept and head, which adding changes; and the resting mark: 0, or the book rests.
// Eight equal numbers, as C has them, the mark too.
#[repr(C)]
#[derive(Clone, Copy, Default)]
pub struct Book {
    pub bound: u64,
    pub length: u64,
    pub tolerance: u64,
    pub carry: u64,
    pub phase: u64,
    pub kept: u64,
    pub head: u64,
    pub resting: u64,
}

// The figures of two windows.
#[derive(Clone, Copy)]
pub struct BothFigures {
    pub shorter: u64,
    pub longer: u64,
}

// Why a run is refused: for the book's sake or its ring's, or since a count is above the bound, and then with the place, from 1, of the first such
// count.
#[derive(Clone, Copy, Debug, PartialEq, Eq)]
pub enum RunRefusal {
    Refused(Refusal),
    CountTooLarge(u64),
}

impl From<Refusal> for RunRefusal {
    ghost from_gives = { λ refusal run_refusal. run_refusal ≡ Refused refusal };

    fn from(refusal: Refusal) -> RunRefusal {
        RunRefusal::Refused(refusal)
    }
}

// Opens a book with a bound, a length and a tolerance, and clears the bytes that its ring takes. (Inlined, as `add` is.)
#[inline(always)]
pub fn open(bound: u64, length: u64, tolerance: u64, ring: &mut [u8]) -> Result<Book, Refusal>
    ensures { (as_updated no_book_at_all result ≡ result_of (open_call bound length tolerance ring.old)) × (ring.new ≡ left_of (open_call bound length tolerance ring.old)) }
{
    let shape = shape::derive(bound, length, tolerance)?;
    if (ring.len() as u64) < shape.bytes {
        return Err(Refusal::RingTooShort);
    }
    slots::clear(shape, ring);
    Ok(Book {
        bound,
        length,
        tolerance,
        ..Book::default()
    })
}

// Adds one item to a book. (Inlined, since the result of a call of its own is copied through memory once more: an add took a fifth more instructions.)
#[inline(always)]
pub fn add(book: Book, ring: &mut [u8], item: u64) -> Result<Book, Refusal>
    ensures { (as_updated book result ≡ result_of (add_call book ring.old item)) × (ring.new ≡ left_of (add_call book ring.old item)) }
{
    let known = judge::takes(book, ring.len())?;
    if book.bound < item {
        return Err(Refusal::ItemTooLarge);
    }
    Ok(known.add(ring, item))
}

// Adds a run of counts to a book, all of them or none.
pub fn run(book: Book, ring: &mut [u8], counts: &[u64]) -> Result<Book, RunRefusal>
    ensures { (as_ran book result ≡ result_of (run_call book ring.old counts.now)) × (ring.new ≡ left_of (run_call book ring.old counts.now)) }
{
    let known = judge::takes(book, ring.len())?;
    if let Some(place) = running::place_above(book.bound, counts) {
        return Err(RunRefusal::CountTooLarge(place));
    }
    Ok(known.add_all(ring, counts))
}

// Gives the record with its mark set: a book that rests takes no items, and its verdict is resting.
pub fn rest(book: Book) -> Result<Book, Refusal>
    ensures { as_updated book result ≡ result_of (rest_call book) }
{
    resting::mark(book, resting::AT_REST)
}

// Gives the record with its mark cleared: the book is awake again.
pub fn wake(book: Book) -> Result<Book, Refusal>
    ensures { as_updated book result ≡ result_of (wake_call book) }
{
    resting::mark(book, resting::AWAKE)
}

// The figure for the last `window` items.
pub fn total(book: Book, ring: &[u8], window: u64) -> Result<u64, Refusal>
    ensures { as_figure result ≡ result_of (total_call book ring.now window) }
{
    let known = judge::usable(book, ring.len())?;
    if book.kept < window {
        return Err(Refusal::WindowTooLong);
    }
    Ok(known.figure(ring, window))
}

// The figures for the last `window` items and for the last `window + more`, with one judgement and one walk. That sum is not made before it is known
// to be within kept.
pub fn two_totals(book: Book, ring: &[u8], window: u64, more: u64) -> Result<BothFigures, Refusal>
    ensures { as_figures result ≡ result_of (two_totals_call book ring.now window more) }
{
    let known = judge::usable(book, ring.len())?;
    if book.kept < window {
        return Err(Refusal::WindowTooLong);
    }
    if book.kept - window < more {
        return Err(Refusal::WindowTooLong);
    }
    Ok(known.figures(ring, window, more))
}

// How far back for an amount: the shortest window whose figure reaches it.
pub fn how_far_back(book: Book, ring: &[u8], amount: u64) -> Result<u64, Refusal>
    ensures { as_window result ≡ result_of (how_far_call book ring.now amount) }
{
    let known = judge::usable(book, ring.len())?;
    if amount == 0 {
        return Err(Refusal::ZeroAsked);
    }
    known.how_far(ring, amount).ok_or(Refusal::NotReached)
}

// The verdict for a window and an amount, as the page is told it.
pub fn verdict(book: Book, ring: &[u8], window: u64, amount: u64) -> Result<Notice, Refusal>
    ensures { as_ruling result ≡ result_of (verdict_call book ring.now window amount) }
{
    let known = judge::usable(book, ring.len())?;
    if amount == 0 {
        return Err(Refusal::ZeroAsked);
    }
    if window == 0 {
        return Err(Refusal::ZeroAsked);
    }
    if book.kept < window {
        return Err(Refusal::WindowTooLong);
    }
    let figure = known.figure(ring, window);
    Ok(Notice {
        window,
        verdict: known.verdict(amount, figure),
    })
}
