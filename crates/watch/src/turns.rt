// The turns of a frame whose image is whole: counted against the frame before it, and shown.
ghost use Rattle.std.specs.Prelude.{◌≡◌, not, ◌&&◌, eqb};
ghost use Rattle.refusals.specs.Numbers.{ends_too_early};
ghost use Rattle.refusals.specs.Refused.{number_of};
ghost use Rattle.book.specs.Told.{as_ruling};
ghost use Rattle.watch.specs.Turn.{verdict_word, word_of, shown_of, counted_of};
ghost use Rattle.watch.specs.Told.{as_turn, as_row};

use crate::{Line, State, Turn, setting};
use book::verdicts::{Notice, Verdict};
use refusals::Refusal;
use rows::Word;

impl From<Result<Line, Refusal>> for Turn {
    ghost from_gives = { λ row turn. as_turn turn ≡ as_row row };

    fn from(row: Result<Line, Refusal>) -> Turn {
        match row {
            Ok(line) => Turn::Row(line),
            Err(refusal) => Turn::Refused(refusal),
        }
    }
}

// The image ends too early, but more bytes may come.
pub(crate) fn short_yet(refusal: Refusal, over: bool) -> bool
    ensures { result ≡ (not over && eqb (number_of refusal) ends_too_early) }
{
    !over && refusal == Refusal::EndsTooEarly
}

// The word of a verdict. (No run of the program comes to `resting`.)
// Not by `From`: both types are of other crates, and an impl has to stand in one of theirs.
fn verdict_word(verdict: Verdict) -> Word
    ensures { result ≡ verdict_word verdict }
{
    match verdict {
        Verdict::Live(_) => Word::Live,
        Verdict::Frozen(_) => Word::Frozen,
        Verdict::Undecided(_) => Word::Undecided,
        Verdict::Resting(_) => Word::Resting,
    }
}

// The word of an answer: `early` where there is no verdict yet. (Not by `From` either: neither type is of this crate.)
fn word_of(ruling: Result<Notice, Refusal>) -> Word
    ensures { result ≡ word_of (as_ruling ruling) }
{
    match ruling {
        Ok(notice) => verdict_word(notice.verdict),
        Err(_) => Word::Early,
    }
}

// The row of the frame, with what the book now says. (No run comes to the last frame number.)
pub(crate) fn shown(
    state: State,
    ring: &[u8],
    score: Option<u64>,
    used: usize,
) -> Result<Line, Refusal>
    ensures { as_row result ≡ shown_of state ring.now score used }
{
    let book = state.book;
    let total = book::total(book, ring, book.kept)?;
    let word = word_of(book::verdict(book, ring, setting::WINDOW, setting::AMOUNT));
    Ok(Line {
        state: State {
            frames: state.frames.saturating_add(1),
            ..state
        },
        used,
        score,
        total,
        word,
    })
}

// The frame's score goes into the book.
pub(crate) fn counted(
    state: State,
    ring: &mut [u8],
    last: &[u8],
    image: &[u8],
) -> Result<Line, Refusal>
    ensures { (as_row result ≡ (counted_of state ring.old last.now image.now).turn) × (ring.new ≡ (counted_of state ring.old last.now image.now).ring) }
{
    let score = score::score(setting::BOUND, setting::ALLOWANCE, last, image)?;
    let book = book::add(state.book, ring, score)?;
    shown(State { book, ..state }, ring, Some(score), image.len())
}
