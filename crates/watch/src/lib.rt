// What a frame leads to: the score against the frame before it goes into the book, and a row tells what the book now says.
// What a turn comes to is defined in specs/Turn.antt; the two calls in specs/Calls.antt; the whole output in specs/Output.antt.

#![tactic(auto)]

ghost use Rattle.std.specs.Prelude.{◌≡◌, ◌≤◌, IfOk};
ghost use Rattle.refusals.specs.Call.{result_of, left_of};
ghost use Rattle.rows.specs.Calls.{line_most};
ghost use Rattle.watch.specs.Turn.{outcome_of};
ghost use Rattle.watch.specs.Calls.{start_call, step_call};
ghost use Rattle.watch.specs.Told.{as_turn, as_started, as_stepped};

use book::Book;
use refusals::Refusal;
use rows::{LINE_MOST, Word};

mod say;
pub mod setting;
mod turns;

// The book, and how many frames have come.
#[derive(Clone, Copy)]
pub struct State {
    pub book: Book,
    pub frames: u64,
}

// What a row says: the state after the frame, the bytes that its image took, and the row's own fields. The first frame has no score.
#[derive(Clone, Copy)]
pub struct Line {
    pub state: State,
    pub used: usize,
    pub score: Option<u64>,
    pub total: u64,
    pub word: Word,
}

// What comes of the bytes at hand: a row, a refusal that ends the run, the end of the input, or that more bytes are needed.
#[derive(Clone, Copy)]
pub enum Turn {
    Row(Line),
    Refused(Refusal),
    Ends,
    Wait,
}

// What a step gives: its turn, and how many bytes of its row were written.
#[derive(Clone, Copy)]
pub struct Stepped {
    pub turn: Turn,
    pub wrote: usize,
}

// Opens the book of the setting in a lent ring: the state before the first frame.
pub fn start(ring: &mut [u8]) -> Result<State, Refusal>
    ensures { (as_started result ≡ result_of (start_call ring.old)) × (ring.new ≡ left_of (start_call ring.old)) }
{
    let book = book::open(setting::BOUND, setting::LENGTH, setting::TOLERANCE, ring)?;
    Ok(State { book, frames: 0 })
}

// One turn: `last` is the image of the frame before, `rest` the bytes behind it, and `over` says that no more will come. The row goes
// to the start of `out`. Whether it has room for a row is asked before anything changes.
pub fn step(
    state: State,
    ring: &mut [u8],
    last: &[u8],
    rest: &[u8],
    over: bool,
    out: &mut [u8],
) -> Result<Stepped, Refusal>
    ensures told { (as_stepped result ≡ result_of (step_call state ring.old last.now rest.now over out.old)) × ((ring.new, out.new) ≡ left_of (step_call state ring.old last.now rest.now over out.old)) }
    ensures room { IfOk result (λ stepped. stepped.wrote ≤ line_most) }
{
    if out.len() < LINE_MOST {
        return Err(Refusal::BufferTooShort);
    }
    let turn = decide(state, ring, last, rest, over);
    // (No run comes to the last frame number.)
    let frame = state.frames.saturating_add(1);
    let wrote = say::turn(frame, turn, out);
    Ok(Stepped { turn, wrote })
}

// What the bytes at hand lead to; nothing is written yet. (The parameters are those of `step`, which is public and keeps them.)
fn decide(state: State, ring: &mut [u8], last: &[u8], rest: &[u8], over: bool) -> Turn
    ensures { (as_turn result ≡ (outcome_of state ring.old last.now rest.now over).turn) × (ring.new ≡ (outcome_of state ring.old last.now rest.now over).ring) }
{
    if rest.is_empty() {
        return if over { Turn::Ends } else { Turn::Wait };
    }
    match image::header(rest) {
        Err(refusal) if turns::short_yet(refusal, over) => Turn::Wait,
        Err(refusal) => Turn::Refused(refusal),
        Ok(layout) if state.frames == 0 => {
            Turn::from(turns::shown(state, ring, None, layout.used))
        }
        Ok(layout) => Turn::from(turns::counted(state, ring, last, &rest[..layout.used])),
    }
}
