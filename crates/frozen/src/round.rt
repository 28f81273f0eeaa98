// A round of the program: turns of watch over the bytes at hand, their rows one behind another in a buffer. (specs/Round.antt)
ghost use Rattle.std.specs.Prelude.{◌+◌, ◌≤◌, ◌≡◌, length};
ghost use Rattle.rows.specs.Calls.{line_most};
ghost use Rattle.watch.specs.Told.{as_turn};
ghost use Rattle.frozen.specs.Desk.{Fits};
ghost use Rattle.frozen.specs.Round.{rows_most, turns_most, used_by, desk_after, go_after, turn_at, round_of, Tells};

use crate::desk::Desk;
use watch::Turn;

// How the program goes on: it takes a turn more, it reads, it ends.
#[derive(Clone, Copy, Debug, PartialEq, Eq)]
pub(crate) enum Go {
    Again,
    Read,
    Done,
}

// So many turns that the rows' buffer has room for a line, 96 bytes, of each.
const TURNS: usize = 42;

// The desk after some turns, how many bytes of rows wait to be written, and how to go on. (`full` and no Vec: memory is fixed.)
#[derive(Clone, Copy)]
pub(crate) struct Round {
    pub(crate) desk: Desk,
    pub(crate) full: usize,
    pub(crate) go: Go,
}

// What follows a turn: behind a row's image, which is the image before now; otherwise at the same desk.
fn after(desk: Desk, turn: Turn, full: usize) -> Round
    requires { desk.at + used_by (as_turn turn) ≤ desk.end }
    ensures { result ≡ record { desk = desk_after desk (as_turn turn); full = full; go = go_after (as_turn turn) } }
{
    match turn {
        Turn::Row(line) => Round {
            desk: Desk {
                state: line.state,
                from: desk.at,
                at: desk.at + line.used,
                ..desk
            },
            full,
            go: Go::Again,
        },
        Turn::Refused(_) | Turn::Ends => Round {
            desk,
            full,
            go: Go::Done,
        },
        Turn::Wait => Round {
            desk,
            full,
            go: Go::Read,
        },
    }
}

// One turn; its row goes behind those that wait. There is room for a line, so that no step is refused.
fn turn(desk: Desk, ring: &mut [u8], buf: &[u8], over: bool, out: &mut [u8], full: usize) -> Round
    requires { Fits desk (length buf.now) × (full + line_most ≤ length out.old) }
    ensures { Tells (turn_at desk ring.old buf.now over) out.old full result ring.new out.new × (result.full ≤ full + line_most) }
{
    let last = &buf[desk.from..desk.at];
    let hand = &buf[desk.at..desk.end];
    let stepped = watch::step(desk.state, ring, last, hand, over, &mut out[full..]).unwrap();
    after(desk, stepped.turn, full + stepped.wrote)
}

// Turns until the bytes at hand give no row more, or the buffer has room for no line more; their rows lie at its start.
pub(crate) fn take_turns(
    desk: Desk,
    ring: &mut [u8],
    buf: &[u8],
    over: bool,
    out: &mut [u8],
) -> Round
    requires { Fits desk (length buf.now) × (rows_most ≤ length out.old) }
    ensures { Tells (round_of turns_most desk ring.old buf.now over) out.old 0 result ring.new out.new × (result.full ≤ rows_most) }
{
    let mut told = Round {
        desk,
        full: 0,
        go: Go::Again,
    };
    for _ in 0..TURNS {
        told = turn(told.desk, ring, buf, over, out, told.full);
        if told.go != Go::Again {
            return told;
        }
    }
    told
}
