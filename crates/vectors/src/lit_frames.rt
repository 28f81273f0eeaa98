// The calls on lit frames.
use crate::reading::{bytes, number};
use crate::room::Room;
use crate::text;
use crate::text::Answer;
use refusals::Refusal;

// `row length`, and what the call asks for.
pub(crate) fn ask<F: FnOnce(&[u8], usize, usize) -> Result<usize, Refusal>>(
    room: &mut Room,
    row: &str,
    length: &str,
    asked: &str,
    call: F,
) -> Answer
    requires { F.IsAlwaysCallable call }
{
    bytes(row, &mut room.first)?;
    let answer = call(&room.first, number(length)?, number(asked)?);
    text::refusal_and_number(&mut room.out, answer)
}

// `row length step`, and what the call asks for. (Not one with `ask`: each call would have to read the step from its word.)
pub(crate) fn ask_by_step<F: FnOnce(&[u8], usize, usize, usize) -> Result<usize, Refusal>>(
    room: &mut Room,
    row: &str,
    length: &str,
    step: &str,
    asked: &str,
    call: F,
) -> Answer
    requires { F.IsAlwaysCallable call }
{
    bytes(row, &mut room.first)?;
    let answer = call(&room.first, number(length)?, number(step)?, number(asked)?);
    text::refusal_and_number(&mut room.out, answer)
}

// The byte comes as a number, and is never refused.
pub(crate) fn in_byte(room: &mut Room, byte: &str, k: &str) -> Answer {
    let place = lit::in_byte(number(byte)?, number(k)?);
    text::refusal_and_number(&mut room.out, Ok(place))
}
