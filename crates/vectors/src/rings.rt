// The ring's own calls, `width slots ring` and up to two numbers.
use crate::reading::{bytes, number};
use crate::room::{Room, Text};
use crate::text;
use crate::text::{Answer, Hex};
use refusals::Refusal;
use std::fmt::Write;

// The refusal and the ring.
fn written(out: &mut Text, answer: Result<(), Refusal>, ring: &[u8]) -> Answer {
    Ok(write!(out, "{} {}", text::refusal(answer), Hex(ring))?)
}

pub(crate) fn clear(room: &mut Room, width: &str, slots: &str, ring: &str) -> Answer {
    bytes(ring, &mut room.first)?;
    let answer = ring::clear(number(width)?, number(slots)?, &mut room.first);
    written(&mut room.out, answer, &room.first)
}

pub(crate) fn read(room: &mut Room, width: &str, slots: &str, ring: &str, slot: &str) -> Answer {
    bytes(ring, &mut room.first)?;
    let answer = ring::read(number(width)?, number(slots)?, &room.first, number(slot)?);
    text::refusal_and_number(&mut room.out, answer)
}

pub(crate) fn write(
    room: &mut Room,
    width: &str,
    slots: &str,
    ring: &str,
    slot: &str,
    value: &str,
) -> Answer {
    bytes(ring, &mut room.first)?;
    let answer = ring::write(
        number(width)?,
        number(slots)?,
        &mut room.first,
        number(slot)?,
        number(value)?,
    );
    written(&mut room.out, answer, &room.first)
}

pub(crate) fn sum(
    room: &mut Room,
    width: &str,
    slots: &str,
    ring: &str,
    next: &str,
    j: &str,
) -> Answer {
    bytes(ring, &mut room.first)?;
    let answer = ring::sum(
        number(width)?,
        number(slots)?,
        &room.first,
        number(next)?,
        number(j)?,
    );
    text::refusal_and_number(&mut room.out, answer)
}
