// The calls on two windows at once: the trend, and two totals.
use crate::reading::number;
use crate::room::Room;
use crate::text::Answer;
use crate::{reading, text};
use std::fmt::Write;

pub(crate) fn trend(room: &mut Room, record: &str, ring: &str, window: &str) -> Answer {
    let book = reading::book(record, ring, &mut room.first)?;
    let answer = trend::trend(book, &room.first, number(window)?);
    text::refusal_and_number(&mut room.out, answer)
}

// The refusal, the figure of the shorter window and that of the longer one.
pub(crate) fn totals(
    room: &mut Room,
    record: &str,
    ring: &str,
    window: &str,
    more: &str,
) -> Answer {
    let book = reading::book(record, ring, &mut room.first)?;
    match book::two_totals(book, &room.first, number(window)?, number(more)?) {
        Ok(both) => Ok(write!(room.out, "0 {} {}", both.shorter, both.longer)?),
        Err(refusal) => Ok(write!(room.out, "{} 0 0", refusal.number())?),
    }
}
