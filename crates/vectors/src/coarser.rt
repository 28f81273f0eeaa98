// The calls that make a book coarser, in a second ring.
use crate::reading::{bytes, number};
use crate::room::{Room, Text};
use crate::text::{Answer, Hex, Record};
use crate::{reading, text};
use coarse::told::Coarser;
use std::fmt::Write;

// The refusal, the record, the bytes that the second ring takes, and that ring.
fn coarser(out: &mut Text, told: Coarser, second: &[u8]) -> Answer {
    Ok(write!(
        out,
        "{} {} {} {}",
        told.refusal,
        Record(told.book),
        told.bytes,
        Hex(second)
    )?)
}

pub(crate) fn coarsen(
    room: &mut Room,
    record: &str,
    ring: &str,
    times: &str,
    second: &str,
) -> Answer {
    let book = reading::book(record, ring, &mut room.first)?;
    bytes(second, &mut room.second)?;
    let answer = coarse::coarsen(book, &room.first, number(times)?, &mut room.second);
    coarser(&mut room.out, Coarser::of(book, answer), &room.second)
}

// The same, and the row. (Not one with `coarsen`: the calls differ by the row, and what they share is in `coarser`.)
pub(crate) fn coarsen_row(
    room: &mut Room,
    record: &str,
    ring: &str,
    times: &str,
    second: &str,
    row: &str,
) -> Answer {
    let book = reading::book(record, ring, &mut room.first)?;
    bytes(second, &mut room.second)?;
    reading::row(row, &mut room.sums)?;
    let answer = coarse::coarsen_row(
        book,
        &room.first,
        number(times)?,
        &mut room.second,
        &mut room.sums,
    );
    coarser(&mut room.out, Coarser::of(book, answer), &room.second)?;
    text::with_row(&mut room.out, &room.sums)
}
