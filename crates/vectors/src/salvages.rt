// The calls that salvage a ring. The row of slot numbers is read as one of sums is.
use crate::room::{Room, Text};
use crate::text::{Answer, Hex, Record};
use crate::{reading, text};
use salvage::told::Salvaged;
use std::fmt::Write;

// The refusal, how many slots were altered, the record, the ring and the row of slot numbers.
fn salvaged(out: &mut Text, told: Salvaged, ring: &[u8], slots: &[u32]) -> Answer {
    write!(
        out,
        "{} {} {} {}",
        told.refusal,
        told.count,
        Record(told.book),
        Hex(ring)
    )?;
    text::with_row(out, slots)
}

pub(crate) fn salvage(room: &mut Room, record: &str, ring: &str, numbers: &str) -> Answer {
    let book = reading::book(record, ring, &mut room.first)?;
    reading::row(numbers, &mut room.slots)?;
    let answer = salvage::salvage(book, &mut room.first, &mut room.slots);
    salvaged(
        &mut room.out,
        Salvaged::of(book, answer),
        &room.first,
        &room.slots,
    )
}

// The same, and the row of sums. (Not one with `salvage`: the calls differ by the row, and what they share is in `salvaged`.)
pub(crate) fn salvage_row(
    room: &mut Room,
    record: &str,
    ring: &str,
    numbers: &str,
    row: &str,
) -> Answer {
    let book = reading::book(record, ring, &mut room.first)?;
    reading::row(numbers, &mut room.slots)?;
    reading::row(row, &mut room.sums)?;
    let answer = salvage::salvage_row(book, &mut room.first, &mut room.slots, &mut room.sums);
    salvaged(
        &mut room.out,
        Salvaged::of(book, answer),
        &room.first,
        &room.slots,
    )?;
    text::with_row(&mut room.out, &room.sums)
}
