// The calls of a book with a row of sums. (Beside those of books.rt: they differ by the row, and what they share is in `updated` and `ran`.)
use crate::books::{ran, updated};
use crate::reading::{bytes, number};
use crate::room::Room;
use crate::text::Answer;
use crate::{reading, text};
use book::Book;
use book::told::{Ran, Updated};
use std::fmt::Write;
use sums::told::Summed;

// The refusal, the record, the ring and the row.
pub(crate) fn open(
    room: &mut Room,
    bound: &str,
    length: &str,
    tolerance: &str,
    ring: &str,
    row: &str,
) -> Answer {
    bytes(ring, &mut room.first)?;
    reading::row(row, &mut room.sums)?;
    let answer = sums::open(
        number(bound)?,
        number(length)?,
        number(tolerance)?,
        &mut room.first,
        &mut room.sums,
    );
    updated(
        &mut room.out,
        Updated::of(Book::default(), answer),
        &room.first,
    )?;
    text::with_row(&mut room.out, &room.sums)
}

// The refusal, the record, the ring and the row.
pub(crate) fn add(room: &mut Room, record: &str, ring: &str, row: &str, item: &str) -> Answer {
    let book = reading::book(record, ring, &mut room.first)?;
    reading::row(row, &mut room.sums)?;
    let answer = sums::add(book, &mut room.first, &mut room.sums, number(item)?);
    updated(&mut room.out, Updated::of(book, answer), &room.first)?;
    text::with_row(&mut room.out, &room.sums)
}

// The refusal, the place, the record, the ring and the row.
pub(crate) fn run(room: &mut Room, record: &str, ring: &str, row: &str, counts: &str) -> Answer {
    let book = reading::book(record, ring, &mut room.first)?;
    reading::row(row, &mut room.sums)?;
    reading::row(counts, &mut room.counts)?;
    let answer = sums::run(book, &mut room.first, &mut room.sums, &room.counts);
    ran(&mut room.out, Ran::of(book, answer), &room.first)?;
    text::with_row(&mut room.out, &room.sums)
}

// The refusal, the figure, and how many fields and sums were read.
pub(crate) fn total(room: &mut Room, record: &str, ring: &str, row: &str, window: &str) -> Answer {
    let book = reading::book(record, ring, &mut room.first)?;
    reading::row(row, &mut room.sums)?;
    let told = Summed::from(sums::total(book, &room.first, &room.sums, number(window)?));
    Ok(write!(
        room.out,
        "{} {} {} {}",
        told.refusal, told.figure, told.fields, told.sums
    )?)
}
