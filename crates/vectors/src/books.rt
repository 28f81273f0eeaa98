// The book's calls.
use crate::reading::{Unanswered, number};
use crate::room::{Room, Text};
use crate::text::{Answer, Hex, Record};
use crate::{reading, text};
use book::Book;
use book::shape::Shaped;
use book::told::{Ran, Updated};
use book::verdicts::Verdict;
use refusals::Refusal;
use std::fmt::Write;

// The refusal, then c, s, z, b and B.
pub(crate) fn shape(room: &mut Room, bound: &str, length: &str, tolerance: &str) -> Answer {
    let answer = book::shape::derive(number(bound)?, number(length)?, number(tolerance)?);
    let told = Shaped::from(answer);
    let shape = told.shape;
    Ok(write!(
        room.out,
        "{} {} {} {} {} {}",
        told.refusal, shape.block, shape.slots, shape.largest, shape.width, shape.bytes
    )?)
}

// The refusal, the record and the ring.
pub(crate) fn updated(out: &mut Text, told: Updated, ring: &[u8]) -> Answer {
    Ok(write!(out, "{} {} {}", told.refusal, Record(told.book), Hex(ring))?)
}

pub(crate) fn open(
    room: &mut Room,
    bound: &str,
    length: &str,
    tolerance: &str,
    ring: &str,
) -> Answer {
    reading::bytes(ring, &mut room.first)?;
    let answer = book::open(
        number(bound)?,
        number(length)?,
        number(tolerance)?,
        &mut room.first,
    );
    updated(
        &mut room.out,
        Updated::of(Book::default(), answer),
        &room.first,
    )
}

pub(crate) fn add(room: &mut Room, record: &str, ring: &str, item: &str) -> Answer {
    let book = reading::book(record, ring, &mut room.first)?;
    let answer = book::add(book, &mut room.first, number(item)?);
    updated(&mut room.out, Updated::of(book, answer), &room.first)
}

// The refusal, the place, the record and the ring.
pub(crate) fn ran(out: &mut Text, told: Ran, ring: &[u8]) -> Answer {
    Ok(write!(
        out,
        "{} {} {} {}",
        told.refusal,
        told.place,
        Record(told.book),
        Hex(ring)
    )?)
}

pub(crate) fn run(room: &mut Room, record: &str, ring: &str, counts: &str) -> Answer {
    let book = reading::book(record, ring, &mut room.first)?;
    reading::row(counts, &mut room.counts)?;
    let answer = book::run(book, &mut room.first, &room.counts);
    ran(&mut room.out, Ran::of(book, answer), &room.first)
}

// The refusal and the record, which `set` puts to rest or wakes.
pub(crate) fn mark<F: FnOnce(Book) -> Result<Book, Refusal>>(
    room: &mut Room,
    record: &str,
    set: F,
) -> Answer
    requires { F.IsAlwaysCallable set }
{
    let book = reading::record(record)?;
    let told = Updated::of(book, set(book));
    Ok(write!(room.out, "{} {}", told.refusal, Record(told.book))?)
}

pub(crate) fn total(room: &mut Room, record: &str, ring: &str, window: &str) -> Answer {
    let book = reading::book(record, ring, &mut room.first)?;
    let answer = book::total(book, &room.first, number(window)?);
    text::refusal_and_number(&mut room.out, answer)
}

pub(crate) fn how_far_back(room: &mut Room, record: &str, ring: &str, amount: &str) -> Answer {
    let book = reading::book(record, ring, &mut room.first)?;
    let answer = book::how_far_back(book, &room.first, number(amount)?);
    text::refusal_and_number(&mut room.out, answer)
}

// The refusal, the word of the verdict, and the figure. They have no window, so a verdict is told only if its notice is of the window that was
// asked for.
pub(crate) fn verdict(
    room: &mut Room,
    record: &str,
    ring: &str,
    window: &str,
    amount: &str,
) -> Answer {
    let book = reading::book(record, ring, &mut room.first)?;
    let window = number(window)?;
    match book::verdict(book, &room.first, window, number(amount)?) {
        Ok(notice) if notice.window == window => word_and_figure(&mut room.out, notice.verdict),
        Ok(_) => Err(Unanswered),
        Err(refusal) => Ok(write!(room.out, "{} none 0", refusal.number())?),
    }
}

// (Not an impl of `Display`: `Verdict` is of another crate.)
fn word_and_figure(out: &mut Text, verdict: Verdict) -> Answer {
    let (word, figure) = match verdict {
        Verdict::Live(figure) => ("live", figure),
        Verdict::Frozen(figure) => ("frozen", figure),
        Verdict::Undecided(figure) => ("undecided", figure),
        Verdict::Resting(figure) => ("resting", figure),
    };
    Ok(write!(out, "0 {word} {figure}")?)
}
