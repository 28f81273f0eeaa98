// Numbers, records, bytes and rows from their text.
ghost use Rattle.std.specs.Prelude.{◌<◌, IfOk};

use crate::room::{Bytes, Row, Zones};
use arrayvec::{ArrayVec, CapacityError};
use book::Book;
use std::fmt;
use std::num::ParseIntError;
use std::str::FromStr;

// A line that cannot be read, and so has no answer.
#[derive(Clone, Copy, Debug)]
pub(crate) struct Unanswered;

impl From<ParseIntError> for Unanswered {
    fn from(_error: ParseIntError) -> Unanswered {
        Unanswered
    }
}

// More bytes, numbers, records or words than are taken.
impl<T: Drop> From<CapacityError<T>> for Unanswered {
    fn from(_error: CapacityError<T>) -> Unanswered {
        Unanswered
    }
}

// An answer longer than its room. None is.
impl From<fmt::Error> for Unanswered {
    fn from(_error: fmt::Error) -> Unanswered {
        Unanswered
    }
}

// A number that its type holds: one digit or more and nothing else. Zeros may lead, and a plus sign, which `parse` would take, may not.
pub(crate) fn number<N: FromStr<Err = ParseIntError>>(text: &str) -> Result<N, Unanswered> {
    if text.starts_with('+') {
        return Err(Unanswered);
    }
    Ok(text.parse()?)
}

// Items with a separator between them, `-` for none; more than `MOST` are not taken.
fn list<T: Default + Drop, const MOST: usize, F: Fn(&str) -> Result<T, Unanswered>>(
    text: &str,
    separator: char,
    item: F,
    items: &mut ArrayVec<T, MOST>,
) -> Result<(), Unanswered>
    requires { F.IsAlwaysCallable item }
{
    items.clear();
    if text == "-" {
        return Ok(());
    }
    for part in text.split(separator) {
        items.try_push(item(part)?)?;
    }
    Ok(())
}

// A row of numbers joined by commas.
pub(crate) fn row<N: FromStr<Err = ParseIntError> + Default + Drop>(
    text: &str,
    numbers: &mut Row<N>,
) -> Result<(), Unanswered> {
    list(text, ',', |part| number(part), numbers)
}

// The record `L,n,D,R,p,kept,head,mark`.
pub(crate) fn record(text: &str) -> Result<Book, Unanswered> {
    let mut numbers = ArrayVec::<u64, 8>::new();
    list(text, ',', |part| number(part), &mut numbers)?;
    let &[bound, length, tolerance, carry, phase, kept, head, resting] = numbers.as_slice() else {
        return Err(Unanswered);
    };
    Ok(Book {
        bound,
        length,
        tolerance,
        carry,
        phase,
        kept,
        head,
        resting,
    })
}

// A record and its ring.
pub(crate) fn book(
    record_text: &str,
    ring_text: &str,
    ring: &mut Bytes,
) -> Result<Book, Unanswered> {
    bytes(ring_text, ring)?;
    record(record_text)
}

// The records of zones joined by semicolons.
pub(crate) fn zones(text: &str, zones: &mut Zones) -> Result<(), Unanswered> {
    list(text, ';', |zone| record(zone), zones)
}

// Bytes as hex, `-` for none.
pub(crate) fn bytes(text: &str, bytes: &mut Bytes) -> Result<(), Unanswered> {
    bytes.clear();
    if text == "-" {
        return Ok(());
    }
    if text.is_empty() {
        return Err(Unanswered);
    }
    for digits in text.as_bytes().chunks(2) {
        bytes.try_push(byte(digits)?)?;
    }
    Ok(())
}

// A byte from its two digits.
fn byte(digits: &[u8]) -> Result<u8, Unanswered> {
    match digits {
        [high, low] => Ok(digit(*high)? * 16 + digit(*low)?),
        _ => Err(Unanswered),
    }
}

// The value of a hex digit. (By hand: `from_str_radix` takes a plus sign and upper case too.)
fn digit(byte: u8) -> Result<u8, Unanswered>
    ensures { IfOk result (λ value. value < 16) }
{
    match byte {
        b'0'..=b'9' => Ok(byte - b'0'),
        b'a'..=b'f' => Ok(byte - b'a' + 10),
        _ => Err(Unanswered),
    }
}
