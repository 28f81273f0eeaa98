// How records, bytes, rows and refusals are written.
ghost use Rattle.std.specs.Prelude.{◌≤◌, length};

use crate::reading::Unanswered;
use crate::room::Text;
use book::Book;
use refusals::Refusal;
use std::fmt;
use std::fmt::{Display, Write};

// The answer to a line stands in its room, or the line has none.
pub(crate) type Answer = Result<(), Unanswered>;

// A record `L,n,D,R,p,kept,head,mark`.
#[derive(Clone, Copy, Default)]
pub(crate) struct Record(pub Book);

impl Display for Record {
    fn fmt<W: fmt::Write>(&self, f: &mut fmt::Formatter<W>) -> fmt::Result {
        let b = self.0;
        write!(f, "{},{},{},{}", b.bound, b.length, b.tolerance, b.carry)?;
        write!(f, ",{},{},{},{}", b.phase, b.kept, b.head, b.resting)
    }
}

// How many bytes are turned into hex at once. (Byte by byte as `{byte:02x}`, a line with a long ring took half as long again.)
const PART: usize = 32;

const DIGITS: &[u8; 16] = b"0123456789abcdef";

// The two digits of each byte, from the start of an array with room for those of a part.
fn hex_of(part: &[u8]) -> [u8; 2 * PART]
    requires { length part.now ≤ 32 }
{
    let mut digits = [b'0'; 2 * PART];
    for (i, byte) in part.iter().enumerate() {
        digits[2 * i] = DIGITS[usize::from(*byte / 16)];
        digits[2 * i + 1] = DIGITS[usize::from(*byte % 16)];
    }
    digits
}

// A part in hex. (Digits are a text; that they are is asked here, and not proved.)
fn write_part<W: fmt::Write>(f: &mut fmt::Formatter<W>, part: &[u8]) -> fmt::Result
    requires { length part.now ≤ 32 }
{
    let digits = hex_of(part);
    let text = str::from_utf8(&digits[..2 * part.len()]).map_err(|_| fmt::Error)?;
    f.write_str(text)
}

// Bytes as hex, `-` for none.
#[derive(Clone, Copy)]
pub(crate) struct Hex<'a>(pub &'a [u8]);

impl Display for Hex<'_> {
    fn fmt<W: fmt::Write>(&self, f: &mut fmt::Formatter<W>) -> fmt::Result {
        if self.0.is_empty() {
            return write!(f, "-");
        }
        for part in self.0.chunks(PART) {
            write_part(f, part)?;
        }
        Ok(())
    }
}

// Items with a separator between them, `-` for none.
#[derive(Clone, Copy)]
pub(crate) struct List<'a, T> {
    pub items: &'a [T],
    pub separator: char,
}

impl<T: Display> Display for List<'_, T> {
    fn fmt<W: fmt::Write>(&self, f: &mut fmt::Formatter<W>) -> fmt::Result {
        let Some((first, others)) = self.items.split_first() else {
            return write!(f, "-");
        };
        write!(f, "{first}")?;
        let separator = self.separator;
        for item in others {
            write!(f, "{separator}{item}")?;
        }
        Ok(())
    }
}

// A row of numbers.
fn row(numbers: &[u32]) -> List<'_, u32> {
    List {
        items: numbers,
        separator: ',',
    }
}

// A row of numbers behind what is written.
pub(crate) fn with_row(out: &mut Text, numbers: &[u32]) -> Answer {
    Ok(write!(out, " {}", row(numbers))?)
}

// The number of a refusal, 0 for none.
pub(crate) fn refusal(answer: Result<(), Refusal>) -> u8 {
    answer.err().map_or(0, Refusal::number)
}

// The refusal and a number, which is 0 at a refusal.
pub(crate) fn refusal_and_number<N: Display + Drop>(
    out: &mut Text,
    answer: Result<N, Refusal>,
) -> Answer {
    match answer {
        Ok(number) => Ok(write!(out, "0 {number}")?),
        Err(refusal) => Ok(write!(out, "{} 0", refusal.number())?),
    }
}
