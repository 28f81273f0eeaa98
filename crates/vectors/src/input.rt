// Standard input, line by line.
ghost use Rattle.std.specs.Prelude.{◌+◌, ◌≤◌, length};

use crate::calls;
use crate::room::Room;
use std::io::{Read, Write};

// The bytes that a line and its line feed may have. No call needs a longer one: a record, a ring of 32,768 bytes, a row of 16,384 numbers of 10 digits
// and as many counts of 20 digits have 590,000 characters, and three fields of 32,768 bytes less than 200,000.
pub(crate) const LONGEST_LINE: usize = 600_000;

const UNREADABLE: &[u8] = b"?\n";

// How many bytes of a line stand at the buffer's start, and whether more of that line was dropped.
#[derive(Clone, Copy)]
struct Kept {
    bytes: usize,
    dropped: bool,
}

// Answers each line as soon as it is read, and the last one where no line feed ends it. The reads are counted, since a proved loop ends and nothing says
// that an input does; no run uses them up.
pub(crate) fn run<R: Read, W: Write>(
    input: &mut R,
    output: &mut W,
    buf: &mut [u8],
    room: &mut Room,
) {
    let mut kept = Kept {
        bytes: 0,
        dropped: false,
    };
    for _ in 0..u64::MAX {
        let more = fill(input, buf, kept.bytes);
        if more == 0 {
            break;
        }
        let end = kept.bytes + more;
        let answered = answer_all(output, &buf[..end], kept, room);
        kept = keep(buf, answered, end, kept.dropped);
    }
    if kept.dropped || kept.bytes > 0 {
        answer(output, &buf[..kept.bytes], kept.dropped, room);
    }
}

// Reads what is there behind `kept` bytes, and gives how many bytes that are: 0 at the end of the input. A read that fails ends the input too.
fn fill<R: Read>(input: &mut R, buf: &mut [u8], kept: usize) -> usize
    requires { kept ≤ length buf.old }
    ensures { kept + result ≤ length buf.old }
{
    match input.read(&mut buf[kept..]) {
        Ok(more) => more,
        Err(_) => 0,
    }
}

// Answers each whole line, and gives the place behind the last of them. What was kept has no line feed.
fn answer_all<W: Write>(output: &mut W, text: &[u8], kept: Kept, room: &mut Room) -> usize
    requires { kept.bytes ≤ length text.now }
    ensures { result ≤ length text.now }
{
    let Some(last) = text[kept.bytes..].iter().rposition(|byte| *byte == b'\n') else {
        return 0;
    };
    let end = kept.bytes + last;
    let mut dropped = kept.dropped;
    for line in text[..end].split(|byte| *byte == b'\n') {
        answer(output, line, dropped, room);
        dropped = false;
    }
    end + 1
}

// Moves what is left behind the whole lines to the buffer's start. A line that fills the buffer is dropped, and what still comes of it too.
fn keep(buf: &mut [u8], answered: usize, end: usize, dropped: bool) -> Kept
    requires { (answered ≤ end) × (end ≤ length buf.old) }
    ensures { result.bytes ≤ length buf.old }
{
    if answered > 0 {
        buf.copy_within(answered..end, 0);
    }
    let bytes = end - answered;
    if bytes == buf.len() {
        return Kept {
            bytes: 0,
            dropped: true,
        };
    }
    Kept {
        bytes,
        dropped: dropped && answered == 0,
    }
}

// Answers one line; a name for what follows it is written back as it is. A line of which a part was dropped cannot be read.
fn answer<W: Write>(output: &mut W, line: &[u8], dropped: bool, room: &mut Room) {
    if dropped {
        put(output, UNREADABLE);
    } else if line.starts_with(b"#") {
        put(output, line);
        put(output, b"\n");
    } else if calls::answer(room, line).is_ok() {
        put(output, room.out.as_bytes());
    } else {
        put(output, UNREADABLE);
    }
}

// Writes a text. Where it cannot be written nothing is said of it, and what follows is tried as ever.
fn put<W: Write>(output: &mut W, text: &[u8]) {
    let _ = output.write_all(text);
}
