// Reads PGM images one after another from standard input and writes a row for each as soon as its last byte has come.
// What a row says is decided by the crate watch; here are only the buffers, what is read from and what is written to. (specs/Running.antt)

#![tactic(auto)]

mod desk;
mod round;

ghost use Rattle.std.specs.Prelude.{◌+◌, ◌-◌, ◌≤◌, ◌<◌, ◌≡◌, length, take, drop, OnOk};
ghost use Rattle.std.specs.Io.KnownBytes.{Appends, Consumes};
ghost use Rattle.image.specs.Seen.{limit};
ghost use Rattle.watch.specs.Output.{no_bytes};
ghost use Rattle.frozen.specs.Desk.{Fits, Received};
ghost use Rattle.frozen.specs.declared.round.Go.TheVariants as go;
ghost use Rattle.frozen.specs.Running.{Standing, Supplied, Due, Complete};

use desk::{BUFFER_BYTES, Desk};
use round::{Go, Round};
use std::io;
use std::io::{Read, Write};
use watch::setting::RING_BYTES;

// Room for the rows of a round, 42 lines of 96 bytes, so that few writes are made.
const ROWS_BYTES: usize = 4096;

// The desk to go on with, and whether no more bytes will come.
#[derive(Clone, Copy)]
struct Given {
    desk: Desk,
    over: bool,
}

// Reads what is there behind `end`, at most as much as there is room for, and tells how much: 0 at the end of the input. A read that
// fails ends the input too, and says so.
fn fill<R: Read, E: Write>(input: &mut R, errors: &mut E, buf: &mut [u8], end: usize) -> usize
    requires { end < length buf.old }
    ensures place { (end + result ≤ length buf.old) × (take end buf.new ≡ take end buf.old) }
    ensures bytes { Consumes (R.remaining input.old) (R.remaining input.new) (take result (drop end buf.new)) }
{
    match input.read(&mut buf[end..]) {
        Ok(n) => n,
        Err(_) => {
            let _ = errors.write_all(b"frozen: standard input cannot be read\n");
            0
        }
    }
}

// The three streams and the buffers stay parameters: a struct of them would have as many type parameters and places, and the clauses here would
// name them all the same. That less than an image is at hand is no field: it holds only where the program reads.
// Makes room and reads. With less than an image at hand there is always room, so that nothing read means the end.
fn receive<R: Read, E: Write>(
    input: &mut R,
    errors: &mut E,
    buf: &mut [u8; BUFFER_BYTES],
    desk: Desk,
) -> Given
    requires { Fits desk (length buf.old) × (desk.end - desk.at < limit) }
    ensures { Received desk buf.old result.desk result.over buf.new }
{
    let moved = desk::make_room(buf, desk);
    let n = fill(input, errors, buf, moved.end);
    Given {
        desk: desk::took(moved, n),
        over: n == 0,
    }
}

// What the next round goes over: more bytes where the last one waits, otherwise the same.
fn supply<R: Read, E: Write>(
    input: &mut R,
    errors: &mut E,
    buf: &mut [u8; BUFFER_BYTES],
    told: Round,
    over: bool,
) -> Given
    requires { Fits told.desk (length buf.old) × (told.go ≡ go.Read → told.desk.end - told.desk.at < limit) }
    ensures { Supplied told buf.old over result buf.new }
{
    match told.go {
        Go::Read => receive(input, errors, buf, told.desk),
        Go::Again | Go::Done => Given {
            desk: told.desk,
            over,
        },
    }
}

// Writes the bytes; where they cannot be written it says so, and nothing is to be written after them.
fn send<W: Write, E: Write>(output: &mut W, errors: &mut E, bytes: &[u8]) -> io::Result<()>
    requires { Due bytes.now }
    ensures { OnOk result (Appends (W.contents output.old) (W.contents output.new) bytes.now) }
{
    let sent = output.write_all(bytes);
    if sent.is_err() {
        let _ = errors.write_all(b"frozen: standard output cannot be written\n");
    }
    sent
}

// Rounds, each written before the next one reads, until the input ends or is refused, or the output cannot be written. Where
// it gives no error the output is whole. The count of the loop stands for "for ever": each round but the last takes a byte, or reads one before it.
fn rounds<R: Read, W: Write, E: Write>(
    input: &mut R,
    output: &mut W,
    errors: &mut E,
    desk: Desk,
    ring: &mut [u8; RING_BYTES],
    buf: &mut [u8; BUFFER_BYTES],
    out: &mut [u8; ROWS_BYTES],
) -> io::Result<()>
    requires { Standing desk ring.old buf.old × Fits desk (length buf.old) × (desk.end - desk.at < limit) }
    ensures { OnOk result (Complete buf.new out.new) }
{
    let mut told = Round {
        desk,
        full: 0,
        go: Go::Read,
    };
    let mut over = false;
    for _ in 0..u64::MAX {
        let given = supply(input, errors, buf, told, over);
        over = given.over;
        told = round::take_turns(given.desk, ring, buf, over, out);
        send(output, errors, &out[..told.full])?;
        if told.go == Go::Done {
            return Ok(());
        }
    }
    Err(io::Error::other("there are too many rounds"))
}

// The book is opened and the first line is written; then rounds. The ring has the bytes that the book takes, and there is room for a
// line, so that neither is refused.
fn run<R: Read, W: Write, E: Write>(
    input: &mut R,
    output: &mut W,
    errors: &mut E,
    ring: &mut [u8; RING_BYTES],
    buf: &mut [u8; BUFFER_BYTES],
    out: &mut [u8; ROWS_BYTES],
) -> io::Result<()>
    requires { ring.old ≡ no_bytes }
    ensures { OnOk result (Complete buf.new out.new) }
{
    let state = watch::start(ring).unwrap();
    let length = rows::head(out).unwrap();
    send(output, errors, &out[..length])?;
    let desk = Desk {
        state,
        from: 0,
        at: 0,
        end: 0,
    };
    rounds(input, output, errors, desk, ring, buf, out)
}

fn main(rt: HostRuntime) {
    let mut ring = [0u8; RING_BYTES];
    let mut buf = [0u8; BUFFER_BYTES];
    let mut out = [0u8; ROWS_BYTES];
    // A failure to write has been told, and ends the program as the end of the input does.
    let _ = run(
        &mut rt.stdin(),
        &mut rt.stdout(),
        &mut rt.stderr(),
        &mut ring,
        &mut buf,
        &mut out,
    );
}
