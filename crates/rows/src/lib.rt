// The lines that the program writes, as bytes into a lent buffer: decimal numbers, commas, words, CR LF.
// Each call writes its line to the start of the buffer and gives its length, or a refusal (specs/Calls.antt).

#![tactic(auto)]

ghost use Rattle.std.specs.Prelude.{◌≡◌, ◌≤◌, IfOk};
ghost use Rattle.refusals.specs.Call.{result_of, left_of};
ghost use Rattle.rows.specs.Row.{row_text, refused_text, head_text};
ghost use Rattle.rows.specs.Calls.{line_most, line_call};
ghost use Rattle.rows.specs.Told.{as_wrote};

use put::Line;
use refusals::Refusal;

mod put;

// No line is longer: a buffer of so many bytes takes any of them.
pub const LINE_MOST: usize = 96;

// What a row says of the page: a verdict, or that it is too early for one.
#[derive(Clone, Copy, Debug, PartialEq, Eq)]
pub enum Word {
    Early,
    Live,
    Frozen,
    Undecided,
    Resting,
}

// The first line: the names of the fields.
pub fn head(out: &mut [u8]) -> Result<usize, Refusal>
    ensures told { (as_wrote result ≡ result_of (line_call out.old head_text)) × (out.new ≡ left_of (line_call out.old head_text)) }
    ensures room { IfOk result (λ length. length ≤ line_most) }
{
    if out.len() < LINE_MOST {
        return Err(Refusal::BufferTooShort);
    }
    let mut line = Line { out, at: 0 };
    line.text(b"frame,score,kept,total,verdict\r\n");
    Ok(line.at)
}

// The row of a frame; the first frame has no score.
pub fn row(
    out: &mut [u8],
    frame: u64,
    score: Option<u64>,
    kept: u64,
    total: u64,
    word: Word,
) -> Result<usize, Refusal>
    ensures told { (as_wrote result ≡ result_of (line_call out.old (row_text frame score kept total word))) × (out.new ≡ left_of (line_call out.old (row_text frame score kept total word))) }
    ensures room { IfOk result (λ length. length ≤ line_most) }
{
    if out.len() < LINE_MOST {
        return Err(Refusal::BufferTooShort);
    }
    let mut line = Line { out, at: 0 };
    line.field(frame);
    line.score(score);
    line.field(kept);
    line.field(total);
    line.word(word);
    Ok(line.at)
}

// The row of a frame that was refused, with the number of the refusal.
// The refusal is a number: the clause `told` promises the row for every byte, and a `Refusal` would ask more of callers.
pub fn refused(out: &mut [u8], frame: u64, refusal: u8) -> Result<usize, Refusal>
    ensures told { (as_wrote result ≡ result_of (line_call out.old (refused_text frame refusal))) × (out.new ≡ left_of (line_call out.old (refused_text frame refusal))) }
    ensures room { IfOk result (λ length. length ≤ line_most) }
{
    if out.len() < LINE_MOST {
        return Err(Refusal::BufferTooShort);
    }
    let mut line = Line { out, at: 0 };
    line.field(frame);
    line.text(b"refused ");
    line.number(u64::from(refusal));
    line.text(b",,,\r\n");
    Ok(line.at)
}
