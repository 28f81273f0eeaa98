// The bytes of a header, one at a time. `next` takes them, and it alone passes over comments; only runs of white bytes are gone over beside
// it (`fields::skip_white`).
ghost use Rattle.std.specs.Prelude.{◌≡◌, false, ◌≤◌, min, length};
ghost use Rattle.refusals.specs.Refused.{number_of};
ghost use Rattle.image.specs.Bytes.{line_end};
ghost use Rattle.image.specs.Seen.{limit, comments, ahead, end_of};
ghost use Rattle.image.specs.Step.{next_byte};
ghost use Rattle.image.specs.Told.{told, ahead_in_comment};

use crate::took::Took;
use refusals::Refusal;

// An image, header included, has at most so many bytes.
pub(crate) const LIMIT: usize = 24576;

// `P` and the byte behind it: no comment begins before they are taken.
const SIGN_BYTES: usize = 2;

// The refusal for a byte that is not there.
#[tactic(auto, using(std::proofs::lemmas::Bool::Decides::nat_tests), unfolding(crate::specs::Seen::end_of))]
fn end_of(s: &[u8]) -> Refusal
    ensures { number_of result ≡ end_of s.now }
{
    if LIMIT <= s.len() {
        Refusal::ImageTooLarge
    } else {
        Refusal::EndsTooEarly
    }
}

// The bytes that an image may be read from: those of the slice, up to the limit.
pub(crate) fn readable(s: &[u8]) -> usize
    ensures { result ≡ min limit (length s.now) }
{
    s.len().min(LIMIT)
}

// CR or LF.
#[tactic(auto, using(std::proofs::lemmas::Bool::Decides::nat_tests), unfolding(crate::specs::Bytes::line_end))]
fn is_line_end(byte: u8) -> bool
    ensures { result ≡ line_end byte }
{
    matches!(byte, b'\r' | b'\n')
}

// Whether a comment begins with this byte, which stands outside of comments and has `used` bytes before it.
#[tactic(auto, using(std::proofs::lemmas::Bool::Decides::nat_tests), unfolding(crate::specs::Seen::comments))]
fn opens_comment(byte: u8, used: usize) -> bool
    ensures { result ≡ comments false used byte }
{
    byte == b'#' && SIGN_BYTES <= used
}

// Inside a comment after the first `used` bytes: the bytes used once it has ended or, where it does not end, all.
fn behind_comment(s: &[u8], used: usize) -> usize
    requires { used ≤ min limit (length s.now) }
    ensures skips { ahead s.now result ≡ ahead_in_comment s.now used }
    ensures onward { used ≤ result }
{
    let end = readable(s);
    for at in used..end {
        if is_line_end(s[at]) {
            return at + 1;
        }
    }
    end
}

// The slice and the bytes used stay two parameters: a reader lent by `&mut` would have to say how it stands after a refusal too.
// The header byte after the first `used` bytes, comments passed over.
pub(crate) fn next(s: &[u8], used: usize) -> Result<Took<u8>, Refusal>
    ensures { told s.now result ≡ next_byte (end_of s.now) (ahead s.now used) }
{
    let end = readable(s);
    let mut at = used;
    // By index: where a comment opens, the next turn is behind it.
    while at < end {
        let byte = s[at];
        if !opens_comment(byte, at) {
            return Ok(Took {
                value: byte,
                used: at + 1,
            });
        }
        at = behind_comment(s, at + 1);
    }
    Err(end_of(s))
}
