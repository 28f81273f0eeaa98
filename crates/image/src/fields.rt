// The fields of a header: the sign, white space, and numbers.
ghost use Rattle.std.specs.Prelude.{[], ◌∷◌, ◌≡◌, true, ◌^◌, ◌≤◌, ◌<◌, min, length, IfOk};
ghost use Rattle.decimals.specs.Decimal.{digit, with_digit};
ghost use Rattle.image.specs.Bytes.{white};
ghost use Rattle.image.specs.Tests.{up_to};
ghost use Rattle.image.specs.Seen.{limit, ahead, end_of};
ghost use Rattle.image.specs.Told.{told, told_sides, sides_tests, above_ranges};
ghost use Rattle.image.specs.Fields.{one_of, after_white, judged, number_field, magic, header_fields};

use crate::bytes;
use crate::took::{Sides, Took};
use refusals::Refusal;

const LARGEST_SIDE: usize = 1024;

// Above every range.
const ABOVE: usize = 65536;

// Space, TAB, CR or LF. (By four tests and not by `matches!`, of which LLVM makes branches and not one test of a bit: a header with 24,000 white
// bytes took five to eight times as long where they were mixed, and twice where they were TABs.)
#[tactic(auto, using(std::proofs::lemmas::Bool::Decides::nat_tests), unfolding(crate::specs::Bytes::white))]
fn is_white(byte: u8) -> bool
    ensures { result ≡ white byte }
{
    if byte == b' ' {
        return true;
    }
    if byte == b'\t' {
        return true;
    }
    if byte == b'\r' {
        return true;
    }
    byte == b'\n'
}

// The bytes used once a run of white bytes is passed over. They are looked at as they stand in the slice, which is quicker than to take
// them one by one: none of them opens a comment.
fn skip_white(s: &[u8], used: usize) -> usize
    ensures run { after_white (ahead s.now result) ≡ after_white (ahead s.now used) }
    ensures fewer { length (ahead s.now result) ≤ length (ahead s.now used) }
{
    let end = bytes::readable(s);
    for at in used..end {
        if !is_white(s[at]) {
            return at;
        }
    }
    used.max(end)
}

// A number with one digit more. It stops above every range, so that no run of digits can wrap it.
#[tactic(auto, using(decimals::proofs::WritesAndReads::digit_range))]
fn grown(value: usize, byte: u8) -> usize
    requires { (value ≤ above_ranges) × (digit byte ≡ true) }
    ensures { result ≡ min above_ranges (with_digit value byte) }
{
    let more = 10 * value + usize::from(byte - b'0');
    more.min(ABOVE)
}

// A number at the white byte after its digits.
#[tactic(auto, using(std::proofs::lemmas::Bool::Decides::nat_tests), unfolding(crate::specs::Fields::judged, crate::specs::Tests::up_to))]
fn judge(value: usize, top: usize, used: usize) -> Result<Took<usize>, Refusal>
    requires { used ≤ limit }
    ensures judges { (s : _) → told s result ≡ judged (up_to top) value used (ahead s used) }
    ensures in_range { IfOk result (λ took. took.value ≤ top) }
{
    if 1 <= value && value <= top {
        Ok(Took { value, used })
    } else {
        Err(Refusal::NumberOutOfRange)
    }
}

// The first digit of a number, with the white bytes before it.
fn first_digit(s: &[u8], used: usize) -> Result<Took<u8>, Refusal>
    ensures reads { told s.now result ≡ one_of digit (end_of s.now) (after_white (ahead s.now used)) }
    ensures is_digit { IfOk result (λ took. digit took.value ≡ true) }
{
    let mut at = used;
    // Not over a range: the next turn is at the place that `next` and `skip_white` come to.
    loop {
        let took = bytes::next(s, at)?;
        if took.value.is_ascii_digit() {
            return Ok(took);
        }
        if !is_white(took.value) {
            return Err(Refusal::WrongByte);
        }
        at = skip_white(s, took.used);
    }
}

// A number from 1 to `top`, with the white bytes before it and one white byte after it. (Inlined, since three calls of it took a third
// more instructions for a header.)
#[inline(always)]
pub(crate) fn number(s: &[u8], used: usize, top: usize) -> Result<Took<usize>, Refusal>
    requires { top < above_ranges }
    ensures reads { told s.now result ≡ number_field (end_of s.now) (up_to top) (ahead s.now used) }
    ensures in_range { IfOk result (λ took. took.value ≤ top) }
{
    let first = first_digit(s, used)?;
    let mut value = usize::from(first.value - b'0');
    let mut at = first.used;
    // Not over a range: the next turn is at the place that `next` comes to, behind comments.
    loop {
        let took = bytes::next(s, at)?;
        if took.value.is_ascii_digit() {
            value = grown(value, took.value);
            at = took.used;
        } else if is_white(took.value) {
            return judge(value, top, took.used);
        } else {
            return Err(Refusal::WrongByte);
        }
    }
}

// The next byte, which has to be of a kind.
#[tactic(auto, unfolding(crate::specs::Fields::one_of))]
fn one_of<F: Fn(u8) -> bool>(s: &[u8], used: usize, is_of_kind: F) -> Result<Took<u8>, Refusal>
    requires { F.IsAlwaysCallable is_of_kind }
    ensures { (kind : _) → ((byte : _) (is : _) → byte < 2 ^ 8 → F.post is_of_kind byte is → is ≡ kind byte)
        → told s.now result ≡ one_of kind (end_of s.now) (ahead s.now used) }
{
    let took = bytes::next(s, used)?;
    if is_of_kind(took.value) {
        Ok(took)
    } else {
        Err(Refusal::WrongByte)
    }
}

// `P`, the byte that says what kind of image it is, and one white byte.
#[tactic(auto, using(std::proofs::lemmas::Bool::Decides::nat_tests), unfolding(crate::specs::Fields::magic))]
fn magic(s: &[u8], sign: u8) -> Result<Took<u8>, Refusal>
    ensures { told s.now result ≡ magic (end_of s.now) sign (ahead s.now 0) }
{
    let first = one_of(s, 0, |byte| byte == b'P')?;
    let second = one_of(s, first.used, |byte| byte == sign)?;
    one_of(s, second.used, is_white)
}

// What every header begins with: the sign, the width and the height.
#[tactic(auto, unfolding(crate::specs::Fields::header_fields, crate::specs::Fields::number_fields))]
pub(crate) fn sides(s: &[u8], sign: u8) -> Result<Took<Sides>, Refusal>
    ensures { told_sides s.now result ≡ header_fields (end_of s.now) sign sides_tests (ahead s.now 0) }
{
    let sign = magic(s, sign)?;
    let width = number(s, sign.used, LARGEST_SIDE)?;
    let height = number(s, width.used, LARGEST_SIDE)?;
    Ok(Took {
        value: Sides {
            width: width.value,
            height: height.value,
        },
        used: height.used,
    })
}
