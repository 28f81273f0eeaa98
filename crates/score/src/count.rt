// Counting the positions that changed: all of them but those that stayed within one threshold. (Of bytes a processor compares "no more
// than" in one instruction, and "more than" in two.) A cast to fewer bits is proved to fit; `try_from` would ask for an answer where it does not.
ghost use Rattle.std.specs.Prelude.{◌≡◌, ◌≤◌, min, length};
ghost use Rattle.score.specs.Near.{threshold_of, changed_in};

use crate::compare;

// The largest maxval of images with one byte a pixel.
pub(crate) const BYTE_MOST: usize = 255;

// The largest difference that does not count.
pub(crate) fn threshold(allowance: u8, maxval: usize) -> usize
    requires { maxval ≤ 65535 }
    ensures { result ≡ threshold_of allowance maxval }
{
    usize::from(allowance) * maxval / 255
}

// The same of one byte. (At maxval 255 it is the allowance itself. Said so, the loop that compares with it is shorter.)
pub(crate) fn byte_threshold(allowance: u8, maxval: usize) -> u8
    requires { maxval ≤ 255 }
    ensures { result ≡ threshold_of allowance maxval }
{
    if maxval == BYTE_MOST {
        return allowance;
    }
    threshold(allowance, maxval) as u8
}

// The positions at which two rasters of one size changed.
pub(crate) fn changed(first: &[u8], second: &[u8], allowance: u8, maxval: usize) -> u16
    requires { (length first.now ≡ length second.now) × (length first.now ≤ 24576) × (maxval ≤ 65535) }
    ensures { result ≡ changed_in allowance maxval first.now second.now }
{
    if maxval <= BYTE_MOST {
        let near = compare::near_bytes(first, second, byte_threshold(allowance, maxval));
        return first.len() as u16 - near;
    }
    let near = compare::near_pairs(first, second, threshold(allowance, maxval) as u16);
    (first.len() / 2) as u16 - near
}

// The number, or the bound where the number is larger.
pub(crate) fn at_most(bound: u64, number: u16) -> u64
    ensures { result ≡ min bound number }
{
    bound.min(u64::from(number))
}
