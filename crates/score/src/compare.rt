// At how many positions two rasters are no more than a threshold apart, and at how many under a byte of a mask they are further apart.
ghost use Rattle.std.specs.Prelude.{◌≡◌, ◌+◌, ◌*◌, ◌-◌, ◌/◌, ◌≤◌, ◌<◌, length};
ghost use Rattle.score.specs.Changed.{one_if, counted};
ghost use Rattle.score.specs.Near.{near_at, far_at};
ghost use Rattle.score.specs.Masked.{unmasked};
ghost use Rattle.score.specs.Rows.{black_bit, count_from, white_table};

use crate::pixels::Pixel;
use crate::whites;

// So few positions that 8 bits hold their number.
const BLOCK: usize = 192;

// The positions from one place up to another. One pass with nothing in it but a compare and a sum.
fn near_between<P: Pixel>(first: &[u8], second: &[u8], threshold: P, from: usize, to: usize) -> P
    requires order { from ≤ to }
    requires first_has { to * P.bytes ≤ length first.now }
    requires second_has { to * P.bytes ≤ length second.now }
    requires few { to ≤ from + P.most }
    ensures { let near = near_at P.bytes (P.number threshold) first.now second.now in
        counted near from + P.number result ≡ counted near to }
{
    let mut count = P::none();
    for i in from..to {
        let x = P::at(first, i);
        let y = P::at(second, i);
        count = count.one_more_if(x.near(y, threshold));
    }
    count
}

// All positions of one byte each: whole blocks, whose size a compiler then knows, and the rest. (With blocks up to the smaller of two ends in
// one loop a score of 160 x 120 took 45% more instructions.)
pub(crate) fn near_bytes(first: &[u8], second: &[u8], threshold: u8) -> u16
    requires { (length first.now ≡ length second.now) × (length first.now ≤ 24576) }
    ensures { result ≡ counted (near_at 1 threshold first.now second.now) (length first.now) }
{
    let whole = first.len() / BLOCK;
    let mut count: u16 = 0;
    for block in 0..whole {
        let from = block * BLOCK;
        let near = near_between(first, second, threshold, from, from + BLOCK);
        count += u16::from(near);
    }
    let near = near_between(first, second, threshold, whole * BLOCK, first.len());
    count + u16::from(near)
}

// All positions of two bytes each: 16 bits hold their number.
pub(crate) fn near_pairs(first: &[u8], second: &[u8], threshold: u16) -> u16
    requires { (length first.now ≡ length second.now) × (length first.now ≤ 24576) }
    ensures { result ≡ counted (near_at 2 threshold first.now second.now) (length first.now / 2) }
{
    near_between(first, second, threshold, 0, first.len() / 2)
}

// `white`, which is 1 or 0, for pixels that are not near, else 0.
fn white_unless(near: bool, white: u8) -> u16
    requires { white ≤ 1 }
    ensures { result ≡ white - one_if near }
{
    if near { 0 } else { u16::from(white) }
}

// 1 for a position under a bit of a mask that is white and whose pixels are more than the threshold apart, else 0.
fn far_at_bit<P: Pixel>(
    first: &[u8],
    second: &[u8],
    whites: &[u8],
    byte: u8,
    bit: usize,
    at: usize,
    threshold: P,
) -> u16
    requires table { whites.now ≡ white_table }
    requires in_byte { bit < 8 }
    requires first_has { (at + bit + 1) * P.bytes ≤ length first.now }
    requires second_has { (at + bit + 1) * P.bytes ≤ length second.now }
    requires few { at ≤ 24576 }
    ensures { result ≡ one_if (unmasked (black_bit byte) (λ column. far_at P.bytes (P.number threshold) first.now second.now (at + column)) bit) }
{
    let x = P::at(first, at + bit);
    let y = P::at(second, at + bit);
    let white = whites::white(whites, byte, bit);
    white_unless(x.near(y, threshold), white)
}

// The positions of a byte of a mask that are more than the threshold apart and white: always eight, so that a compiler takes them at once.
fn far_under_eight<P: Pixel>(
    first: &[u8],
    second: &[u8],
    whites: &[u8],
    byte: u8,
    at: usize,
    threshold: P,
) -> u16
    requires table { whites.now ≡ white_table }
    requires first_has { (at + 8) * P.bytes ≤ length first.now }
    requires second_has { (at + 8) * P.bytes ≤ length second.now }
    requires few { at ≤ 24576 }
    ensures { result ≡ count_from (black_bit byte) (far_at P.bytes (P.number threshold) first.now second.now) at 8 }
{
    let mut count: u16 = 0;
    for bit in 0..8 {
        let far = far_at_bit(first, second, whites, byte, bit, at, threshold);
        count += far;
    }
    count
}

// The same where it may be that only its first bits have columns.
pub(crate) fn far_under_byte<P: Pixel>(
    first: &[u8],
    second: &[u8],
    whites: &[u8],
    byte: u8,
    columns: usize,
    at: usize,
    threshold: P,
) -> u16
    requires table { whites.now ≡ white_table }
    requires in_byte { columns ≤ 8 }
    requires first_has { (at + columns) * P.bytes ≤ length first.now }
    requires second_has { (at + columns) * P.bytes ≤ length second.now }
    requires few { at ≤ 24576 }
    ensures { result ≡ count_from (black_bit byte) (far_at P.bytes (P.number threshold) first.now second.now) at columns }
{
    if columns == 8 {
        return far_under_eight(first, second, whites, byte, at, threshold);
    }
    let mut count: u16 = 0;
    for bit in 0..columns {
        let far = far_at_bit(first, second, whites, byte, bit, at, threshold);
        count += far;
    }
    count
}
