// Counting the positions that changed and are not black, row by row. In a row, whole white bytes of the mask are counted as one run, by the
// loops of a plain score, black ones are passed over, and in any other byte the eight positions are counted in one go (whites.rt says how);
// only those of a byte that the row ends in are looked at one by one.
ghost use Rattle.std.specs.Prelude.{◌≡◌, ◌+◌, ◌*◌, ◌-◌, ◌≤◌, ◌<◌, min, length, get_or};
ghost use Rattle.image.specs.Kinds.{row_bytes};
ghost use Rattle.image.specs.Pixels.{pixel_bytes};
ghost use Rattle.score.specs.Changed.{counted};
ghost use Rattle.score.specs.Near.{moved_in};
ghost use Rattle.score.specs.Black.{black_in};
ghost use Rattle.score.specs.Rows.{black_bit, count_from, changed_under, white_table, WhiteBytes, Have};

use crate::compare::far_under_byte;
use crate::count::BYTE_MOST;
use crate::{count, whites};

// A byte of the mask in which every position is white, and one in which every position is black.
const WHITE: u8 = 0;

const BLACK: u8 = 255;

// The bytes of a pixel.
#[tactic(auto, using(image::proofs::Promises::pixel_bytes_one, image::proofs::Promises::pixel_bytes_two))]
fn pixel_bytes(maxval: usize) -> usize
    ensures { result ≡ pixel_bytes maxval }
{
    if maxval <= BYTE_MOST { 1 } else { 2 }
}

// The positions from one place up to another that changed.
fn changed_between(
    first: &[u8],
    second: &[u8],
    from: usize,
    to: usize,
    allowance: u8,
    maxval: usize,
) -> u16
    requires { (from ≤ to) × Have maxval first.now second.now to }
    ensures { result ≡ counted (λ column. moved_in allowance maxval first.now second.now (from + column)) (to - from) }
{
    let per = pixel_bytes(maxval);
    let start = from * per;
    let end = to * per;
    count::changed(&first[start..end], &second[start..end], allowance, maxval)
}

// The positions of one byte of the mask that count; it may be that only its first bits have columns.
fn in_byte(
    first: &[u8],
    second: &[u8],
    whites: &[u8],
    byte: u8,
    columns: usize,
    at: usize,
    allowance: u8,
    maxval: usize,
) -> u16
    requires { (whites.now ≡ white_table) × (columns ≤ 8) × Have maxval first.now second.now (at + columns) }
    ensures { result ≡ count_from (black_bit byte) (moved_in allowance maxval first.now second.now) at columns }
{
    if maxval <= BYTE_MOST {
        let threshold = count::byte_threshold(allowance, maxval);
        return far_under_byte(first, second, whites, byte, columns, at, threshold);
    }
    let threshold = count::threshold(allowance, maxval) as u16;
    far_under_byte(first, second, whites, byte, columns, at, threshold)
}

// Where the whole white bytes from here on end.
fn white_end(row: &[u8], from: usize) -> usize
    requires { from ≤ length row.now }
    ensures { (from ≤ result) × (result ≤ length row.now) × WhiteBytes row.now from result }
{
    for at in from..row.len() {
        if row[at] != WHITE {
            return at;
        }
    }
    row.len()
}

// The columns before a byte of a row.
fn columns_before(byte: usize, width: usize) -> usize
    requires { byte ≤ 1024 }
    ensures { result ≡ min (8 * byte) width }
{
    width.min(8 * byte)
}

// The positions of one row that count.
fn in_row(
    first: &[u8],
    second: &[u8],
    whites: &[u8],
    row: &[u8],
    width: usize,
    at: usize,
    allowance: u8,
    maxval: usize,
) -> u16
    requires { (whites.now ≡ white_table) × (width ≤ 1024) × (length row.now ≡ row_bytes width) × Have maxval first.now second.now (at + width) }
    ensures { result ≡ count_from (black_in row.now) (moved_in allowance maxval first.now second.now) at width }
{
    let mut count: u16 = 0;
    let mut byte = 0;
    // By index: a turn takes one byte or a whole run of white ones.
    while byte < row.len() {
        let from = 8 * byte;
        let value = row[byte];
        if value == BLACK {
            byte += 1;
        } else if value == WHITE {
            let white = white_end(row, byte + 1);
            let to = columns_before(white, width);
            count += changed_between(first, second, at + from, at + to, allowance, maxval);
            byte = white;
        } else {
            let here = at + from;
            let span = columns_before(byte + 1, width) - from;
            count += in_byte(first, second, whites, value, span, here, allowance, maxval);
            byte += 1;
        }
    }
    count
}

// All rows. Each row of the mask starts at a byte.
pub(crate) fn changed(
    first: &[u8],
    second: &[u8],
    mask: &[u8],
    width: usize,
    height: usize,
    allowance: u8,
    maxval: usize,
) -> u16
    requires { (1 ≤ width) × (width ≤ 1024) × (length mask.now ≡ row_bytes width * height) × Have maxval first.now second.now (width * height) }
    ensures { result ≡ changed_under allowance maxval width height first.now second.now mask.now }
{
    let table = whites::TABLE;
    let whites: &[u8] = &table;
    // Word for word what `row_bytes` is.
    let stride = (width + 7) / 8;
    let mut count: u16 = 0;
    for row in 0..height {
        let start = row * stride;
        count += in_row(
            first,
            second,
            whites,
            &mask[start..start + stride],
            width,
            row * width,
            allowance,
            maxval,
        );
    }
    count
}
