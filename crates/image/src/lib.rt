// Reads a binary PGM image from bytes that the caller lends: its numbers by one call, its raster as a part of those bytes by another; and
// the numbers of a mask, which is a binary PBM. Every slice gets an answer; what it is stands in specs/Reading.antt, specs/Part.antt and
// specs/Mask.antt.

#![tactic(auto)]

ghost use Rattle.std.specs.Prelude.{◌≡◌};
ghost use Rattle.image.specs.Reading.{numbers_of};
ghost use Rattle.image.specs.Mask.{mask_numbers_of};
ghost use Rattle.image.specs.Refused.{as_numbers};
ghost use Rattle.image.specs.Part.{part_of, raster_of};
ghost use Rattle.image.specs.Pixels.{pixel_at};

use refusals::Refusal;

mod bytes;
mod fields;
mod largest;
mod masks;
mod pixels;
pub mod told;
mod took;

// The byte of the sign behind `P`, of an image and of a mask, and the largest maxval, as specs/Kinds.antt has them. (The
// format's own bytes, no numbers of ours.)
const GRAY: u8 = b'5';

const BITS: u8 = b'4';

const LARGEST_MAXVAL: usize = 65535;

// The numbers of an image: the raster lies in the bytes from `start` up to `used`.
#[derive(Clone, Copy)]
pub struct Layout {
    pub width: usize,
    pub height: usize,
    pub maxval: usize,
    pub start: usize,
    pub used: usize,
}

// The numbers of the image at the start of the slice.
pub fn header(s: &[u8]) -> Result<Layout, Refusal>
    ensures { as_numbers result ≡ numbers_of s.now }
{
    let sides = fields::sides(s, GRAY)?;
    let maxval = fields::number(s, sides.used, LARGEST_MAXVAL)?;
    pixels::judge(s, sides.value, maxval)
}

// The numbers of the mask at the start of the slice; it has no maxval, which is 0: `mask_numbers_of` says so.
pub fn mask_header(s: &[u8]) -> Result<Layout, Refusal>
    ensures { as_numbers result ≡ mask_numbers_of s.now }
{
    let sides = fields::sides(s, BITS)?;
    masks::judge(s, sides)
}

// The raster itself, as the part of the slice in which it lies; an empty part where the image is refused.
pub fn raster(s: &[u8]) -> &[u8]
    ensures { part_of result ≡ raster_of s.entry }
{
    match header(s) {
        Ok(layout) => &s[layout.start..layout.used],
        Err(_) => &s[..0],
    }
}

// The first pixel of bytes in which each pixel takes two, the higher first; a byte that is not there writes nothing.
#[tactic(auto, using(crate::proofs::PixelValues::first_pair))]
pub fn pair_value(bytes: &[u8]) -> u16
    ensures { result ≡ pixel_at 2 bytes.now 0 }
{
    match bytes {
        [] => 0,
        [only] => u16::from(*only),
        [high, low, ..] => u16::from_be_bytes([*high, *low]),
    }
}
