// The raster of an image: whether it fits, whether it is there, and whether a pixel is too large.
ghost use Rattle.std.specs.Prelude.{[], ◌∷◌, ◌≡◌, ◌*◌, ◌≤◌, ltb, length};
ghost use Rattle.refusals.specs.First.{first_of};
ghost use Rattle.refusals.specs.Refused.{number_in};
ghost use Rattle.image.specs.Pixels.{pixel_bytes, pixel_at, at_some};
ghost use Rattle.image.specs.Kinds.{pgm};
ghost use Rattle.image.specs.Reading.{end_faults, named, with_raster};
ghost use Rattle.image.specs.Refused.{as_numbers};

use crate::Layout;
use crate::bytes::{LIMIT, readable};
use crate::largest::largest_of;
use crate::took::{Sides, Took};
use refusals::Refusal;

// The largest pixel of one byte, and of two. Where maxval is as large, no pixel is above it, and they need no look.
const BYTE_MOST: usize = 255;

const PAIR_MOST: usize = 65535;

// The bytes of a pixel.
#[tactic(auto, using(std::proofs::lemmas::Bool::Decides::nat_tests), unfolding(crate::specs::Pixels::pixel_bytes))]
fn pixel_bytes(maxval: usize) -> usize
    ensures { result ≡ pixel_bytes maxval }
{
    if BYTE_MOST < maxval { 2 } else { 1 }
}

// Whether a pixel of the raster is above maxval.
#[tactic(auto, using(crate::proofs::PixelWidths::pixel_bytes_one, crate::proofs::PixelWidths::pixel_bytes_two))]
fn too_large(raster: &[u8], positions: usize, maxval: usize) -> bool
    requires { length raster.now ≡ positions * pixel_bytes maxval }
    ensures { result ≡ at_some (λ position. ltb maxval (pixel_at (pixel_bytes maxval) raster.now position)) positions }
{
    if maxval == BYTE_MOST {
        return false;
    }
    if maxval < BYTE_MOST {
        return maxval < usize::from(largest_of::<u8>(raster, positions));
    }
    if PAIR_MOST <= maxval {
        return false;
    }
    maxval < usize::from(largest_of::<u16>(raster, positions))
}

// Refuses an image that ends there where it is too large or not all there.
pub(crate) fn missing(s: &[u8], used: usize) -> Result<(), Refusal>
    ensures { number_in result ≡ first_of (end_faults s.now used) }
{
    if used <= readable(s) {
        return Ok(());
    }
    if LIMIT < used {
        return Err(Refusal::ImageTooLarge);
    }
    Err(Refusal::EndsTooEarly)
}

// The answer for a header that has these sides, and then this maxval.
#[tactic(auto, using(crate::proofs::PixelWidths::pixel_bytes_range))]
pub(crate) fn judge(s: &[u8], sides: Sides, maxval: Took<usize>) -> Result<Layout, Refusal>
    ensures { as_numbers result ≡ named (with_raster pgm s.now (sides.width ∷ sides.height ∷ maxval.value ∷ []) maxval.used) }
{
    let Sides { width, height } = sides;
    let Took {
        value: maxval,
        used: start,
    } = maxval;
    let positions = width * height;
    let used = start + positions * pixel_bytes(maxval);
    missing(s, used)?;
    if too_large(&s[start..used], positions, maxval) {
        return Err(Refusal::PixelTooLarge);
    }
    Ok(Layout {
        width,
        height,
        maxval,
        start,
        used,
    })
}
