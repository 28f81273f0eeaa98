// The calls of images and of the scores.
ghost use Rattle.std.specs.Prelude.{◌≡◌};
ghost use Rattle.image.specs.Reading.{numbers_of};
ghost use Rattle.refusals.specs.Call.{result_of};
ghost use Rattle.score.specs.Calls.{score_call};
ghost use Rattle.score.specs.Masked.{masked_call};
ghost use Rattle.uprzezar.specs.Crossing.{raster_place};

use crate::Raster;
use image::told::Numbers;

// The numbers of the image at the start of the bytes.
#[unsafe(no_mangle)]
pub extern "C" fn uprzezar_header(bytes: &[u8]) -> Numbers
    ensures { result ≡ numbers_of bytes.now }
{
    Numbers::from(image::header(bytes))
}

// Where its raster lies, in bytes. (Not an impl of `From`: that a raster ends no earlier than it starts holds of what `header` gives, and not of
// every `Layout`.)
#[unsafe(no_mangle)]
pub extern "C" fn uprzezar_raster(bytes: &[u8]) -> Raster
    ensures { result ≡ raster_place bytes.now }
{
    match image::header(bytes) {
        Ok(layout) => Raster {
            refusal: 0,
            offset: layout.start,
            length: layout.used - layout.start,
        },
        Err(refusal) => Raster {
            refusal: refusal.number(),
            ..Raster::default()
        },
    }
}

// The score of two images under an allowance, which is in parts of 255 of maxval, or `bound` where the score is larger.
#[unsafe(no_mangle)]
pub extern "C" fn uprzezar_score(
    bound: u64,
    allowance: u8,
    first: &[u8],
    second: &[u8],
) -> score::Answer
    ensures { result ≡ result_of (score_call bound allowance first.now second.now) }
{
    score::Answer::from(score::score(bound, allowance, first, second))
}

// The score of two images under a mask: its black positions do not count.
#[unsafe(no_mangle)]
pub extern "C" fn uprzezar_score_masked(
    bound: u64,
    allowance: u8,
    first: &[u8],
    second: &[u8],
    mask: &[u8],
) -> score::Answer
    ensures { result ≡ result_of (masked_call bound allowance first.now second.now mask.now) }
{
    score::Answer::from(score::masked(bound, allowance, first, second, mask))
}
