// What a score asks before it counts: down the lists of faults of specs/Calls.antt and specs/Masked.antt.
ghost use Rattle.std.specs.Prelude.{◌≡◌, [], ◌∷◌, IfOk};
ghost use Rattle.refusals.specs.Numbers.{bad_bound};
ghost use Rattle.refusals.specs.First.{◌gives◌, first_of, outside};
ghost use Rattle.refusals.specs.Refused.{number_in};
ghost use Rattle.image.specs.Reading.{numbers_of};
ghost use Rattle.image.specs.Refused.{as_numbers};
ghost use Rattle.score.specs.Calls.{largest_bound, side_faults, differ_faults, image_faults};

use image::Layout;
use refusals::Refusal;

// The largest L that a book can have.
const LARGEST_BOUND: u64 = 65535;

// Two images that are read.
#[derive(Clone, Copy)]
pub(crate) struct Pair {
    pub(crate) one: Layout,
    pub(crate) two: Layout,
}

// L is in its range.
fn in_range(bound: u64) -> Result<(), Refusal>
    ensures { number_in result ≡ first_of ((outside 1 largest_bound bound gives bad_bound) ∷ []) }
{
    if bound < 1 {
        return Err(Refusal::BadBound);
    }
    if LARGEST_BOUND < bound {
        return Err(Refusal::BadBound);
    }
    Ok(())
}

// L out of range, the first image's refusal, the second's.
pub(crate) fn readings(bound: u64, first: &[u8], second: &[u8]) -> Result<Pair, Refusal>
    ensures refusal { number_in result ≡ first_of (image_faults bound (numbers_of first.now) (numbers_of second.now)) }
    ensures read { IfOk result (λ pair. (as_numbers (Ok pair.one) ≡ numbers_of first.now) × (as_numbers (Ok pair.two) ≡ numbers_of second.now)) }
{
    in_range(bound)?;
    let one = image::header(first)?;
    let two = image::header(second)?;
    Ok(Pair { one, two })
}

// Images, or an image and a mask, have one width and height.
pub(crate) fn sides(one: Layout, two: Layout) -> Result<(), Refusal>
    ensures { number_in result ≡ first_of (side_faults (as_numbers (Ok one)) (as_numbers (Ok two))) }
{
    if one.width != two.width {
        return Err(Refusal::ImagesDiffer);
    }
    if one.height != two.height {
        return Err(Refusal::ImagesDiffer);
    }
    Ok(())
}

// Images have one width, height and maxval.
pub(crate) fn alike(one: Layout, two: Layout) -> Result<(), Refusal>
    ensures { number_in result ≡ first_of (differ_faults (as_numbers (Ok one)) (as_numbers (Ok two))) }
{
    sides(one, two)?;
    if one.maxval != two.maxval {
        return Err(Refusal::ImagesDiffer);
    }
    Ok(())
}
