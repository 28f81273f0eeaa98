// How much changed between two images: the number of positions whose pixels differ by more than an allowance, in parts of 255 of maxval;
// under a mask, of those alone that are not black. Every call answers; what it answers is defined in specs/Calls.antt and specs/Masked.antt.

#![tactic(auto)]

ghost use Rattle.std.specs.Prelude.{◌≡◌};
ghost use Rattle.refusals.specs.Call.{result_of};
ghost use Rattle.score.specs.Told.{as_answer};
ghost use Rattle.score.specs.Calls.{score_call};
ghost use Rattle.score.specs.Masked.{masked_call};

use refusals::Refusal;

mod compare;
mod count;
mod judge;
mod pixels;
mod under_mask;
mod whites;

// A number, or a refusal with the number 0: as C is told it.
#[repr(C)]
#[derive(Clone, Copy)]
pub struct Answer {
    pub refusal: u8,
    pub value: u64,
}

impl From<Result<u64, Refusal>> for Answer {
    ghost from_gives = { λ answer told. told ≡ as_answer answer };

    fn from(answer: Result<u64, Refusal>) -> Answer {
        match answer {
            Ok(value) => Answer { refusal: 0, value },
            Err(refusal) => Answer {
                refusal: refusal.number(),
                value: 0,
            },
        }
    }
}

// The score of two images under an allowance, or `bound` where the score is larger.
pub fn score(bound: u64, allowance: u8, first: &[u8], second: &[u8]) -> Result<u64, Refusal>
    ensures { as_answer result ≡ result_of (score_call bound allowance first.now second.now) }
{
    let pair = judge::readings(bound, first, second)?;
    judge::alike(pair.one, pair.two)?;
    let changed = count::changed(
        &first[pair.one.start..pair.one.used],
        &second[pair.two.start..pair.two.used],
        allowance,
        pair.one.maxval,
    );
    Ok(count::at_most(bound, changed))
}

// The same without the positions that are black in a mask.
pub fn masked(
    bound: u64,
    allowance: u8,
    first: &[u8],
    second: &[u8],
    mask: &[u8],
) -> Result<u64, Refusal>
    ensures { as_answer result ≡ result_of (masked_call bound allowance first.now second.now mask.now) }
{
    let images = judge::readings(bound, first, second)?;
    let one = images.one;
    let two = images.two;
    let over = image::mask_header(mask)?;
    judge::alike(one, two)?;
    judge::sides(one, over)?;
    let changed = under_mask::changed(
        &first[one.start..one.used],
        &second[two.start..two.used],
        &mask[over.start..over.used],
        one.width,
        one.height,
        allowance,
        one.maxval,
    );
    Ok(count::at_most(bound, changed))
}
