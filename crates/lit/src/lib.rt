// Lit frames, one bit a frame, packed as a PBM row: how many of the first i are lit, where the k-th lit one is, and both with a step.
// What each call answers is its row in specs/Calls.antt. The calls take the row and its count one by one, as C hands them in.

#![tactic(auto)]

ghost use Rattle.std.specs.Prelude.{◌≡◌};
ghost use Rattle.refusals.specs.Call.{result_of};
ghost use Rattle.lit.specs.InByte.{place_in_byte};
ghost use Rattle.lit.specs.Told.{as_answer};
ghost use Rattle.lit.specs.Calls.{rank_call, select_call, coarse_rank_call, coarse_select_call};

use good_row::GoodRow;
use refusals::Refusal;

mod good_row;
mod search;
mod table;

// A refusal number, 0 for none, and a number, which is 0 at a refusal: as C is told it. C has a struct of its own for each.
#[repr(C)]
#[derive(Clone, Copy)]
pub struct Answer {
    pub refusal: u8,
    pub value: usize,
}

impl From<Result<usize, Refusal>> for Answer {
    ghost from_gives = { λ answer told. told ≡ as_answer answer };

    fn from(answer: Result<usize, Refusal>) -> Answer {
        match answer {
            Ok(value) => Answer { refusal: 0, value },
            Err(refusal) => Answer {
                refusal: refusal.number(),
                value: 0,
            },
        }
    }
}

// The place of the k-th one in a byte, 1 to 8 from the top bit down; 0 for none, and where k is not 1 to 8.
// A number and no Option: `uprzezar_in_byte` gives C this number, and the table holds it.
pub fn in_byte(byte: u8, k: usize) -> u8
    ensures { result ≡ place_in_byte byte k }
{
    table::in_byte(byte, k)
}

// How many of the first i frames are lit, of a row of `count` frames.
#[tactic(auto, using(crate::proofs::Returned::rank_refused))]
pub fn rank(row: &[u8], count: usize, i: usize) -> Result<usize, Refusal>
    ensures { as_answer result ≡ result_of (rank_call row.now count i) }
{
    GoodRow::judged(row, count)?.rank(i)
}

// The same rounded down to a multiple of the step.
#[tactic(auto, using(crate::proofs::Returned::coarse_ranks))]
pub fn rank_coarse(row: &[u8], count: usize, step: usize, i: usize) -> Result<usize, Refusal>
    ensures { as_answer result ≡ result_of (coarse_rank_call row.now count step i) }
{
    if step == 0 {
        return Err(Refusal::BadLitCall);
    }
    Ok(step * (rank(row, count, i)? / step))
}

// The place, from 1, of the k-th lit frame.
#[tactic(auto, using(crate::proofs::Returned::select_refused))]
pub fn select(row: &[u8], count: usize, k: usize) -> Result<usize, Refusal>
    ensures { as_answer result ≡ result_of (select_call row.now count k) }
{
    GoodRow::judged(row, count)?.select(k)
}

// With t, the last multiple of the step up to k: the k-th lit frame's place if t is k, place 1 if t is 0, and otherwise the place behind the t-th
// lit frame. The k-th one is looked for in any case, for where it is not there the call is refused.
#[tactic(auto, using(crate::proofs::Returned::coarse_selects))]
pub fn select_coarse(row: &[u8], count: usize, step: usize, k: usize) -> Result<usize, Refusal>
    ensures { as_answer result ≡ result_of (coarse_select_call row.now count step k) }
{
    if step == 0 {
        return Err(Refusal::BadLitCall);
    }
    let good = GoodRow::judged(row, count)?;
    let place = good.select(k)?;
    let t = step * (k / step);
    if t == k {
        return Ok(place);
    }
    Ok(good.behind(t))
}
