// A row of frames that no fault of its own has: the faults of specs/Calls.antt that can be told without looking at a frame.
ghost use Rattle.std.specs.Prelude.{◌≡◌, ◌+◌, ◌/◌, length, take, IfOk};
ghost use Rattle.refusals.specs.First.{first_of};
ghost use Rattle.refusals.specs.Call.{result_of};
ghost use Rattle.refusals.specs.Refused.{number_in};
ghost use Rattle.lit.specs.Held.{Held};
ghost use Rattle.lit.specs.Calls.{row_faults, rank_call};
ghost use Rattle.lit.specs.Told.{as_answer};

use bits::ones;
use refusals::Refusal;

// The most frames of a row.
const MOST_FRAMES: usize = 65536;

// A row of `count` frames, not too many, and a bit for each of them.
#[derive(Clone, Copy)]
pub(crate) struct GoodRow<'a> {
    row: &'a [u8],
    pub(crate) count: usize,
    ghost held: { Held (length row.now) count },
}

impl<'a> GoodRow<'a> {
    // The row, where it has no fault.
    pub(crate) fn judged(row: &'a [u8], count: usize) -> Result<GoodRow<'a>, Refusal>
        ensures refusal { number_in result ≡ first_of (row_faults (length row.now) count) }
        ensures row { IfOk result (λ good. good.row.now ≡ row.now) }
        ensures count { IfOk result (λ good. good.count ≡ count) }
    {
        if MOST_FRAMES < count || row.len() < count.div_ceil(8) {
            return Err(Refusal::BadLitCall);
        }
        Ok(GoodRow { row, count })
    }

    // How many of the first i frames are lit.
    #[tactic(auto, using(crate::proofs::Returned::ranks))]
    pub(crate) fn rank(self, i: usize) -> Result<usize, Refusal>
        ensures { as_answer result ≡ result_of (rank_call self.entry.row.now self.entry.count i) }
    {
        if self.count < i {
            return Err(Refusal::BadLitCall);
        }
        Ok(ones::between(self.row, 0, i))
    }

    // The bytes that the frames take.
    pub(crate) fn bytes(self) -> &'a [u8]
        ensures { result.now ≡ take ((self.entry.count + 7) / 8) self.entry.row.now }
    {
        &self.row[..self.count.div_ceil(8)]
    }
}
