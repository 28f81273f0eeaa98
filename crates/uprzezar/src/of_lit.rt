// The calls on lit frames.
ghost use Rattle.std.specs.Prelude.{◌≡◌};
ghost use Rattle.refusals.specs.Call.{result_of};
ghost use Rattle.lit.specs.Calls.{rank_call, select_call, coarse_rank_call, coarse_select_call};
ghost use Rattle.lit.specs.InByte.{place_in_byte};

use lit::Answer;

// How many of the first i frames are lit, of a row of `count` frames.
#[unsafe(no_mangle)]
pub extern "C" fn uprzezar_rank(row: &[u8], count: usize, i: usize) -> Answer
    ensures { result ≡ result_of (rank_call row.now count i) }
{
    Answer::from(lit::rank(row, count, i))
}

// The place, from 1, of the k-th lit frame.
#[unsafe(no_mangle)]
pub extern "C" fn uprzezar_select(row: &[u8], count: usize, k: usize) -> Answer
    ensures { result ≡ result_of (select_call row.now count k) }
{
    Answer::from(lit::select(row, count, k))
}

// The rank rounded down to a multiple of the step.
#[unsafe(no_mangle)]
pub extern "C" fn uprzezar_rank_coarse(row: &[u8], count: usize, step: usize, i: usize) -> Answer
    ensures { result ≡ result_of (coarse_rank_call row.now count step i) }
{
    Answer::from(lit::rank_coarse(row, count, step, i))
}

// The place of the k-th lit frame where k is a multiple of the step; otherwise, with t the last such multiple before k, the place behind the t-th
// lit frame, or 1 where t is 0.
#[unsafe(no_mangle)]
pub extern "C" fn uprzezar_select_coarse(row: &[u8], count: usize, step: usize, k: usize) -> Answer
    ensures { result ≡ result_of (coarse_select_call row.now count step k) }
{
    Answer::from(lit::select_coarse(row, count, step, k))
}

// The place of the k-th one in a byte, 1 to 8 from the top bit down; 0 for none.
#[unsafe(no_mangle)]
pub extern "C" fn uprzezar_in_byte(byte: u8, k: usize) -> u8
    ensures { result ≡ place_in_byte byte k }
{
    lit::in_byte(byte, k)
}
