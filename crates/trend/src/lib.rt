// More or less movement than before: the last i items set against the i before them, by the figures for i and for 2i. What the call gives is
// defined in specs/Trend.antt.

#![tactic(auto)]

ghost use Rattle.std.specs.Prelude.{◌≡◌};
ghost use Rattle.refusals.specs.Call.{result_of};
ghost use Rattle.trend.specs.Told.{as_answer};
ghost use Rattle.trend.specs.Trend.{trend_call};

use book::Book;
use refusals::Refusal;

// A refusal number, 0 for none, and a trend, which is 0 at a refusal: as C is told it.
#[repr(C)]
#[derive(Clone, Copy)]
pub struct Answer {
    pub refusal: u8,
    pub trend: i64,
}

impl From<Result<i64, Refusal>> for Answer {
    ghost from_gives = { λ answer told. told ≡ as_answer answer };

    fn from(answer: Result<i64, Refusal>) -> Answer {
        match answer {
            Ok(trend) => Answer { refusal: 0, trend },
            Err(refusal) => Answer {
                refusal: refusal.number(),
                trend: 0,
            },
        }
    }
}

// Twice the figure for the last `window` items less the figure for twice as many, by two totals at once.
pub fn trend(book: Book, ring: &[u8], window: u64) -> Result<i64, Refusal>
    ensures { as_answer result ≡ result_of (trend_call book ring.now window) }
{
    let both = book::two_totals(book, ring, window, window)?;
    Ok((2 * both.shorter) as i64 - both.longer as i64)
}
