// The verdict for a window and an amount: live, frozen or undecided, or resting, each with the window's figure; and what the page is told.
ghost use Rattle.std.specs.Prelude.{◌≡◌, ◌≤◌};
ghost use Rattle.book.specs.Verdict.{verdict_of, verdict_now};

use crate::known::Known;
use crate::resting;

#[derive(Clone, Copy)]
pub enum Verdict {
    Live(u64),
    Frozen(u64),
    Undecided(u64),
    Resting(u64),
}

// What the page is told: the window that was asked for, and the verdict with its figure.
#[derive(Clone, Copy)]
pub struct Notice {
    pub window: u64,
    pub verdict: Verdict,
}

// Live if f ≥ v, frozen if f + D − 1 < v, otherwise undecided. (The sum is not made, since it could wrap.)
#[tactic(auto, unfolding(crate::specs::Verdict::verdict_of))]
fn rule(tolerance: u64, amount: u64, figure: u64) -> Verdict
    requires { 1 ≤ tolerance }
    ensures { result ≡ verdict_of tolerance amount figure }
{
    if amount <= figure {
        return Verdict::Live(figure);
    }
    if tolerance - 1 < amount - figure {
        return Verdict::Frozen(figure);
    }
    Verdict::Undecided(figure)
}

impl Known {
    // While the book rests, resting; otherwise by the figure.
    pub(crate) fn verdict(self, amount: u64, figure: u64) -> Verdict
        ensures { result ≡ verdict_now self.book amount figure }
    {
        if self.book.resting != resting::AWAKE {
            return Verdict::Resting(figure);
        }
        rule(self.book.tolerance, amount, figure)
    }
}
