// The search for the k-th one: past long groups of bytes while it lies behind them, then past shorter ones, and inside one byte by the table.
ghost use Rattle.std.specs.Prelude.{◌≡◌, ◌≤◌, ◌<◌, ◌*◌, length};
ghost use Rattle.refusals.specs.Call.{result_of};
ghost use Rattle.lit.specs.Limits.{most_frames};
ghost use Rattle.lit.specs.Frames.{frames};
ghost use Rattle.lit.specs.RankSelect.{select_of};
ghost use Rattle.lit.specs.Coarse.{place_behind};
ghost use Rattle.lit.specs.Search.{Passed, Stopped, found};
ghost use Rattle.lit.specs.Calls.{select_call};
ghost use Rattle.lit.specs.Told.{as_answer};

use crate::good_row::GoodRow;
use crate::table;
use bits::ones;
use refusals::Refusal;

// How many bytes are passed at once at first.
const BLOCK: usize = 256;

// How far a search has come: the bytes that it has passed, and the ones in them.
#[derive(Clone, Copy, Default)]
struct Spot {
    at: usize,
    before: usize,
}

// Goes on from a spot past groups of `size` bytes, while the k-th one lies behind them.
fn pass(bytes: &[u8], k: usize, size: usize, from: Spot) -> Spot
    requires some { 0 < size }
    requires few { length bytes.now * 8 ≤ most_frames }
    requires passed { Passed bytes.now k from.at from.before }
    ensures { Stopped bytes.now k size result.at result.before }
{
    let mut spot = from;
    for group in bytes[from.at..].chunks_exact(size) {
        let after = spot.before + ones::of_bytes(group);
        if k <= after {
            return spot;
        }
        spot = Spot {
            at: spot.at + size,
            before: after,
        };
    }
    spot
}

// The place of the k-th one, by the spot before its byte; none where it is none of the first `count` bits.
fn place(bytes: &[u8], count: usize, k: usize, spot: Spot) -> Option<usize>
    requires enough { count ≤ length bytes.now * 8 }
    requires few { length bytes.now * 8 ≤ most_frames }
    requires stopped { Stopped bytes.now k 1 spot.at spot.before }
    ensures { result ≡ found (select_of k (frames bytes.now count)) }
{
    let byte = *bytes.get(spot.at)?;
    let place = spot.at * 8 + usize::from(table::in_byte(byte, k - spot.before));
    (place <= count).then_some(place)
}

impl<'a> GoodRow<'a> {
    // The place of the k-th lit frame, none where there are not so many.
    fn kth(self, k: usize) -> Option<usize>
        requires { 0 < k }
        ensures { result ≡ found (select_of k (frames self.entry.row.now self.entry.count)) }
    {
        let bytes = self.bytes();
        let past_blocks = pass(bytes, k, BLOCK, Spot::default());
        let past_words = pass(bytes, k, 8, past_blocks);
        let past_bytes = pass(bytes, k, 1, past_words);
        place(bytes, self.count, k, past_bytes)
    }

    // The same, refused where there is none.
    #[tactic(auto, using(crate::proofs::Returned::selects))]
    pub(crate) fn select(self, k: usize) -> Result<usize, Refusal>
        ensures { as_answer result ≡ result_of (select_call self.entry.row.now self.entry.count k) }
    {
        if k == 0 {
            return Err(Refusal::BadLitCall);
        }
        self.kth(k).ok_or(Refusal::BadLitCall)
    }

    // The place behind the t-th lit frame; place 1 where t is 0.
    pub(crate) fn behind(self, t: usize) -> usize
        ensures { result ≡ place_behind t (frames self.entry.row.now self.entry.count) }
    {
        if t == 0 {
            return 1;
        }
        self.kth(t).map_or(1, |place| place + 1)
    }
}
