// The trend.
ghost use Rattle.std.specs.Prelude.{◌≡◌};
ghost use Rattle.refusals.specs.Call.{result_of};
ghost use Rattle.trend.specs.Trend.{trend_call};

use book::Book;
use trend::Answer;

// Twice the figure for the last `window` items less the figure for twice as many.
#[unsafe(no_mangle)]
pub extern "C" fn uprzezar_trend(book: Book, ring: &[u8], window: u64) -> Answer
    ensures { result ≡ result_of (trend_call book ring.now window) }
{
    Answer::from(trend::trend(book, ring, window))
}
