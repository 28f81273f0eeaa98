// The choice of a picture for the page.
ghost use Rattle.std.specs.Prelude.{◌≡◌};
ghost use Rattle.refusals.specs.Call.{result_of};
ghost use Rattle.page.specs.Calls.{lent_by, show_call};
ghost use Rattle.uprzezar.specs.Crossing.{shown_as};

use crate::Shown;
use book::Book;
use page::Ticks;

// Which of two images to show, where its raster lies in its bytes, and how old it is.
#[unsafe(no_mangle)]
pub extern "C" fn uprzezar_show(
    book: Book,
    ring: &[u8],
    window: u64,
    amount: u64,
    newest: &[u8],
    older: &[u8],
    ticks: Ticks,
) -> Shown
    ensures { result ≡ shown_as (result_of (show_call book window amount (lent_by ring.entry newest.entry older.entry) ticks)) }
{
    Shown::from(page::show(book, ring, window, amount, newest, older, ticks))
}
