// The book's calls.
ghost use Rattle.std.specs.Prelude.{◌≡◌};
ghost use Rattle.refusals.specs.Call.{result_of, left_of};
ghost use Rattle.book.specs.Calls.{open_call, add_call, run_call, rest_call, wake_call, total_call, how_far_call, verdict_call};
ghost use Rattle.book.specs.Shape.{shape_call};
ghost use Rattle.uprzezar.specs.Crossing.{as_numbers};

use crate::{Ruled, crossing};
use book::Book;
use book::shape::Shaped;
use book::told::{Figure, Ran, Updated, Window};

// The numbers of a book with a bound, a length and a tolerance, before it is opened.
#[unsafe(no_mangle)]
pub extern "C" fn uprzezar_shape(bound: u64, length: u64, tolerance: u64) -> Shaped
    ensures { result ≡ result_of (shape_call bound length tolerance) }
{
    Shaped::from(book::shape::derive(bound, length, tolerance))
}

// Opens a book with a bound, a length and a tolerance, and clears the bytes that its ring takes.
#[unsafe(no_mangle)]
pub extern "C" fn uprzezar_open(bound: u64, length: u64, tolerance: u64, ring: &mut [u8]) -> Updated
    ensures { (result ≡ result_of (open_call bound length tolerance ring.old)) × (ring.new ≡ left_of (open_call bound length tolerance ring.old)) }
{
    Updated::of(
        crossing::no_book(),
        book::open(bound, length, tolerance, ring),
    )
}

// Adds one item to a book.
#[unsafe(no_mangle)]
pub extern "C" fn uprzezar_add(book: Book, ring: &mut [u8], item: u64) -> Updated
    ensures { (result ≡ result_of (add_call book ring.old item)) × (ring.new ≡ left_of (add_call book ring.old item)) }
{
    Updated::of(book, book::add(book, ring, item))
}

// Adds a run of counts to a book, all of them or none.
#[unsafe(no_mangle)]
pub extern "C" fn uprzezar_run(book: Book, ring: &mut [u8], counts: &[u64]) -> Ran
    ensures { (result ≡ result_of (run_call book ring.old counts.now)) × (ring.new ≡ left_of (run_call book ring.old counts.now)) }
{
    Ran::of(book, book::run(book, ring, counts))
}

// Puts a book to rest: gives the record with its mark set.
#[unsafe(no_mangle)]
pub extern "C" fn uprzezar_rest(book: Book) -> Updated
    ensures { result ≡ result_of (rest_call book) }
{
    Updated::of(book, book::rest(book))
}

// Wakes a book: gives the record with its mark cleared.
#[unsafe(no_mangle)]
pub extern "C" fn uprzezar_wake(book: Book) -> Updated
    ensures { result ≡ result_of (wake_call book) }
{
    Updated::of(book, book::wake(book))
}

// The figure for the last `window` items.
#[unsafe(no_mangle)]
pub extern "C" fn uprzezar_total(book: Book, ring: &[u8], window: u64) -> Figure
    ensures { result ≡ result_of (total_call book ring.now window) }
{
    Figure::from(book::total(book, ring, window))
}

// The shortest window whose figure reaches an amount.
#[unsafe(no_mangle)]
pub extern "C" fn uprzezar_far(book: Book, ring: &[u8], amount: u64) -> Window
    ensures { result ≡ result_of (how_far_call book ring.now amount) }
{
    Window::from(book::how_far_back(book, ring, amount))
}

// The verdict for a window and an amount, as the page is told it.
#[unsafe(no_mangle)]
pub extern "C" fn uprzezar_verdict(book: Book, ring: &[u8], window: u64, amount: u64) -> Ruled
    ensures { result ≡ as_numbers (result_of (verdict_call book ring.now window amount)) }
{
    Ruled::from(book::verdict(book, ring, window, amount))
}
