// What is refused before anything is changed: 8, 4, 21.
ghost use Rattle.std.specs.Prelude.{◌≡◌, ◌≤◌, [], ◌∷◌, ◌++◌, MatchResult};
ghost use Rattle.refusals.specs.First.{first_of};
ghost use Rattle.refusals.specs.Refused.{number_of};
ghost use Rattle.book.specs.Calls.{book_faults};
ghost use Rattle.salvage.specs.Calls.{numbers_fault};

use book::Book;
use book::judge::usable;
use book::known::Known;
use refusals::Refusal;

// 8 and 4 as the book asks for them; then 21.
pub(crate) fn ready(book: Book, ring: usize, numbers: usize) -> Result<Known, Refusal>
    ensures { MatchResult result (λ known. (known.book ≡ book) × (known.shape.bytes ≤ ring) × (known.shape.slots ≤ numbers)) (λ refusal. number_of refusal ≡ first_of (book_faults book ring ++ numbers_fault book numbers ∷ [])) }
{
    let known = usable(book, ring)?;
    if (numbers as u64) < known.shape.slots {
        return Err(Refusal::NumbersTooShort);
    }
    Ok(known)
}
