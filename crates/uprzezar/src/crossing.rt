// Answers of the calls as C takes them: specs/Crossing.antt.
ghost use Rattle.std.specs.Prelude.{◌≡◌};
ghost use Rattle.refusals.specs.Refused.{number_in};
ghost use Rattle.book.specs.Record.{no_book_at_all};
ghost use Rattle.book.specs.Told.{as_ruling};
ghost use Rattle.book.specs.Verdict.{case_of};
ghost use Rattle.page.specs.Shown.{picture_number};
ghost use Rattle.page.specs.Told.{as_picture, as_choice};
ghost use Rattle.uprzezar.specs.Crossing.{as_numbers, shown_as};

use crate::{Ruled, Shown};
use book::Book;
use book::verdicts::{Notice, Verdict};
use page::{Choice, Picture};
use refusals::Refusal;

// The number of the refusal, 0 for none.
pub(crate) fn number(answer: Result<(), Refusal>) -> u8
    ensures { result ≡ number_in answer }
{
    match answer {
        Ok(()) => 0,
        Err(refusal) => refusal.number(),
    }
}

// The record of all zeros, which is handed back where an opening is refused.
pub(crate) fn no_book() -> Book
    ensures { result ≡ no_book_at_all }
{
    Book::default()
}

// The number of a verdict, and its figure. (The numbers that C has: include/uprzezar.h.)
fn case_of(verdict: Verdict) -> (u8, u64)
    ensures { result ≡ case_of verdict }
{
    match verdict {
        Verdict::Live(figure) => (1, figure),
        Verdict::Frozen(figure) => (2, figure),
        Verdict::Undecided(figure) => (3, figure),
        Verdict::Resting(figure) => (4, figure),
    }
}

impl From<Result<Notice, Refusal>> for Ruled {
    ghost from_gives = { λ answer told. told ≡ as_numbers (as_ruling answer) };

    fn from(answer: Result<Notice, Refusal>) -> Ruled {
        match answer {
            Ok(notice) => {
                let (verdict, figure) = case_of(notice.verdict);
                Ruled {
                    refusal: 0,
                    verdict,
                    window: notice.window,
                    figure,
                }
            }
            Err(refusal) => Ruled {
                refusal: refusal.number(),
                ..Ruled::default()
            },
        }
    }
}

// The number of a picture. (The numbers that C has: include/uprzezar.h.)
fn picture_number(picture: Picture) -> u8
    ensures { result ≡ picture_number (as_picture picture) }
{
    match picture {
        Picture::Newest => 1,
        Picture::Older => 2,
    }
}

impl From<Result<Choice, Refusal>> for Shown {
    ghost from_gives = { λ answer told. told ≡ shown_as (as_choice answer) };

    fn from(answer: Result<Choice, Refusal>) -> Shown {
        match answer {
            Ok(choice) => Shown {
                refusal: 0,
                picture: picture_number(choice.picture),
                offset: choice.offset,
                length: choice.length,
                age: choice.age,
            },
            Err(refusal) => Shown {
                refusal: refusal.number(),
                ..Shown::default()
            },
        }
    }
}
