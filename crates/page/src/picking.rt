// Which picture is shown, and between which bytes of its slice its raster lies: what both calls of the page begin with. And what belongs to the
// picture that is shown (specs/Shown.antt).
ghost use Rattle.std.specs.Prelude.{◌≡◌};
ghost use Rattle.refusals.specs.Call.{result_of};
ghost use Rattle.page.specs.Ages.{age_of};
ghost use Rattle.page.specs.Shown.{picture_by, of_shown};
ghost use Rattle.page.specs.Calls.{lent_by};
ghost use Rattle.page.specs.Picked.{pick_call};
ghost use Rattle.page.specs.Told.{as_picture, as_picked};

use crate::Picture;
use book::Book;
use book::verdicts::Verdict;
use refusals::Refusal;

#[derive(Clone, Copy)]
pub(crate) struct Picked {
    pub picture: Picture,
    pub start: usize,
    pub end: usize,
}

// The newest if the verdict is live, otherwise the older one.
impl From<Verdict> for Picture {
    ghost from_gives = { λ verdict picture. as_picture picture ≡ picture_by verdict };

    fn from(verdict: Verdict) -> Picture {
        match verdict {
            Verdict::Live(_) => Picture::Newest,
            Verdict::Frozen(_) => Picture::Older,
            Verdict::Undecided(_) => Picture::Older,
            Verdict::Resting(_) => Picture::Older,
        }
    }
}

// Of what belongs to the two pictures, that of the one which is shown.
pub(crate) fn of_shown<T: Copy>(picture: Picture, newest: T, older: T) -> T
    ensures { result ≡ of_shown (as_picture picture) newest older }
{
    match picture {
        Picture::Newest => newest,
        Picture::Older => older,
    }
}

// The ticks that have passed from a picture's own to the present one, also where the counter has gone on with 0 between the two.
pub(crate) fn age(present: u32, own: u32) -> u32
    ensures { result ≡ age_of present own }
{
    present.wrapping_sub(own)
}

// The verdict first, then the newest image, then the other, whichever of them is to be shown.
pub(crate) fn pick(
    book: Book,
    ring: &[u8],
    window: u64,
    amount: u64,
    newest: &[u8],
    older: &[u8],
) -> Result<Picked, Refusal>
    ensures { as_picked result ≡ result_of (pick_call book window amount (lent_by ring.entry newest.entry older.entry)) }
{
    let notice = book::verdict(book, ring, window, amount)?;
    let of_newest = image::header(newest)?;
    let of_older = image::header(older)?;
    let picture = Picture::from(notice.verdict);
    let shown = of_shown(picture, of_newest, of_older);
    Ok(Picked {
        picture,
        start: shown.start,
        end: shown.used,
    })
}
