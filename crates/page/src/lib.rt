// Which of two pictures the page shows, the newest or the last one that was known to move, and how old it is. What the calls give is defined in
// specs/Calls.antt.

#![tactic(auto)]

ghost use Rattle.std.specs.Prelude.{◌≡◌};
ghost use Rattle.refusals.specs.Call.{result_of};
ghost use Rattle.image.specs.Part.{part_of};
ghost use Rattle.page.specs.Told.{as_choice};
ghost use Rattle.page.specs.Calls.{lent_by, show_call, part_call};

use book::Book;
use refusals::Refusal;

mod picking;

#[derive(Clone, Copy)]
pub enum Picture {
    Newest,
    Older,
}

// Which picture is shown, where its raster lies in its own slice, and its age in ticks.
#[derive(Clone, Copy)]
pub struct Choice {
    pub picture: Picture,
    pub offset: usize,
    pub length: usize,
    pub age: u32,
}

// The ticks at which the two pictures were taken, and the tick now. (By their names, since three numbers of one type are easily mixed up.)
#[repr(C)]
#[derive(Clone, Copy)]
pub struct Ticks {
    pub newest: u32,
    pub older: u32,
    pub present: u32,
}

// The newest picture if the verdict on the window and the amount is live, otherwise the older one. (The parameters are those of public calls,
// and C has the same: a struct of them would ask something else of callers.)
pub fn show(
    book: Book,
    ring: &[u8],
    window: u64,
    amount: u64,
    newest: &[u8],
    older: &[u8],
    ticks: Ticks,
) -> Result<Choice, Refusal>
    ensures { as_choice result ≡ result_of (show_call book window amount (lent_by ring.entry newest.entry older.entry) ticks) }
{
    let picked = picking::pick(book, ring, window, amount, newest, older)?;
    let own = picking::of_shown(picked.picture, ticks.newest, ticks.older);
    Ok(Choice {
        picture: picked.picture,
        offset: picked.start,
        length: picked.end - picked.start,
        age: picking::age(ticks.present, own),
    })
}

// The raster of that picture, as the part of its slice in which it lies; where the call is refused, the empty part at the start of `newest`.
pub fn raster<'a>(
    book: Book,
    ring: &[u8],
    window: u64,
    amount: u64,
    newest: &'a [u8],
    older: &'a [u8],
) -> &'a [u8]
    ensures { part_of result ≡ result_of (part_call book window amount ring.entry newest.entry older.entry) }
{
    match picking::pick(book, ring, window, amount, newest, older) {
        Ok(picked) => {
            let slice = picking::of_shown(picked.picture, newest, older);
            &slice[picked.start..picked.end]
        }
        Err(_) => &newest[..0],
    }
}
