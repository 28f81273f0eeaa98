// The choice of a picture for the page.
use crate::reading;
use crate::reading::{Unanswered, bytes, number};
use crate::room::{Room, Text};
use crate::text::Answer;
use page::{Choice, Picture, Ticks};
use std::fmt::Write;

// `record ring w v newest tick older tick tick`, the last tick being the one now.
pub(crate) fn show(room: &mut Room, arguments: &[&str]) -> Answer {
    let [
        record,
        ring,
        window,
        amount,
        newest,
        newest_tick,
        older,
        older_tick,
        present,
    ] = arguments
    else {
        return Err(Unanswered);
    };
    let book = reading::book(record, ring, &mut room.first)?;
    let window = number(window)?;
    let amount = number(amount)?;
    bytes(newest, &mut room.second)?;
    bytes(older, &mut room.third)?;
    let ticks = Ticks {
        newest: number(newest_tick)?,
        older: number(older_tick)?,
        present: number(present)?,
    };
    let (ring, newest, older) = (&room.first, &room.second, &room.third);
    let raster = page::raster(book, ring, window, amount, newest, older);
    match page::show(book, ring, window, amount, newest, older, ticks) {
        Ok(choice) => shown(&mut room.out, choice, raster, newest, older),
        Err(refusal) if raster.is_empty() => {
            Ok(write!(room.out, "{} none 0 0 0", refusal.number())?)
        }
        Err(_) => Err(Unanswered),
    }
}

// The picture, where its raster starts and how long it is, and its age. It is told only if the raster's own bytes stand there.
fn shown(out: &mut Text, choice: Choice, raster: &[u8], newest: &[u8], older: &[u8]) -> Answer {
    // (Not an impl of `Display`: `Picture` is of another crate.)
    let (word, lent) = match choice.picture {
        Picture::Newest => ("newest", newest),
        Picture::Older => ("older", older),
    };
    let Some(end) = choice.offset.checked_add(choice.length) else {
        return Err(Unanswered);
    };
    if lent.get(choice.offset..end) != Some(raster) {
        return Err(Unanswered);
    }
    Ok(write!(
        out,
        "0 {word} {} {} {}",
        choice.offset, choice.length, choice.age
    )?)
}
