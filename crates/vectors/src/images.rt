// The calls on images.
use crate::reading::{Unanswered, bytes, number};
use crate::room::Room;
use crate::text;
use crate::text::Answer;
use image::told::Numbers;
use std::fmt::Write;

// The image's numbers, and how long its raster is. Where the raster lies is told only if its own bytes stand there.
pub(crate) fn pgm(room: &mut Room, image: &str) -> Answer {
    bytes(image, &mut room.first)?;
    let told = Numbers::from(image::header(&room.first));
    let raster = image::raster(&room.first);
    if room.first.get(told.start..told.used) != Some(raster) {
        return Err(Unanswered);
    }
    Ok(write!(
        room.out,
        "{} {} {} {} {} {} {}",
        told.refusal,
        told.width,
        told.height,
        told.maxval,
        told.used,
        told.start,
        raster.len()
    )?)
}

pub(crate) fn score(
    room: &mut Room,
    bound: &str,
    allowance: &str,
    first: &str,
    second: &str,
) -> Answer {
    bytes(first, &mut room.first)?;
    bytes(second, &mut room.second)?;
    let answer = score::score(
        number(bound)?,
        number(allowance)?,
        &room.first,
        &room.second,
    );
    text::refusal_and_number(&mut room.out, answer)
}

// The same under a mask. (Not one with `score`: the calls differ by the mask, and what they share is in `bytes` and `text`.)
pub(crate) fn masked(
    room: &mut Room,
    bound: &str,
    allowance: &str,
    first: &str,
    second: &str,
    mask: &str,
) -> Answer {
    bytes(first, &mut room.first)?;
    bytes(second, &mut room.second)?;
    bytes(mask, &mut room.third)?;
    let answer = score::masked(
        number(bound)?,
        number(allowance)?,
        &room.first,
        &room.second,
        &room.third,
    );
    text::refusal_and_number(&mut room.out, answer)
}
