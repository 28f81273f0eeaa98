// The calls on a book for each zone.
use crate::reading;
use crate::reading::{bytes, number};
use crate::room::{MOST_ZONES, Room, Text, Zones};
use crate::text::{Answer, Hex, List, Record};
use arrayvec::ArrayVec;
use std::fmt::Write;
use zones::told::Zoned;

// The refusal, the zone, the records and the rings.
fn zoned(out: &mut Text, told: Zoned, zones: &Zones, rings: &[u8]) -> Answer {
    let mut records = ArrayVec::<Record, MOST_ZONES>::new();
    for zone in zones {
        records.try_push(Record(*zone))?;
    }
    let records = List {
        items: &records,
        separator: ';',
    };
    Ok(write!(
        out,
        "{} {} {records} {}",
        told.refusal,
        told.zone,
        Hex(rings)
    )?)
}

// Adds to each zone the count that stands in its place.
pub(crate) fn add_all(room: &mut Room, zones: &str, rings: &str, counts: &str) -> Answer {
    reading::zones(zones, &mut room.zones)?;
    bytes(rings, &mut room.first)?;
    reading::row(counts, &mut room.counts)?;
    let answer = zones::add_all(&mut room.zones, &mut room.first, &room.counts);
    zoned(&mut room.out, Zoned::from(answer), &room.zones, &room.first)
}

// Adds one item to one zone.
pub(crate) fn add_one(room: &mut Room, zones: &str, rings: &str, zone: &str, item: &str) -> Answer {
    reading::zones(zones, &mut room.zones)?;
    bytes(rings, &mut room.first)?;
    let answer = zones::add_one(
        &mut room.zones,
        &mut room.first,
        number(zone)?,
        number(item)?,
    );
    zoned(&mut room.out, Zoned::from(answer), &room.zones, &room.first)
}
