// What is asked before anything is changed: BadZones of the number of zones, NoBook of every record, RingTooShort of the ring bytes, then BookRests
// and ItemTooLarge of the zones that have a count. The counts are for as many zones in a row.
ghost use Rattle.std.specs.Prelude.{◌≡◌, ◌+◌, ◌≤◌, IsTrue, ◌↔◌, ◌*◌, IfOk, is_err, false, length};
ghost use Rattle.refusals.specs.Refused.{number_of, number_in};
ghost use Rattle.refusals.specs.Call.{result_of};
ghost use Rattle.book.specs.Record.{bytes_of};
ghost use Rattle.book.specs.Sound.{Sound};
ghost use Rattle.zones.specs.Told.{refused_as, as_zoned};
ghost use Rattle.zones.specs.Stretches.{stretch_start, all_bytes};
ghost use Rattle.zones.specs.Lowest.{taking_refusal, record_refusals, taking_refusals};
ghost use Rattle.zones.specs.Calls.{most_zones};
ghost use Rattle.zones.specs.Named.{names_zone};
ghost use Rattle.zones.specs.InARow.{told_of, lowest_from, row_call};

use crate::ZoneRefusal;
use book::{Book, shape};
use refusals::Refusal;

const MOST_ZONES: usize = 96;

// There are 1 to 96 zones.
pub(crate) fn how_many(zones: usize) -> bool
    ensures { IsTrue result ↔ ((1 ≤ zones) × (zones ≤ most_zones)) }
{
    (1..=MOST_ZONES).contains(&zones)
}

// A refusal for which no zone is to blame.
pub(crate) fn of_call(refusal: Refusal) -> ZoneRefusal
    requires { names_zone (number_of refusal) ≡ false }
    ensures { refused_as result ≡ record { refusal = number_of refusal; zone = 0 } }
{
    ZoneRefusal {
        refusal,
        zone: None,
    }
}

// What is found of one zone: its refusal, which names a zone, with the zone's number.
fn of_zone<T: Drop>(found: Result<T, Refusal>, zone: usize) -> Result<T, ZoneRefusal>
    requires { is_err found ≡ names_zone (number_in found) }
    ensures { as_zoned result ≡ told_of (number_in found) zone }
{
    match found {
        Ok(given) => Ok(given),
        Err(refusal) => Err(ZoneRefusal {
            refusal,
            // `as`: std has no `From` from usize to u64, and a zone's number is below 96.
            zone: Some(zone as u64),
        }),
    }
}

// NoBook, RingTooShort, then BookRests or ItemTooLarge. Where nothing is refused it tells where the stretch of zone `low` starts.
pub(crate) fn in_a_row(
    zones: &[Book],
    rings: &[u8],
    low: usize,
    counts: &[u64],
) -> Result<usize, ZoneRefusal>
    requires { (low + length counts.now ≤ length zones.now) × (length zones.now ≤ most_zones) }
    ensures told { as_zoned result ≡ result_of (row_call zones.now rings.now low counts.now) }
    ensures start { IfOk result (λ start. start ≡ stretch_start zones.now low) }
{
    let (before, rest) = zones.split_at(low);
    let start = books(before, 0)?;
    let more = books(rest, low)?;
    if rings.len() < start + more {
        return Err(of_call(Refusal::RingTooShort));
    }
    counts_taken(rest, low, counts)?;
    Ok(start)
}

// NoBook, of the lowest of these zones whose record is no book; the first of them has the number `first`. Where all are books it tells the bytes
// that their stretches take.
fn books(zones: &[Book], first: usize) -> Result<usize, ZoneRefusal>
    requires { first + length zones.now ≤ most_zones }
    ensures told { as_zoned result ≡ lowest_from first (record_refusals zones.now) }
    ensures bytes { IfOk result (λ bytes. (bytes ≡ all_bytes zones.now) × (bytes ≤ length zones.now * 8192)) }
{
    let mut all = 0;
    for (place, book) in zones.iter().enumerate() {
        of_zone(book::wake(*book), first + place)?;
        all += bytes(*book);
    }
    Ok(all)
}

// The bytes of a zone's stretch.
pub(crate) fn bytes(book: Book) -> usize
    requires { Sound book }
    ensures { (result ≡ bytes_of book) × (result ≤ 8192) }
{
    match shape::derive(book.bound, book.length, book.tolerance) {
        // `as`: std has no `From` for it, and B is at most 8192.
        Ok(shape) => shape.bytes as usize,
        Err(_) => 0,
    }
}

// BookRests or ItemTooLarge, of the lowest of these zones that does not take its count.
fn counts_taken(zones: &[Book], first: usize, counts: &[u64]) -> Result<(), ZoneRefusal>
    requires { (length counts.now ≤ length zones.now) × (first + length zones.now ≤ most_zones) }
    ensures { as_zoned result ≡ lowest_from first (taking_refusals zones.now counts.now) }
{
    // By the zone's number: behind `zip(..).enumerate()` the loop's invariant has the iterator, and no place.
    for (place, count) in counts.iter().enumerate() {
        of_zone(takes(zones[place], *count), first + place)?;
    }
    Ok(())
}

// BookRests, then ItemTooLarge.
fn takes(book: Book, count: u64) -> Result<(), Refusal>
    ensures { number_in result ≡ taking_refusal book count }
{
    if book.resting != 0 {
        return Err(Refusal::BookRests);
    }
    if book.bound < count {
        return Err(Refusal::ItemTooLarge);
    }
    Ok(())
}
