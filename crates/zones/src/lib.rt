// A book for each zone of the picture. The box lends the zones' records, one slice of ring bytes in which every zone has its own stretch, in
// order and as long as its own B, and the counts. What each call answers and leaves is defined in specs/Calls.antt.

#![tactic(auto)]

ghost use Rattle.std.specs.Prelude.{◌≡◌, ◌+◌, ◌≤◌, length};
ghost use Rattle.refusals.specs.Call.{result_of, left_of};
ghost use Rattle.zones.specs.Told.{as_zoned};
ghost use Rattle.zones.specs.Calls.{most_zones, add_all_call, add_one_call};
ghost use Rattle.zones.specs.InARow.{row_call};

use book::Book;
use refusals::Refusal;

mod adding;
mod judge;
mod refused;
pub mod told;

pub use refused::ZoneRefusal;

// Adds to every zone the count that stands in its place, to all of them or to none.
pub fn add_all(zones: &mut [Book], rings: &mut [u8], counts: &[u64]) -> Result<(), ZoneRefusal>
    ensures { (as_zoned result ≡ result_of (add_all_call zones.old rings.old counts.now)) × (zones.new ≡ (left_of (add_all_call zones.old rings.old counts.now)).zones) × (rings.new ≡ (left_of (add_all_call zones.old rings.old counts.now)).rings) }
{
    if !judge::how_many(zones.len()) || counts.len() != zones.len() {
        return Err(judge::of_call(Refusal::BadZones));
    }
    add_in_a_row(zones, rings, 0, counts)
}

// Adds one item to one zone.
pub fn add_one(
    zones: &mut [Book],
    rings: &mut [u8],
    zone: u64,
    item: u64,
) -> Result<(), ZoneRefusal>
    ensures { (as_zoned result ≡ result_of (add_one_call zones.old rings.old zone item)) × (zones.new ≡ (left_of (add_one_call zones.old rings.old zone item)).zones) × (rings.new ≡ (left_of (add_one_call zones.old rings.old zone item)).rings) }
{
    if !judge::how_many(zones.len()) || zones.len() as u64 <= zone {
        return Err(judge::of_call(Refusal::BadZones));
    }
    // `as`: it is below the number of zones, which is a usize.
    add_in_a_row(zones, rings, zone as usize, &[item])
}

// Adds the counts to as many zones in a row, from zone `low` on. All zones are judged before anything is changed.
fn add_in_a_row(
    zones: &mut [Book],
    rings: &mut [u8],
    low: usize,
    counts: &[u64],
) -> Result<(), ZoneRefusal>
    requires { (low + length counts.now ≤ length zones.old) × (length zones.old ≤ most_zones) }
    ensures { (as_zoned result ≡ result_of (row_call zones.old rings.old low counts.now)) × (zones.new ≡ (left_of (row_call zones.old rings.old low counts.now)).zones) × (rings.new ≡ (left_of (row_call zones.old rings.old low counts.now)).rings) }
{
    let start = judge::in_a_row(zones, rings, low, counts)?;
    adding::in_a_row(zones, rings, low, start, counts);
    Ok(())
}
