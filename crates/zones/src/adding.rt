// Adding to zones that are judged: each by the book's own call, on its own stretch.
ghost use Rattle.std.specs.Prelude.{◌≡◌, ◌+◌, ◌≤◌, length, suc};
ghost use Rattle.refusals.specs.Call.{refusal_of};
ghost use Rattle.zones.specs.Stretches.{stretch_start};
ghost use Rattle.zones.specs.Adding.{added_zone, added_from};
ghost use Rattle.zones.specs.Calls.{most_zones};
ghost use Rattle.zones.specs.InARow.{row_call, AddsNext};

use crate::judge::bytes;
use book::Book;

// Adds the counts to as many zones in a row. The first of them is zone `low`, and its stretch starts at `start`.
pub(crate) fn in_a_row(
    zones: &mut [Book],
    rings: &mut [u8],
    low: usize,
    start: usize,
    counts: &[u64],
)
    requires { (low + length counts.now ≤ length zones.old) × (length zones.old ≤ most_zones) × (start ≡ stretch_start zones.old low) × (refusal_of (row_call zones.old rings.old low counts.now) ≡ 0) }
    ensures { (zones.new ≡ (added_from low counts.now (record { zones = zones.old; rings = rings.old })).zones) × (rings.new ≡ (added_from low counts.now (record { zones = zones.old; rings = rings.old })).rings) }
{
    let mut at = start;
    // By the zone's number: behind `iter_mut().zip(..)` the proof would know nothing of the records.
    for (place, count) in counts.iter().enumerate() {
        at = one(zones, rings, low + place, at, *count);
    }
}

// Adds its count to one zone, whose stretch starts at `start`. It tells where that stretch ends.
fn one(zones: &mut [Book], rings: &mut [u8], zone: usize, start: usize, count: u64) -> usize
    requires { AddsNext zones.old rings.old zone start count }
    ensures { (result ≡ stretch_start zones.old (suc zone)) × (zones.new ≡ (added_zone (record { zones = zones.old; rings = rings.old }) zone count).zones) × (rings.new ≡ (added_zone (record { zones = zones.old; rings = rings.old }) zone count).rings) }
{
    let book = zones[zone];
    let end = start + bytes(book);
    // It is judged, so that the book cannot refuse it.
    zones[zone] = book::add(book, &mut rings[start..end], count).unwrap_or(book);
    end
}
