// A book for each zone: the records are changed in place.
ghost use Rattle.std.specs.Prelude.{◌≡◌};
ghost use Rattle.refusals.specs.Call.{result_of, left_of};
ghost use Rattle.zones.specs.Calls.{add_all_call, add_one_call};

use book::Book;
use zones::told::Zoned;

// Adds to every zone the count that stands in its place, to all of them or to none.
#[unsafe(no_mangle)]
pub extern "C" fn uprzezar_zones_add(zones: &mut [Book], rings: &mut [u8], counts: &[u64]) -> Zoned
    ensures { (result ≡ result_of (add_all_call zones.old rings.old counts.now)) × (zones.new ≡ (left_of (add_all_call zones.old rings.old counts.now)).zones) × (rings.new ≡ (left_of (add_all_call zones.old rings.old counts.now)).rings) }
{
    Zoned::from(zones::add_all(zones, rings, counts))
}

// Adds one item to one zone.
#[unsafe(no_mangle)]
pub extern "C" fn uprzezar_zone_add(
    zones: &mut [Book],
    rings: &mut [u8],
    zone: u64,
    item: u64,
) -> Zoned
    ensures { (result ≡ result_of (add_one_call zones.old rings.old zone item)) × (zones.new ≡ (left_of (add_one_call zones.old rings.old zone item)).zones) × (rings.new ≡ (left_of (add_one_call zones.old rings.old zone item)).rings) }
{
    Zoned::from(zones::add_one(zones, rings, zone, item))
}
