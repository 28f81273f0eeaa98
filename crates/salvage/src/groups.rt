// The row of running sums, rebuilt from the fields that the ring has: specs/Rebuilt.antt.
ghost use Rattle.std.specs.Prelude.{◌≡◌, ◌≤◌, length};
ghost use Rattle.book.specs.Record.{slots_of, held_in};
ghost use Rattle.sums.specs.Row.{entries_for};
ghost use Rattle.salvage.specs.Rebuilt.{rebuilt_row};

use book::known::Known;

// Each entry is the one before it and the sum of its own group, so that each field is read once.
pub(crate) fn rebuild(known: Known, ring: &[u8], row: &mut [u32])
    requires { (known.shape.bytes ≤ length ring.now) × (entries_for known.shape.slots ≤ length row.old) }
    ensures { row.new ≡ rebuilt_row (slots_of known.book) (held_in known.book ring.now) row.old }
{
    let slots = known.shape.slots;
    let mut sum = 0;
    let mut from = 0;
    for entry in row[..sums::row::entries(slots)].iter_mut() {
        let end = sums::row::group_end(slots, from);
        sum += sums::row::fields(known, ring, from, end);
        *entry = sum as u32;
        from = end;
    }
}
