// A run of counts with a row: in parts that each reach at most to the end of the group of slots in which head lies. specs/Row.antt.
ghost use Rattle.std.specs.Prelude.{◌≡◌, ◌≤◌, length};
ghost use Rattle.book.specs.RunOfCounts.{added_all, added_all_ring};
ghost use Rattle.sums.specs.Row.{added_all_row};
ghost use Rattle.sums.specs.RunParts.{Taking, items_left, Stands};

use crate::row;
use book::Book;
use book::known::Known;

// How many items come until the last slot of head's group is written: those of its slots from head on, less those of the open block.
fn items_left(known: Known) -> u64
    ensures { result ≡ items_left known.book }
{
    let head = known.book.head;
    (row::group_end(known.shape.slots, head) - head) * known.shape.block - known.book.phase
}

// Adds counts that are not more than that, and stores the group's sum where they are as many. None of them writes a slot in front of head: the sum
// that the row has up to `from` is still the one of the fields.
fn add_part(known: Known, ring: &mut [u8], row: &mut [u32], counts: &[u64], from: u64) -> Book
    requires { Taking known (length ring.old) (length row.old) counts.now × (length counts.now ≤ items_left known.book) × (from ≤ known.book.head) × Stands known.shape ring.old row.old from }
    ensures { (result ≡ added_all known.book counts.now) × (ring.new ≡ added_all_ring known.book ring.old counts.now) × (row.new ≡ added_all_row known.book ring.old row.old counts.now) }
{
    let added = book::run(known.book, ring, counts).unwrap();
    if counts.len() as u64 == items_left(known) {
        let end = row::group_end(known.shape.slots, known.book.head);
        row::put(known, ring, row, from, end);
    }
    added
}

// Adds all counts, part by part. The first part that ends a group reads the fields from slot 0 on; behind it stands head, and the row has the sum up
// to there, so that each later part reads the fields of its own group only. No `chunks`: how long a part is hangs on where head and phase stand.
// Each part is of another record, which is a book still, with the same numbers.
pub(crate) fn add_all(known: Known, ring: &mut [u8], row: &mut [u32], counts: &[u64]) -> Book
    requires { Taking known (length ring.old) (length row.old) counts.now }
    ensures { (result ≡ added_all known.book counts.now) × (ring.new ≡ added_all_ring known.book ring.old counts.now) × (row.new ≡ added_all_row known.book ring.old row.old counts.now) }
{
    let shape = known.shape;
    let mut after = known.book;
    let mut left = counts;
    let mut from = 0;
    while !left.is_empty() {
        let now = Known { book: after, shape };
        let most = items_left(now) as usize;
        let (part, later) = left.split_at(most.min(left.len()));
        after = add_part(now, ring, row, part, from);
        from = after.head;
        left = later;
    }
    after
}
