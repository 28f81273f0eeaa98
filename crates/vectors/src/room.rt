// Room for what a call reads and for its answer. main owns it and lends it for each line: no call takes memory of its own, and none can lack it.
use arrayvec::{ArrayString, ArrayVec};
use book::Book;

// Bytes of a field: a ring, an image, a mask or a row of lit frames.
pub(crate) type Bytes = ArrayVec<u8, 32_768>;

// A row of numbers: counts, sums or numbers of slots.
pub(crate) type Row<N> = ArrayVec<N, 16_384>;

// The most records of zones.
pub(crate) const MOST_ZONES: usize = 97;

pub(crate) type Zones = ArrayVec<Book, MOST_ZONES>;

// An answer. The longest one is a refusal, a count, a record of eight numbers, 32,768 bytes as hex, two rows of 16,384 numbers of 10 digits, and the
// line's end, less than 427,000 characters.
pub(crate) type Text = ArrayString<524_288>;

// A call takes the fields that it needs, whatever stands in them, and each reader clears what it fills.
#[derive(Default, Drop)]
pub(crate) struct Room {
    pub first: Bytes,
    pub second: Bytes,
    pub third: Bytes,
    pub counts: Row<u64>,
    pub sums: Row<u32>,
    pub slots: Row<u32>,
    pub zones: Zones,
    pub out: Text,
}
