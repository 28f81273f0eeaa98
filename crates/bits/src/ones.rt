// Counting the ones of a row of bits: of eight bytes at a time while eight are there, of single bytes, and of a part of a byte at either end.
ghost use Rattle.std.specs.Prelude.{◌≡◌, ◌+◌, ◌-◌, ◌*◌, ◌/◌, ◌%◌, ◌≤◌, ◌<◌, ◌^◌, min, length};
ghost use Rattle.bits.specs.Row.{bits};
ghost use Rattle.bits.specs.Ones.{ones_of, ones_between};

// The ones of eight bytes: the compiler makes one load of them, and ones are counted alike in either order.
fn of_eight(bytes: &[u8]) -> usize
    requires { length bytes.now ≡ 8 }
    ensures { result ≡ ones_of (bits bytes.now) }
{
    let eight: [u8; 8] = bytes.try_into().unwrap();
    u64::from_le_bytes(eight).count_ones() as usize
}

// The ones of whole groups of eight bytes, as `of_bytes` counts them.
fn of_eights(bytes: &[u8]) -> usize
    requires { length bytes.now % 8 ≡ 0 }
    ensures { result ≡ ones_of (bits bytes.now) % 2 ^ 64 }
{
    let mut sum: usize = 0;
    for eight in bytes.chunks_exact(8) {
        sum = sum.wrapping_add(of_eight(eight));
    }
    sum
}

// The ones of bytes, one by one.
fn of_singles(bytes: &[u8]) -> usize
    requires { length bytes.now * 8 < 2 ^ 64 }
    ensures { result ≡ ones_of (bits bytes.now) }
{
    let mut sum = 0;
    for byte in bytes {
        sum += byte.count_ones() as usize;
    }
    sum
}

// How many bits of the bytes are 1, modulo 2^64: of fewer than 2^61 bytes that is their number.
pub fn of_bytes(bytes: &[u8]) -> usize
    ensures { result ≡ ones_of (bits bytes.now) % 2 ^ 64 }
{
    let (eights, rest) = bytes.split_at(bytes.len() / 8 * 8);
    of_eights(eights).wrapping_add(of_singles(rest))
}

// The ones of the bits from `from` up to `to`, which lie in one byte. Where there are none the byte need not be there.
fn of_part(row: &[u8], from: usize, to: usize) -> usize
    requires one { to - from ≤ 8 - from % 8 }
    requires there { to ≤ length row.now * 8 }
    ensures { result ≡ ones_between from to row.now }
{
    if to <= from {
        return 0;
    }
    // The bits before `from` are cut off, and then those behind `to`.
    let remaining = 8 - from % 8;
    let part = u32::from(row[from / 8]) % (1 << remaining) >> (remaining - (to - from));
    part.count_ones() as usize
}

// Where a run up to bit `to` ends: no further than the row.
fn end_within(row: &[u8], to: usize) -> usize
    ensures { result ≡ min to (length row.now * 8) }
{
    if to / 8 < row.len() {
        to
    } else {
        row.len() * 8
    }
}

// How many of the bits from `from` up to `to` are 1, the highest bit of a byte first; behind the row's end there are none. A run with no byte's border
// in it is one part of a byte. (Inlined: as a call of its own behind the ring's sum it made a salvage with a row of slots of one bit half as dear again.)
#[inline(always)]
pub fn between(row: &[u8], from: usize, to: usize) -> usize
    ensures { result ≡ ones_between from to row.now }
{
    if to <= from {
        return 0;
    }
    let to = end_within(row, to);
    let first = from.div_ceil(8);
    let last = to / 8;
    if last < first {
        return of_part(row, from, to);
    }
    of_part(row, from, first * 8) + of_bytes(&row[first..last]) + of_part(row, last * 8, to)
}
