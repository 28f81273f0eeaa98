// Words of one to four bytes, the highest byte first. A slot of at most 16 bits lies within three bytes.
ghost use Rattle.std.specs.Prelude.{◌≡◌, ◌++◌, ◌+◌, ◌≤◌, ◌<◌, ◌*◌, ◌/◌, ◌%◌, ◌^◌, length, take, drop};
ghost use Rattle.bits.specs.Bytes.{Bytes};
ghost use Rattle.bits.specs.Row.{digits, number, bits, packed};

// 2 to the power n.
pub(crate) fn power(n: usize) -> u64
    requires { n ≤ 63 }
    ensures { result ≡ 2 ^ n }
{
    1u64 << n
}

// The number that the four bytes from `first` on write. (The compiler makes one load of the four.)
pub(crate) fn load_four(ring: &[u8], first: usize) -> u64
    requires { first + 4 ≤ length ring.now }
    ensures { result ≡ number (bits (take 4 (drop first ring.now))) }
{
    let four: [u8; 4] = ring[first..first + 4].try_into().unwrap();
    u64::from(u32::from_be_bytes(four))
}

// Where a slot lies: in the word of `count` bytes from `first` on, with `after` bits behind it. It is read and written through this word.
#[derive(Clone, Copy)]
pub(crate) struct Place {
    pub(crate) first: usize,
    pub(crate) count: usize,
    pub(crate) after: usize,
    ghost short: { (1 ≤ count) × (count ≤ 3) × (after < 8) },
}

impl Place {
    // The word. By cases: with a loop over the bytes a write took 78 instructions and not 44.
    pub(crate) fn load(self, ring: &[u8]) -> u64
        requires { self.first + self.count ≤ length ring.now }
        ensures word { result ≡ number (bits (take self.count (drop self.first ring.now))) }
        ensures bytes { Bytes ring.now }
    {
        let one = u64::from(ring[self.first]);
        if self.count == 1 {
            return one;
        }
        let two = one * 256 + u64::from(ring[self.first + 1]);
        if self.count == 2 {
            return two;
        }
        two * 256 + u64::from(ring[self.first + 2])
    }

    // Puts the lowest `count` bytes of a word in the place of these bytes, by cases as they are loaded.
    pub(crate) fn store(self, ring: &mut [u8], word: u64)
        requires { self.first + self.count ≤ length ring.old }
        ensures { ring.new ≡ take self.first ring.old ++ (packed self.count (digits (self.count * 8) word) ++ drop self.count (drop self.first ring.old)) }
    {
        let first = self.first;
        if self.count == 1 {
            ring[first] = (word % 256) as u8;
            return;
        }
        if self.count == 2 {
            ring[first] = (word / 256 % 256) as u8;
            ring[first + 1] = (word % 256) as u8;
            return;
        }
        ring[first] = (word / 65536 % 256) as u8;
        ring[first + 1] = (word / 256 % 256) as u8;
        ring[first + 2] = (word % 256) as u8;
    }
}

// The word with `value` in the place of the `width` bits that have `after` bits behind them.
pub(crate) fn patch(word: u64, width: usize, after: usize, value: u64) -> u64
    requires { (word < 2 ^ 24) × (width + after ≤ 24) × (value < 2 ^ width) }
    ensures { result ≡ (word / 2 ^ (width + after) * 2 ^ width + value) * 2 ^ after + word % 2 ^ after }
{
    let high = word >> (width + after);
    let low = word % power(after);
    (high * power(width) + value) * power(after) + low
}
