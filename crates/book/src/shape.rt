// The numbers c, s, z, b and B of a book, derived once a call and handed on: specs/Derived.antt, specs/Shape.antt.
ghost use Rattle.std.specs.Prelude.{◌≡◌, ◌/◌, ◌<◌, ◌≤◌};
ghost use Rattle.refusals.specs.First.{first_of};
ghost use Rattle.refusals.specs.Call.{result_of};
ghost use Rattle.refusals.specs.Refused.{number_in};
ghost use Rattle.ring.specs.Slot.{ring_bytes};
ghost use Rattle.book.specs.Limits.{largest_bound, largest_length};
ghost use Rattle.book.specs.Derived.{ceil_div, binary_digits};
ghost use Rattle.book.specs.Shape.{shape_of, number_faults, shape_call};
ghost use Rattle.book.specs.Sound.{Ranges};
ghost use Rattle.book.specs.Told.{as_shaped};

use refusals::Refusal;

const LARGEST_BOUND: u64 = 65535;

const LARGEST_LENGTH: u64 = 4096;

// c, the items of a block; s, the slots; z, the largest quotient; b, the bits of a slot; B, the bytes of the ring.
#[repr(C)]
#[derive(Clone, Copy, Default)]
pub struct Shape {
    pub block: u64,
    pub slots: u64,
    pub largest: u64,
    pub width: u64,
    pub bytes: u64,
}

// A refusal number, 0 for none, and the numbers, which are 0 at a refusal.
#[repr(C)]
#[derive(Clone, Copy)]
pub struct Shaped {
    pub refusal: u8,
    pub shape: Shape,
}

impl From<Result<Shape, Refusal>> for Shaped {
    ghost from_gives = { λ answer told. told ≡ as_shaped answer };

    fn from(answer: Result<Shape, Refusal>) -> Shaped {
        match answer {
            Ok(shape) => Shaped { refusal: 0, shape },
            Err(refusal) => Shaped {
                refusal: refusal.number(),
                shape: Shape::default(),
            },
        }
    }
}

// The numbers of a book with a bound, a length and a tolerance: how many bytes to lend is one of them.
pub fn derive(bound: u64, length: u64, tolerance: u64) -> Result<Shape, Refusal>
    ensures { as_shaped result ≡ result_of (shape_call bound length tolerance) }
{
    numbers_in_range(bound, length, tolerance)?;
    Ok(in_two_cases(bound, length, tolerance))
}

// 1, 2, 3: L, n and D in their ranges.
fn numbers_in_range(bound: u64, length: u64, tolerance: u64) -> Result<(), Refusal>
    ensures { number_in result ≡ first_of (number_faults bound length tolerance) }
{
    if !(1..=LARGEST_BOUND).contains(&bound) {
        return Err(Refusal::BadBound);
    }
    if !(1..=LARGEST_LENGTH).contains(&length) {
        return Err(Refusal::BadLength);
    }
    if !(1..=length * bound).contains(&tolerance) {
        return Err(Refusal::BadTolerance);
    }
    Ok(())
}

// Two divisions at the most: where D is below L a block is one item, and there are n slots; elsewhere a block holds no more than D, and z is 1.
fn in_two_cases(bound: u64, length: u64, tolerance: u64) -> Shape
    requires { Ranges bound length tolerance }
    ensures { result ≡ shape_of bound length tolerance }
{
    if tolerance < bound {
        return packed(1, length, ceil_div(bound, tolerance));
    }
    let block = div(tolerance, bound);
    packed(block, ceil_div(length, block), 1)
}

// With c, s and z known: b, how many binary digits z has, and B.
fn packed(block: u64, slots: u64, largest: u64) -> Shape
    requires { (slots ≤ largest_length) × (largest ≤ largest_bound) }
    ensures { result ≡ record { block = block; slots = slots; largest = largest; width = binary_digits largest; bytes = ring_bytes (binary_digits largest) slots } }
{
    let width = binary_digits(largest);
    Shape {
        block,
        slots,
        largest,
        width,
        bytes: (slots * width).div_ceil(8),
    }
}

// How many binary digits a number has: what its leading zeros leave of 64.
fn binary_digits(v: u64) -> u64
    ensures { result ≡ binary_digits v }
{
    64 - v.leading_zeros() as u64
}

// a/b, where both have at most 32 bits: the shorter division is the quicker one.
fn div(a: u64, b: u64) -> u64
    requires { (0 < b) × (a ≤ 4294967295) × (b ≤ 4294967295) }
    ensures { result ≡ a / b }
{
    (a as u32 / b as u32) as u64
}

// The same, rounded up.
pub(crate) fn ceil_div(a: u64, b: u64) -> u64
    requires { (0 < b) × (a ≤ 1073741824) × (b ≤ 1073741824) }
    ensures { result ≡ ceil_div a b }
{
    (a as u32).div_ceil(b as u32) as u64
}
