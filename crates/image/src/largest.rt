// The largest pixel of a raster, whose pixels take one byte each, or two with the higher first.
ghost use Rattle.std.specs.Prelude.{◌≡◌, ℕ, ◌+◌, ◌*◌, ◌^◌, ◌<◌, ◌≤◌, max, length};
ghost use Rattle.image.specs.Pixels.{pixel_at};
ghost use Rattle.image.specs.Told.{largest};

use crate::pair_value;

// A pixel of one width: the bytes that it takes, and its number.
pub(crate) trait Pixel: Copy {
    ghost bytes: { ℕ };

    ghost number: { Self → ℕ };

    fn black() -> Self
        ensures { number result ≡ 0 };

    fn at(raster: &[u8], position: usize) -> Self
        requires { (position + 1) * bytes ≤ length raster.now }
        ensures { number result ≡ pixel_at bytes raster.now position };

    fn larger(self, other: Self) -> Self
        ensures { number result ≡ max (number self) (number other) };
}

impl Pixel for u8 {
    ghost bytes = { 1 };

    ghost number = { λ pixel. pixel };

    fn black() -> u8 {
        0
    }

    #[tactic(auto, using(crate::proofs::PixelValues::pixel_one))]
    fn at(raster: &[u8], position: usize) -> u8 {
        raster[position]
    }

    fn larger(self, other: u8) -> u8 {
        self.max(other)
    }
}

impl Pixel for u16 {
    ghost bytes = { 2 };

    ghost number = { λ pixel. pixel };

    fn black() -> u16 {
        0
    }

    #[tactic(auto, using(crate::proofs::PixelValues::pixel_part))]
    fn at(raster: &[u8], position: usize) -> u16 {
        let from = position * 2;
        pair_value(&raster[from..from + 2])
    }

    fn larger(self, other: u16) -> u16 {
        self.max(other)
    }
}

// The largest of four times `quarter` pixels. One pass that LLVM turns into vector instructions: nothing in the loop but the pixel and the
// larger of two; with four quarters side by side each turn takes four times as many. (As one chain of an iterator's methods over all of them it
// took 43% more instructions for bytes.)
#[tactic(auto, unfolding(crate::specs::Told::largest))]
fn largest_of_quarters<P: Pixel>(raster: &[u8], quarter: usize) -> P
    requires there { 4 * quarter * P.bytes ≤ length raster.now }
    requires fits { 4 * quarter < 2 ^ 64 }
    ensures { P.number result ≡ largest (pixel_at P.bytes raster.now) (4 * quarter) }
{
    let mut first = P::black();
    let mut second = P::black();
    let mut third = P::black();
    let mut fourth = P::black();
    for i in 0..quarter {
        first = first.larger(P::at(raster, i));
        second = second.larger(P::at(raster, quarter + i));
        third = third.larger(P::at(raster, 2 * quarter + i));
        fourth = fourth.larger(P::at(raster, 3 * quarter + i));
    }
    first.larger(second).larger(third.larger(fourth))
}

// The largest of the first `count` pixels: up to three of them are left behind the quarters.
#[tactic(auto, unfolding(crate::specs::Told::largest))]
pub(crate) fn largest_of<P: Pixel>(raster: &[u8], count: usize) -> P
    requires { count * P.bytes ≤ length raster.now }
    ensures { P.number result ≡ largest (pixel_at P.bytes raster.now) count }
{
    let quarter = count / 4;
    let mut most: P = largest_of_quarters(raster, quarter);
    for i in 4 * quarter..count {
        most = most.larger(P::at(raster, i));
    }
    most
}
