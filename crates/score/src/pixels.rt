// A pixel of one byte or of two, and what is asked of two of them: whether they are no more than a threshold apart.
ghost use Rattle.std.specs.Prelude.{◌≡◌, ℕ, ◌+◌, ◌*◌, ◌<◌, ◌≤◌, Bool, length};
ghost use Rattle.image.specs.Pixels.{pixel_at};
ghost use Rattle.score.specs.Changed.{one_if};
ghost use Rattle.score.specs.Near.{near_one};

// A pixel of one width: the bytes that it takes, its number, and the largest number of as many bits. A count of that type takes as many bits as a pixel,
// so that a vector register counts as many positions at once as it has pixels.
pub(crate) trait Pixel: Copy {
    ghost bytes: { ℕ };

    ghost number: { Self → ℕ };

    ghost most: { ℕ };

    fn at(raster: &[u8], position: usize) -> Self
        requires { (position + 1) * bytes ≤ length raster.now }
        ensures { number result ≡ pixel_at bytes raster.now position };

    // No more than a threshold apart. (Of bytes a processor compares "no more than" in one instruction, and "more than" in two.)
    fn near(self, other: Self, threshold: Self) -> bool
        ensures { one_if result ≡ near_one (number threshold) (number self) (number other) };

    fn none() -> Self
        ensures { number result ≡ 0 };

    // A count, and one more where something holds.
    fn one_more_if(self, holds: bool) -> Self
        requires { number self < most }
        ensures { number result ≡ number self + one_if holds };
}

impl Pixel for u8 {
    ghost bytes = { 1 };

    ghost number = { λ pixel. pixel };

    ghost most = { 255 };

    #[tactic(auto, using(image::proofs::Promises::pixel_one))]
    fn at(raster: &[u8], position: usize) -> u8 {
        raster[position]
    }

    fn near(self, other: u8, threshold: u8) -> bool {
        self.abs_diff(other) <= threshold
    }

    fn none() -> u8 {
        0
    }

    fn one_more_if(self, holds: bool) -> u8 {
        self + u8::from(holds)
    }
}

impl Pixel for u16 {
    ghost bytes = { 2 };

    ghost number = { λ pixel. pixel };

    ghost most = { 65535 };

    #[tactic(auto, using(image::proofs::Promises::pixel_part))]
    fn at(raster: &[u8], position: usize) -> u16 {
        let from = position * 2;
        image::pair_value(&raster[from..from + 2])
    }

    fn near(self, other: u16, threshold: u16) -> bool {
        self.abs_diff(other) <= threshold
    }

    fn none() -> u16 {
        0
    }

    fn one_more_if(self, holds: bool) -> u16 {
        self + u16::from(holds)
    }
}
