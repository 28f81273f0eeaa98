// The numbers of an image as C is told them.
ghost use Rattle.std.specs.Prelude.{◌≡◌};
ghost use Rattle.image.specs.Refused.{as_numbers};

use crate::Layout;
use refusals::Refusal;

// A refusal number, 0 for none, and the numbers of an image, which are 0 at a refusal: the raster lies in the bytes from `start` up to `used`.
#[repr(C)]
#[derive(Clone, Copy, Default)]
pub struct Numbers {
    pub refusal: u8,
    pub width: usize,
    pub height: usize,
    pub maxval: usize,
    pub start: usize,
    pub used: usize,
}

impl From<Result<Layout, Refusal>> for Numbers {
    ghost from_gives = { λ answer told. told ≡ as_numbers answer };

    fn from(answer: Result<Layout, Refusal>) -> Numbers {
        match answer {
            Ok(layout) => Numbers {
                refusal: 0,
                width: layout.width,
                height: layout.height,
                maxval: layout.maxval,
                start: layout.start,
                used: layout.used,
            },
            Err(refusal) => Numbers {
                refusal: refusal.number(),
                ..Numbers::default()
            },
        }
    }
}
