// The raster of a mask: whether it fits, and whether it is there. No bit of it is bad.
ghost use Rattle.std.specs.Prelude.{[], ◌∷◌, ◌≡◌, ◌≤◌};
ghost use Rattle.image.specs.Kinds.{row_bytes, pbm, largest_side};
ghost use Rattle.image.specs.Reading.{named, with_raster};
ghost use Rattle.image.specs.Refused.{as_numbers};

use crate::took::{Sides, Took};
use crate::{Layout, pixels};
use refusals::Refusal;

// The bytes of a row: eight positions to a byte, the last byte padded.
fn row_bytes(width: usize) -> usize
    requires { width ≤ largest_side }
    ensures { result ≡ row_bytes width }
{
    (width + 7) / 8
}

// The answer for a header that has these numbers. (Beside `pixels::judge`: a function over both kinds would take more lines than the three
// that are alike.)
pub(crate) fn judge(s: &[u8], head: Took<Sides>) -> Result<Layout, Refusal>
    ensures { as_numbers result ≡ named (with_raster pbm s.now (head.value.width ∷ head.value.height ∷ []) head.used) }
{
    let Sides { width, height } = head.value;
    let used = head.used + row_bytes(width) * height;
    pixels::missing(s, used)?;
    Ok(Layout {
        width,
        height,
        maxval: 0,
        start: head.used,
        used,
    })
}
