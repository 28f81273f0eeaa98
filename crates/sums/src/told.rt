// The answer of a total by the row in numbers, as C is told it.
ghost use Rattle.std.specs.Prelude.{◌≡◌};
ghost use Rattle.sums.specs.Told.{as_summed};

use crate::RowTotal;
use refusals::Refusal;

// A refusal number, 0 for none; a figure; and how many fields of the ring and stored sums of the row its rule reads. All but the refusal are 0 at a
// refusal.
#[repr(C)]
#[derive(Clone, Copy)]
pub struct Summed {
    pub refusal: u8,
    pub figure: u64,
    pub fields: u64,
    pub sums: u64,
}

impl From<Result<RowTotal, Refusal>> for Summed {
    ghost from_gives = { λ answer told. told ≡ as_summed answer };

    fn from(answer: Result<RowTotal, Refusal>) -> Summed {
        match answer {
            Ok(total) => Summed {
                refusal: 0,
                figure: total.figure,
                fields: total.fields,
                sums: total.sums,
            },
            Err(refusal) => Summed {
                refusal: refusal.number(),
                figure: 0,
                fields: 0,
                sums: 0,
            },
        }
    }
}
