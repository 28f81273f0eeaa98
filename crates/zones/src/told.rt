// The answers of the calls with zones in numbers, as C is told them.
ghost use Rattle.std.specs.Prelude.{◌≡◌};
ghost use Rattle.zones.specs.Told.{as_zoned};

use crate::ZoneRefusal;

// A refusal number, 0 for none; with 8, 17 and 7 the number of the zone that it is for, from 0, else 0.
#[repr(C)]
#[derive(Clone, Copy)]
pub struct Zoned {
    pub refusal: u8,
    pub zone: u64,
}

impl From<Result<(), ZoneRefusal>> for Zoned {
    ghost from_gives = { λ answer told. told ≡ as_zoned answer };

    fn from(answer: Result<(), ZoneRefusal>) -> Zoned {
        match answer {
            Ok(()) => Zoned {
                refusal: 0,
                zone: 0,
            },
            Err(refused) => Zoned {
                refusal: refused.refusal.number(),
                zone: refused.zone.unwrap_or(0),
            },
        }
    }
}
