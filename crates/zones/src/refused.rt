// The refusal of a call with zones.
ghost use Rattle.std.specs.Prelude.{◌≡◌, is_some};
ghost use Rattle.refusals.specs.Refused.{number_of};
ghost use Rattle.zones.specs.Named.{names_zone};

use refusals::Refusal;

// Why a call is refused; and where a zone is to blame, for its record, its rest or its count, the number of that zone, from 0.
#[derive(Clone, Copy, Debug, PartialEq, Eq)]
pub struct ZoneRefusal {
    pub refusal: Refusal,
    pub zone: Option<u64>,
    pub ghost named: { is_some zone ≡ names_zone (number_of refusal) },
}
