// What all calls share: the refusals with their numbers (SCOPE, Refusals). How the first one that applies is found, and what a refusal leaves as
// it was, stands in specs/. No call is made here.

#![tactic(auto)]

ghost use Rattle.std.specs.Prelude.{◌≡◌};
ghost use Rattle.refusals.specs.Refused.{number_of};

// Why a call is refused. The first one's number is 1, and each later one's is 1 more.
#[derive(Clone, Copy, Debug, PartialEq, Eq)]
pub enum Refusal {
    BadBound = 1,
    BadLength,
    BadTolerance,
    RingTooShort,
    WindowTooLong,
    ZeroAsked,
    ItemTooLarge,
    NoBook,
    NotReached,
    BadRingCall,
    WrongByte,
    NumberOutOfRange,
    ImageTooLarge,
    EndsTooEarly,
    PixelTooLarge,
    ImagesDiffer,
    BookRests,
    RowTooShort,
    CannotCoarsen,
    BadZones,
    NumbersTooShort,
    BadLitCall,
    BufferTooShort,
}

impl Refusal {
    // The number by which C and the rows of the program tell it. No `From`, which is no plainer: its callers would need a type beside it.
    pub fn number(self) -> u8
        ensures { result ≡ number_of self }
    {
        self as u8
    }
}
