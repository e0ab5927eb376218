// The table of refusals.

// Why a call gives no answer, and the number that C is given for it. If several apply, the order is 7, 1, 12, 8, 14, 15, 10, 2, 11, 3, 16, 4, 13, 5, 9, 6.
#[derive(Clone, Copy, PartialEq, Eq)]
pub enum Refusal {
    NoSuchStrip = 1,
    WrongWindow = 2,
    BadMark = 3,
    OffTheStrip = 4,
    NoSuchWord = 5,
    TrayTooSmall = 6,
    TornPlan = 7,
    CrookedPlan = 8,
    NotLaid = 9,
    LostCursor = 10,
    TooSmudged = 11,
    TwoShadesOnly = 12,
    BadPicture = 13,
    RollTooLong = 14,
    NoSuchPrice = 15,
    RepeatingWindow = 16,
}

impl From<Refusal> for u8 {
    ghost use Rattle.std.specs.Prelude.{◌≡◌};
    ghost use Rattle.calls.specs.Codes.{code};

    ghost from_gives = { λ r n. n ≡ code r };

    fn from(r: Refusal) -> u8 {
        r as u8
    }
}
