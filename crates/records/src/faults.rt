// Why a sheet is refused, and where.
ghost use Rattle.records.specs.Numbers.{number_of};
ghost use Rattle.std.specs.Prelude.{◌≡◌};

// The numbers are those of the table of docs/ENGINE.md.
#[derive(Clone, Copy, Debug, PartialEq, Eq)]
pub enum Cause {
    TooLong = 10,
    UnknownKind = 11,
    CutShort = 12,
    OutOfOrder = 20,
    NoFunction = 21,
    TooMany = 22,
    ElementNotLower = 23,
    BadSignature = 24,
    BadResult = 25,
    BodyEnd = 30,
    WrongSecond = 31,
    TooManyWaiting = 32,
    BadField = 33,
    EmptySlot = 34,
    WrongType = 35,
    BadBinding = 36,
    ListLeft = 37,
    BalanceTooSmall = 40,
}

// The place is an offset in the sheet.
#[derive(Clone, Copy, Debug, PartialEq, Eq)]
pub struct Fault {
    pub cause: Cause,
    pub place: usize,
}

impl Cause {
    // The number under which the refusal is reported.
    pub fn number(&self) -> u8
        ensures { result ≡ number_of self.now }
    {
        *self as u8
    }
}
