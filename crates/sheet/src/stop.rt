ghost use Rattle.std.specs.Prelude.{◌≡◌};
ghost use Rattle.sheet.specs.Stops.{stop_number};

// What stops a step, each with its number.
#[derive(Clone, Copy, PartialEq, Eq, Debug, Drop)]
pub enum Stop {
    NothingWaits, // 31: no value waits
    WrongInput, // 32: the first value waiting has another kind, or is no value
    NoRoom, // 33: the host has no room for a value
    OutsideKind, // 41: the result lies outside its kind
    OutsideBounds, // 42: chk fails
    ZeroDivisor, // 43
    StoreFull, // 44: EP would reach NP
    NoDataCell, // 45: the place is not reached, or is no data cell
    OtherKindOfCell, // 46: the data cell has another kind
    NoValueYet, // 47: the data cell has no value yet
    WrongCell, // 60: a cell is missing, or of another kind
    WrongMark, // 61: a mark is missing, or its number is out of range
    StackFull, // 62: SP would pass EP
    OutsideCode, // 63: PC is outside the table
}

impl Stop {
    // A method: `u8::from(stop)` would not say what the byte is.
    pub fn number(self) -> u8
        ensures { result ≡ stop_number self }
    {
        // By a match: with the numbers as discriminants the check of the derives takes four times as long.
        match self {
            Stop::NothingWaits => 31,
            Stop::WrongInput => 32,
            Stop::NoRoom => 33,
            Stop::OutsideKind => 41,
            Stop::OutsideBounds => 42,
            Stop::ZeroDivisor => 43,
            Stop::StoreFull => 44,
            Stop::NoDataCell => 45,
            Stop::OtherKindOfCell => 46,
            Stop::NoValueYet => 47,
            Stop::WrongCell => 60,
            Stop::WrongMark => 61,
            Stop::StackFull => 62,
            Stop::OutsideCode => 63,
        }
    }
}
