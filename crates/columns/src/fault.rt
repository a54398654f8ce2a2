ghost use Rattle.std.specs.Prelude.{◌≡◌, Some};
ghost use Rattle.columns.specs.Faults.{well_formed, fault_number, fault_line, cause_of};
ghost use Rattle.columns.specs.declared.fault.LineFault.TheVariants.{OutOfRange};

use std::error::Error;
use std::fmt;
use std::num::TryFromIntError;

// What is wrong with a line by itself.
#[derive(Clone, Copy, PartialEq, Eq, Debug, Drop)]
pub enum LineFault {
    Malformed, // its length, a letter, the mnemonic or a column
    OutOfRange, // a number that is well written
}

impl From<TryFromIntError> for LineFault {
    ghost from_gives = { λ _ y. y ≡ OutOfRange };

    fn from(_: TryFromIntError) -> LineFault {
        LineFault::OutOfRange
    }
}

// Whether a line is well formed, be its numbers in range or not.
pub(crate) fn is_well_formed<T: Drop>(line: Result<T, LineFault>) -> bool
    ensures { result ≡ well_formed line }
{
    !matches!(line, Err(LineFault::Malformed))
}

// Why a text is refused, with the number of the first such line, from 1.
#[derive(Clone, Copy, PartialEq, Eq, Debug, Drop)]
pub enum TextFault {
    Malformed(usize), // 11: a line of wrong length, letter, mnemonic or column
    Misplaced(usize), // 12: a number out of range, or a line out of order
    TooLong(usize), // 13: the list lent is too short for the text
}

impl TextFault {
    // A method, since `u8::from(fault)` would not say what the byte is.
    pub fn number(self) -> u8
        ensures { result ≡ fault_number self }
    {
        match self {
            TextFault::Malformed(_) => 11,
            TextFault::Misplaced(_) => 12,
            TextFault::TooLong(_) => 13,
        }
    }

    pub fn line(self) -> usize
        ensures { result ≡ fault_line self }
    {
        match self {
            TextFault::Malformed(n) | TextFault::Misplaced(n) | TextFault::TooLong(n) => n,
        }
    }
}

// The cause alone; number and line go before it.
impl fmt::Display for TextFault {
    ghost output = { λ fault. Some (cause_of fault) };

    fn fmt<W: fmt::Write>(&self, f: &mut fmt::Formatter<W>) -> fmt::Result {
        f.write_str(match self {
            TextFault::Malformed(_) => "a line of wrong length, letter, mnemonic or column",
            TextFault::Misplaced(_) => "a number out of range or a line out of order",
            TextFault::TooLong(_) => "the list for its record is too short",
        })
    }
}

impl Error for TextFault {}
