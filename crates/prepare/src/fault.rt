ghost use Rattle.std.specs.Prelude.{◌≡◌, Some};
ghost use Rattle.prepare.specs.Faults.{number_of, place_of, cause_of};
ghost use Rattle.prepare.specs.declared.fault.PrepareFault.TheVariants.{Text, Table};

use columns::fault::TextFault;
use rules::fault::TableFault;
use std::error::Error;
use std::fmt;

// Why no table is ready: the fault of the part that refused, whole.
#[derive(Clone, Copy, PartialEq, Eq, Debug, Drop)]
pub enum PrepareFault {
    Text(TextFault),
    Table(TableFault),
}

impl PrepareFault {
    // A method, since `u8::from(fault)` would not say what the byte is.
    pub fn number(self) -> u8
        ensures { result ≡ number_of self }
    {
        match self {
            PrepareFault::Text(fault) => fault.number(),
            PrepareFault::Table(fault) => fault.number(),
        }
    }

    // The line, the procedure or the instruction that it names; 0 where it names none, since a refusal is written as two numbers.
    pub fn place(self) -> usize
        ensures { result ≡ place_of self }
    {
        match self {
            PrepareFault::Text(fault) => fault.line(),
            PrepareFault::Table(fault) => fault.place(),
        }
    }
}

// The cause alone, in the words of the fault that it wraps; number and place go before it.
impl fmt::Display for PrepareFault {
    ghost output = { λ fault. Some (cause_of fault) };

    fn fmt<W: fmt::Write>(&self, f: &mut fmt::Formatter<W>) -> fmt::Result {
        match self {
            PrepareFault::Text(fault) => fault.fmt(f),
            PrepareFault::Table(fault) => fault.fmt(f),
        }
    }
}

impl Error for PrepareFault {}

impl From<TextFault> for PrepareFault {
    ghost from_gives = { λ x y. y ≡ Text x };

    fn from(value: TextFault) -> PrepareFault {
        PrepareFault::Text(value)
    }
}

impl From<TableFault> for PrepareFault {
    ghost from_gives = { λ x y. y ≡ Table x };

    fn from(value: TableFault) -> PrepareFault {
        PrepareFault::Table(value)
    }
}
