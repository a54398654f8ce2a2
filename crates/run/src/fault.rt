// Why a list of calls is refused whole.
ghost use Rattle.std.specs.Prelude.{◌≡◌};
ghost use Rattle.run.specs.Faults.{undergo_number, undergo_place};
ghost use Rattle.run.specs.declared.fault.UndergoFault.TheVariants.{Table, StoreLength};

use crate::run::Refused;
use rules::fault::TableFault;

#[derive(Clone, Copy, Drop)]
pub enum UndergoFault {
    Table(TableFault), // by the number of the table's own fault
    TooFewAnswers, // 13: fewer answers are lent than calls
    StoreLength, // 34: a run begins over 5 to 65,536 cells
}

impl UndergoFault {
    // A method, since `u8::from` would not say that it is the number of a refusal.
    pub fn number(self) -> u8
        ensures { result ≡ undergo_number self }
    {
        match self {
            UndergoFault::Table(fault) => fault.number(),
            UndergoFault::TooFewAnswers => 13,
            UndergoFault::StoreLength => 34,
        }
    }

    // The procedure or the instruction that it names; 0 where it names none, since a refusal is written as two numbers.
    pub fn place(self) -> usize
        ensures { result ≡ undergo_place self }
    {
        match self {
            UndergoFault::Table(fault) => fault.place(),
            UndergoFault::TooFewAnswers | UndergoFault::StoreLength => 0,
        }
    }
}

impl From<TableFault> for UndergoFault {
    ghost from_gives = { λ x y. y ≡ Table x };

    fn from(value: TableFault) -> UndergoFault {
        UndergoFault::Table(value)
    }
}

impl From<Refused<'_>> for UndergoFault {
    ghost from_gives = { λ _ y. y ≡ StoreLength };

    fn from(_refused: Refused<'_>) -> UndergoFault {
        UndergoFault::StoreLength
    }
}
