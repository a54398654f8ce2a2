ghost use Rattle.std.specs.Prelude.{◌≡◌};
ghost use Rattle.pegs.specs.Refusals.{refusal_number, refusal_place, Countable};
ghost use Rattle.pegs.specs.declared.fault.Refusal.TheVariants as r;
ghost use Rattle.pegs.specs.declared.fault.Failure.TheVariants.{NoMemory, Refused as Because};

use columns::fault::TextFault;
use rules::fault::TableFault;
use run::run::Refused;
use std::alloc::AllocError;

// Why nothing is set out: the fault of the part that refused, whole.
#[derive(Clone, Copy, Drop)]
pub(crate) enum Refusal {
    TooLong(usize), // 13: more bytes than are read; the line in which the first of these stands
    Text(TextFault),
    Values { before: usize, fault: TextFault }, // so many lines of the input come before the values
    Table(TableFault),
    StoreLength, // 34: cannot come, since the store is long enough
}

impl Refusal {
    // A method, since `u8::from` would not say that it is the number of a refusal.
    pub(crate) fn number(self) -> u8
        ensures { result ≡ refusal_number self }
    {
        match self {
            Refusal::TooLong(_) => 13,
            Refusal::Text(fault) | Refusal::Values { fault, .. } => fault.number(),
            Refusal::Table(fault) => fault.number(),
            Refusal::StoreLength => 34,
        }
    }

    // The line of the whole input, the procedure or the instruction; 0 where none is named.
    pub(crate) fn place(self) -> usize
        requires { Countable self }
        ensures { result ≡ refusal_place self }
    {
        match self {
            Refusal::TooLong(line) => line,
            Refusal::Text(fault) => fault.line(),
            Refusal::Values { before, fault } => before + fault.line(),
            Refusal::Table(fault) => fault.place(),
            Refusal::StoreLength => 0,
        }
    }
}

// Why an attempt gives no text.
#[derive(Clone, Copy, Drop)]
pub(crate) enum Failure {
    NoMemory(AllocError),
    Refused(Refusal),
}

impl From<AllocError> for Failure {
    ghost from_gives = { λ x y. y ≡ NoMemory x };

    fn from(error: AllocError) -> Failure {
        Failure::NoMemory(error)
    }
}

impl From<Refusal> for Failure {
    ghost from_gives = { λ x y. y ≡ Because x };

    fn from(refusal: Refusal) -> Failure {
        Failure::Refused(refusal)
    }
}

impl From<TextFault> for Failure {
    ghost from_gives = { λ x y. y ≡ Because (r.Text x) };

    fn from(fault: TextFault) -> Failure {
        Failure::Refused(Refusal::Text(fault))
    }
}

impl From<TableFault> for Failure {
    ghost from_gives = { λ x y. y ≡ Because (r.Table x) };

    fn from(fault: TableFault) -> Failure {
        Failure::Refused(Refusal::Table(fault))
    }
}

impl From<Refused<'_>> for Failure {
    ghost from_gives = { λ _ y. y ≡ Because r.StoreLength };

    fn from(_refused: Refused<'_>) -> Failure {
        Failure::Refused(Refusal::StoreLength)
    }
}
