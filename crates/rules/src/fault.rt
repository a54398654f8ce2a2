ghost use Rattle.std.specs.Prelude.{◌≡◌, Some};
ghost use Rattle.rules.specs.Faults.{fault_number, fault_place, cause_of};

use std::error::Error;
use std::fmt;

// Why a table is refused.
#[derive(Clone, Copy, PartialEq, Eq, Debug, Drop)]
pub enum TableFault {
    IllFormed(usize), // 20: the lowest procedure that breaks a rule of tables; 0 where a count does
    NotAllowed(usize), // 21: the lowest instruction with a letter, an operand or an ent that is not allowed
    WrongStack(usize), // 22: the stack does not end in what the instruction takes
    StackTooHigh(usize), // 23: the stack given exceeds the cells that ent allows
    StacksDiffer(usize), // 24: two stacks that meet at the instruction differ
    PastTheEnd(usize), // 25: the next instruction lies past the procedure
    TooFewPlaces, // 26: fewer rows or places of the pile than instructions
    RowTooHigh(usize), // 27: the row exceeds the cells that ent allows
}

impl TableFault {
    // A method, since `u8::from` would not say that it is the number of a refusal.
    pub fn number(self) -> u8
        ensures { result ≡ fault_number self }
    {
        match self {
            TableFault::IllFormed(_) => 20,
            TableFault::NotAllowed(_) => 21,
            TableFault::WrongStack(_) => 22,
            TableFault::StackTooHigh(_) => 23,
            TableFault::StacksDiffer(_) => 24,
            TableFault::PastTheEnd(_) => 25,
            TableFault::TooFewPlaces => 26,
            TableFault::RowTooHigh(_) => 27,
        }
    }

    // The procedure or the instruction that it names; 0 where it names none, since a refusal is written as two numbers.
    pub fn place(self) -> usize
        ensures { result ≡ fault_place self }
    {
        match self {
            TableFault::IllFormed(n)
            | TableFault::NotAllowed(n)
            | TableFault::WrongStack(n)
            | TableFault::StackTooHigh(n)
            | TableFault::StacksDiffer(n)
            | TableFault::PastTheEnd(n)
            | TableFault::RowTooHigh(n) => n,
            TableFault::TooFewPlaces => 0,
        }
    }
}

// The cause alone; number and place go before it.
impl fmt::Display for TableFault {
    ghost output = { λ fault. Some (cause_of fault) };

    fn fmt<W: fmt::Write>(&self, f: &mut fmt::Formatter<W>) -> fmt::Result {
        f.write_str(match self {
            TableFault::IllFormed(_) => "a rule of tables is broken",
            TableFault::NotAllowed(_) =>
                "a letter or operand that is not allowed, or an ent, retf or retp out of place",
            TableFault::WrongStack(_) => "the stack does not end in what the instruction takes",
            TableFault::StackTooHigh(_) =>
                "the stack given exceeds the cells that the procedure's ent allows",
            TableFault::StacksDiffer(_) => "two stacks that meet differ",
            TableFault::PastTheEnd(_) => "the next instruction lies past the procedure",
            TableFault::TooFewPlaces => "fewer rows or places are lent than there are instructions",
            TableFault::RowTooHigh(_) =>
                "the row exceeds the cells that the procedure's ent allows",
        })
    }
}

impl Error for TableFault {}
