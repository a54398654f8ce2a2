ghost use Rattle.std.specs.Prelude.{◌≡◌};
ghost use Rattle.judge.specs.Flaws.{flaw_at};

use rules::fault::TableFault;
use transfer::breach::Breach;

// What may be wrong at an instruction that a path reaches or that a row is lent for.
#[derive(Clone, Copy, PartialEq, Eq, Debug, Drop)]
pub enum Flaw {
    Broken(Breach), // it breaks a stack rule
    Differs, // two stacks meet there that differ
    TooHigh, // its row exceeds the cells that the procedure's ent allows
}

impl Flaw {
    // The refusal, at instruction n.
    pub fn at(self, n: usize) -> TableFault
        ensures { result ≡ flaw_at self n }
    {
        match self {
            Flaw::Broken(Breach::WrongStack) => TableFault::WrongStack(n),
            Flaw::Broken(Breach::StackTooHigh) => TableFault::StackTooHigh(n),
            Flaw::Broken(Breach::PastTheEnd) => TableFault::PastTheEnd(n),
            Flaw::Differs => TableFault::StacksDiffer(n),
            Flaw::TooHigh => TableFault::RowTooHigh(n),
        }
    }
}
