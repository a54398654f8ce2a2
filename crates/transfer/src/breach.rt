ghost use Rattle.std.specs.Prelude.{◌≡◌};
ghost use Rattle.transfer.specs.declared.breach.Breach.TheVariants.{StackTooHigh};

use pile::Full;

// How an instruction breaks a stack rule.
#[derive(Clone, Copy, PartialEq, Eq, Debug, Drop)]
pub enum Breach {
    WrongStack, // the stack does not end in what is taken
    StackTooHigh, // the stack given exceeds the cells that the procedure's ent allows
    PastTheEnd, // the next instruction lies past the procedure
}

impl From<Full> for Breach {
    ghost from_gives = { λ _ y. y ≡ StackTooHigh };

    fn from(_full: Full) -> Breach {
        Breach::StackTooHigh
    }
}
