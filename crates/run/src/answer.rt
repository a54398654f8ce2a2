// The calls on a run, and what they answer.
ghost use Rattle.std.specs.Prelude.{◌≡◌};
ghost use Rattle.run.specs.Answers.{finish_of, finish_number, fault_number};

use machine::ending::Ending;
use sheet::place::{CodePlace, StorePlace};
use store::cell::Cell;

// How a go came to its end; no Result, since a go always answers, over another store with a count of 0.
#[derive(Clone, Copy, Drop)]
pub enum Finish {
    Spent, // 0: all steps are done
    Ended(Ending), // 1 at hlt, or the number of the cause
    OtherStore, // 34: the store is not as long as the one that the run began over
}

impl Finish {
    // A method, since `u8::from` would not say that it is the number of an ending.
    pub fn number(self) -> u8
        ensures { result ≡ finish_number self }
    {
        match self {
            Finish::Spent => 0,
            Finish::Ended(ending) => ending.number(),
            Finish::OtherStore => 34,
        }
    }
}

impl From<Option<Ending>> for Finish {
    ghost from_gives = { λ x y. y ≡ finish_of x };

    fn from(value: Option<Ending>) -> Finish {
        match value {
            None => Finish::Spent,
            Some(ending) => Finish::Ended(ending),
        }
    }
}

// The steps that a go made, and how it came to its end.
#[derive(Clone, Copy, Drop)]
pub struct Went {
    pub count: u32,
    pub finish: Finish,
}

// Why a look finds no cell.
#[derive(Clone, Copy, Drop)]
pub enum LookFault {
    OtherStore, // 34: the store is not as long as the one that the run began over
    NotReached, // 35: the place is below 0, above SP or past the store
}

impl LookFault {
    // A method, since `u8::from` would not say that it is the number of a refusal.
    pub fn number(self) -> u8
        ensures { result ≡ fault_number self }
    {
        match self {
            LookFault::OtherStore => 34,
            LookFault::NotReached => 35,
        }
    }
}

// The registers as places.
#[derive(Clone, Copy, Drop)]
pub struct Report {
    pub pc: CodePlace,
    pub sp: StorePlace,
    pub mp: StorePlace,
    pub ep: StorePlace,
    pub np: StorePlace,
}

#[derive(Clone, Copy, Drop)]
pub enum Call {
    Go(u32),
    Look(StorePlace),
    Report,
}

#[derive(Clone, Copy, Drop)]
pub enum Answer {
    Went(Went),
    Looked(Result<Cell, LookFault>),
    Registers(Report),
}
