ghost use Rattle.std.specs.Prelude.{◌≡◌};
ghost use Rattle.machine.specs.Endings.{ending_number};
ghost use Rattle.machine.specs.declared.ending.Ending.TheVariants.{Stopped};

use sheet::stop::Stop;

// What ends a run of steps before all are done.
#[derive(Clone, Copy, Drop)]
pub enum Ending {
    Halted, // 1: hlt, which is no step
    Stopped(Stop), // by the number of the cause
}

impl Ending {
    // A method, since `u8::from` would not say that it is the number of an ending.
    pub fn number(self) -> u8
        ensures { result ≡ ending_number self }
    {
        match self {
            Ending::Halted => 1,
            Ending::Stopped(stop) => stop.number(),
        }
    }
}

impl From<Stop> for Ending {
    ghost from_gives = { λ x y. y ≡ Stopped x };

    fn from(value: Stop) -> Ending {
        Ending::Stopped(value)
    }
}
