ghost use Rattle.std.specs.Prelude.{◌≡◌, [], length};
ghost use Rattle.host.specs.Hosts.{next_value, taken, put_answer, written};
ghost use Rattle.host.specs.Meanings.{meaning_of_lists};

use crate::host::Host;
use crate::kinds::is_of;
use pile::Pile;
use sheet::kind::Kind;
use sheet::stop::Stop;
use sheet::value::Value;

// A host over a lent list of waiting values and a lent list for those written.
#[derive(Drop)]
pub struct Lists<'a> {
    input: &'a [Value], // what still waits
    output: Pile<'a, Value>,
}

impl<'a> Lists<'a> {
    pub fn over(input: &'a [Value], output: &'a mut [Value]) -> Lists<'a>
        ensures name { result.output.places.ghost_name ≡ output.entry.ghost_name }
        ensures held { meaning_of_lists result ≡ record { waiting = input.now; written = []; room = length output.old } }
    {
        Lists {
            input,
            output: Pile::over(output),
        }
    }

    // The values written so far.
    pub fn so_far(&self) -> &[Value]
        ensures { result.now ≡ (meaning_of_lists self.now).written }
    {
        self.output.as_slice()
    }
}

impl Host for Lists<'_> {
    ghost means = { meaning_of_lists };

    fn take(&mut self, kind: Kind) -> Result<Value, Stop>
        ensures name { self.new.output.places.ghost_name ≡ self.old.output.places.ghost_name }
        ensures value { result ≡ next_value kind (meaning_of_lists self.old).waiting }
        ensures after { meaning_of_lists self.new ≡ taken kind (meaning_of_lists self.old) }
    {
        let [x, rest @ ..] = self.input else {
            return Err(Stop::NothingWaits);
        };
        if !is_of(kind, *x) {
            return Err(Stop::WrongInput);
        }
        self.input = rest;
        Ok(*x)
    }

    fn put(&mut self, x: Value) -> Result<(), Stop>
        ensures name { self.new.output.places.ghost_name ≡ self.old.output.places.ghost_name }
        ensures value { result ≡ put_answer (meaning_of_lists self.old).room }
        ensures after { meaning_of_lists self.new ≡ written x (meaning_of_lists self.old) }
    {
        self.output.push(x).map_err(|_| Stop::NoRoom)
    }
}
