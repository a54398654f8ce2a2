ghost use Rattle.std.specs.Prelude.{◌≡◌};
ghost use Rattle.host.specs.Hosts.{Meaning, next_value, taken, put_answer, written};

use sheet::kind::Kind;
use sheet::stop::Stop;
use sheet::value::Value;

// A host means the values waiting, the values written, and its room.
pub trait Host {
    ghost means: { Self → Meaning };

    // The first value waiting, if it is one of this kind; a refusal changes nothing.
    fn take(&mut self, kind: Kind) -> Result<Value, Stop>
        ensures value { result ≡ next_value kind (means self.old).waiting }
        ensures after { means self.new ≡ taken kind (means self.old) };

    // Writes a value behind those written, where there is room; a refusal changes nothing.
    fn put(&mut self, x: Value) -> Result<(), Stop>
        ensures value { result ≡ put_answer (means self.old).room }
        ensures after { means self.new ≡ written x (means self.old) };
}
