ghost use Rattle.std.specs.Prelude.{◌≡◌};
ghost use Rattle.host.specs.Hosts.{suits};

use sheet::kind::Kind;
use sheet::value::Value;

// Whether a record waiting is a value of this kind.
pub(crate) fn is_of(kind: Kind, x: Value) -> bool
    ensures { result ≡ suits kind x }
{
    x.kind() == kind && x.is_proper()
}
