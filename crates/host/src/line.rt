ghost use Rattle.std.specs.Prelude.{◌≡◌};
ghost use Rattle.columns.specs.ValueLines.{write_value};
ghost use Rattle.host.specs.Texts.{written_value};

use columns::value_line::{LINE, write_value};
use sheet::value::Value;

// The line of a value that is written.
// Five arms that do the same: a number's range, by which its line reads back as it, is known to the check only where its kind is.
pub(crate) fn line_of(x: Value) -> [u8; LINE]
    ensures value { result ≡ write_value x }
    ensures back { written_value result ≡ x }
{
    match x {
        Value::Address(_) => write_value(x),
        Value::Boolean(_) => write_value(x),
        Value::Character(_) => write_value(x),
        Value::Integer(_) => write_value(x),
        Value::Real(_) => write_value(x),
    }
}
