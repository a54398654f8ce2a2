ghost use Rattle.std.specs.Prelude.{◌≡◌};
ghost use Rattle.columns.specs.ValueLines.{value_of, read_value, columns_of, write_value};

use crate::fault::LineFault;
use crate::line::{expect, number_in};
use arith::real::{pattern, real_from_pattern};
use numerals::write::{write_signed, write_unsigned};
use sheet::value::Value;

// The length of a value's line, its end counted.
pub const LINE: usize = 22;

// No address is typed in, so its letter is wrong here.
fn value_of(letter: char, n: i128) -> Result<Value, LineFault>
    ensures { result ≡ value_of letter n }
{
    match letter {
        'b' => match n {
            0 => Ok(Value::Boolean(false)),
            1 => Ok(Value::Boolean(true)),
            _ => Err(LineFault::OutOfRange),
        },
        'c' => Ok(Value::Character(u8::try_from(n)?)),
        'i' => Ok(Value::Integer(i32::try_from(n)?)),
        'r' => real_from_pattern(u64::try_from(n)?)
            .map(Value::Real)
            .ok_or(LineFault::OutOfRange),
        _ => Err(LineFault::Malformed),
    }
}

// The value that a line holds.
pub fn read_value(line: &[u8]) -> Result<Value, LineFault>
    ensures { result ≡ read_value line.now }
{
    if line.len() != LINE {
        return Err(LineFault::Malformed);
    }
    let n = number_in(line, 1, 20)?;
    expect(line[21], b'\n')?;
    value_of(char::from(line[0]), n)
}

// The 20 columns of a value's number.
fn columns_of(value: Value) -> [u8; 20]
    ensures { result ≡ columns_of value }
{
    match value {
        Value::Address(x) => write_signed(i64::from(x.0)),
        Value::Boolean(x) => write_unsigned(u64::from(x)),
        Value::Character(x) => write_unsigned(u64::from(x)),
        Value::Integer(x) => write_signed(i64::from(x)),
        Value::Real(x) => write_unsigned(pattern(x)),
    }
}

// A value as its line: its letter, 20 columns and the end.
pub fn write_value(value: Value) -> [u8; LINE]
    ensures { result ≡ write_value value }
{
    let mut line = [b'\n'; LINE];
    line[0] = value.kind().letter();
    line[1..21].copy_from_slice(&columns_of(value));
    line
}
