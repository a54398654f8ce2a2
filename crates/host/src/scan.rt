ghost use Rattle.std.specs.Prelude.{◌≡◌};
ghost use Rattle.host.specs.Texts.{values_in, from_found};

use columns::value_line::read_value;
use numerals::lines::Lines;
use sheet::value::Value;

// A value, and what follows its line.
#[derive(Clone, Copy, Drop)]
pub struct Found<'a> {
    pub value: Value,
    pub rest: &'a [u8],
}

// The first value in a text's lines.
pub(crate) fn first_value(text: &[u8]) -> Option<Found<'_>>
    ensures { values_in text.now ≡ from_found result }
{
    let mut lines = Lines::new(text);
    // Not a chain, since what follows the line is asked of the iterator.
    while let Some(line) = lines.next() {
        if let Ok(value) = read_value(line) {
            return Some(Found {
                value,
                rest: lines.as_slice(),
            });
        }
    }
    None
}
