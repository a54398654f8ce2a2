// The two parts of an input.
ghost use Rattle.std.specs.Prelude.{◌≡◌, length, Err, MatchResult};
ghost use Rattle.host.specs.Meanings.{lines_begun};
ghost use Rattle.pegs.specs.Parts.{is_value_line, value_text, PartsOf};
ghost use Rattle.pegs.specs.SetOuts.{attempted, host_made, made_behind};

use crate::fault::Refusal;
use host::lines::Lines as TypedLines;
use numerals::lines::{Lines, line_count};

// An input has at most so many bytes.
pub(crate) const MOST_BYTES: usize = 32768;

fn is_value_line(line: &[u8]) -> bool
    ensures { result ≡ is_value_line line.now }
{
    matches!(line, [b'a' | b'b' | b'c' | b'i' | b'r', ..])
}

// The input from the first line on that begins with the letter of a type.
#[tactic(auto, using(crate::proofs::Parting::values_here, crate::proofs::Parting::values_on, crate::proofs::Parting::values_none))]
fn value_text(input: &[u8]) -> &[u8]
    ensures { result.now ≡ value_text input.now }
{
    let mut lines = Lines::new(input);
    let mut rest = input;
    while let Some(line) = lines.next() {
        if is_value_line(line) {
            break;
        }
        rest = lines.as_slice();
    }
    rest
}

// The text of a table, how many lines it has, and the text of the values typed.
#[derive(Clone, Copy, Drop)]
pub(crate) struct Parts<'a> {
    pub(crate) table: &'a [u8],
    pub(crate) lines: usize,
    values: &'a [u8],
}

// An input with more bytes than are read is refused before anything else, by the line in which the first of these stands.
#[tactic(auto, using(crate::proofs::Parting::values_within, crate::proofs::Parting::front_is_table, crate::proofs::Parting::too_long))]
pub(crate) fn part(input: &[u8]) -> Result<Parts<'_>, Refusal>
    ensures { MatchResult result (PartsOf input.now) (λ r. attempted input.now ≡ Err r) }
{
    if input.len() > MOST_BYTES {
        return Err(Refusal::TooLong(line_count(&input[..MOST_BYTES + 1])));
    }
    let values = value_text(input);
    let (table, _) = input.split_at(input.len() - values.len());
    Ok(Parts {
        table,
        lines: line_count(table),
        values,
    })
}

// A host over the values typed, and these bytes for the lines written.
pub(crate) fn host_over<'a>(
    parts: Parts<'a>,
    written: &'a mut [u8],
) -> Result<TypedLines<'a>, Refusal>
    ensures { host_made result ≡ made_behind parts.entry.lines (lines_begun parts.entry.values.now (length written.old)) }
{
    TypedLines::over(parts.values, written).map_err(|fault| Refusal::Values {
        before: parts.lines,
        fault,
    })
}
