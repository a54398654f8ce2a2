ghost use Rattle.std.specs.Prelude.{◌≡◌, ℕ, Bool, length};
ghost use Rattle.columns.specs.Scans.{Computes, first_failing, laid};
ghost use Rattle.columns.specs.ValueCauses.{ValuesRefusedForCause};
ghost use Rattle.columns.specs.ValueLaws.{WrittenValuesReadBack};
ghost use Rattle.columns.specs.ValueText.{Typed, one_more, value_verdict, values_of, good_values, read_values, how_many, values_left};

use crate::fault::{LineFault, TextFault, is_well_formed};
use crate::lists::put;
use crate::value_line::read_value;
use numerals::lines::Lines;
use sheet::value::Value;

// The first line that fails the test, from 1; each is tested with the number of lines before it.
// One function for tables too would take what is counted and how, and be longer than both.
fn first_fault<F: Fn(usize, Result<Value, LineFault>) -> bool>(
    text: &[u8],
    passes: F,
) -> Option<usize>
    requires { F.IsAlwaysCallable passes }
    ensures { (test : ℕ → Typed → Bool) → Computes (F.post passes) test → result ≡ first_failing one_more test 0 1 (values_of text.now) }
{
    Lines::new(text)
        .enumerate()
        .position(|(before, line)| !passes(before, read_value(line)))
        .map(|before| before + 1)
}

// Lays the values of a text in order into the list, and says how many there are.
fn lay_values(text: &[u8], values: &mut [Value]) -> usize
    ensures value { result ≡ length (good_values (values_of text.now)) }
    ensures after { values.new ≡ laid (good_values (values_of text.now)) values.old }
{
    // Counted by hand, since the count is answered too.
    let mut count = 0;
    for line in Lines::new(text) {
        if let Ok(value) = read_value(line) {
            put(values, count, value);
            count += 1;
        }
    }
    count
}

// The first line at fault under the lowest number. Not shared with tables: it would take three closures over the text, and be longer than both.
fn check(text: &[u8], room: usize) -> Result<(), TextFault>
    ensures { result ≡ value_verdict room text.now }
{
    if let Some(n) = first_fault(text, |_, typed| is_well_formed(typed)) {
        return Err(TextFault::Malformed(n));
    }
    if let Some(n) = first_fault(text, |_, typed| typed.is_ok()) {
        return Err(TextFault::Misplaced(n));
    }
    if let Some(n) = first_fault(text, |before, _| before < room) {
        return Err(TextFault::TooLong(n));
    }
    Ok(())
}

// Reads the values of a text into a lent list, and says how many. A text that is refused leaves it as it was.
pub fn read_values(text: &[u8], values: &mut [Value]) -> Result<usize, TextFault>
    ensures value { result ≡ how_many (read_values (length values.old) text.now) }
    ensures after { values.new ≡ values_left (read_values (length values.old) text.now) values.old }
    ensures cause { ValuesRefusedForCause }
    ensures written { WrittenValuesReadBack }
{
    check(text, values.len())?;
    Ok(lay_values(text, values))
}
