// How a text of values is answered, what is left of the list, and whether its values write back as they stood.
ghost use Rattle.std.specs.Prelude.{◌≡◌, IfOk};
ghost use Rattle.columns.specs.ValueText.{read_values, how_many};

use columns::fault::TextFault;
use columns::value_line::write_value;
use columns::value_text::read_values;
use sheet::place::StorePlace;
use sheet::value::Value;
use std::alloc::{AllocError, Global};

#[derive(Clone, Copy, Drop)]
pub struct ValueOutcome {
    pub answer: Result<usize, TextFault>,
    pub untouched: usize, // how many places still hold what they held before
    pub writes_back: Option<bool>, // None where the text is refused
}

// What every place holds before: no text lays an address.
const BLANK: Value = Value::Address(StorePlace(0));

fn is_blank(value: &Value) -> bool {
    matches!(value, Value::Address(_))
}

fn written(heap: Global, values: &[Value]) -> Result<Vec<u8>, AllocError> {
    let mut text = Vec::new(heap);
    for value in values.iter().filter(|value| !is_blank(value)) {
        text.extend_from_slice(&write_value(*value))?;
    }
    Ok(text)
}

// Reads a text into a list of this length.
pub fn try_values(heap: Global, text: &[u8], room: usize) -> Result<ValueOutcome, AllocError>
    ensures { IfOk result (λ o. o.answer ≡ how_many (read_values room text.now)) }
{
    let mut values = vec![in heap; BLANK; room]?;
    let answer = read_values(text, &mut values);
    let untouched = values.iter().filter(|value| is_blank(value)).count();
    let writes_back = match answer {
        Ok(_) => Some(written(heap, &values)?.as_slice() == text),
        Err(_) => None,
    };
    Ok(ValueOutcome {
        answer,
        untouched,
        writes_back,
    })
}
