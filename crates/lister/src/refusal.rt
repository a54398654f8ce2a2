// What a listing says of a text that is refused.
use crate::blame::{Blame, malformed, misplaced};
use crate::notes::Notes;
use crate::quote::{body_of, line_of, quoted};
use columns::fault::TextFault;
use std::alloc::{AllocError, Global};

fn blame(heap: Global, text: &[u8], fault: TextFault, line: &[u8]) -> Result<Blame, AllocError> {
    match fault {
        TextFault::Malformed(_) => malformed(heap, line),
        TextFault::Misplaced(_) | TextFault::TooLong(_) => misplaced(
            heap,
            text,
            fault.line(),
            line,
        ),
    }
}

// The fault in words, the line at fault, and what was expected and found in it.
pub(crate) fn refusal(heap: Global, text: &[u8], fault: TextFault) -> Result<String, AllocError> {
    let place = fault.line();
    let number = fault.number();
    let line = line_of(text, place);
    let Blame {
        field,
        expected,
        found,
    } = blame(heap, text, fault, line)?;
    let mut notes = Notes::under(heap, format!(in heap; "{number} at line {place}")?);
    notes.add(format!(in heap; "fault")?, format!(in heap; "{fault}")?)?;
    notes.add(
        format!(in heap; "line {place}")?,
        quoted(heap, body_of(line))?,
    )?;
    if let Some(field) = field {
        notes.add(String::new(heap), field.pointers(heap)?)?;
    }
    notes.add(format!(in heap; "expected")?, expected)?;
    notes.add(format!(in heap; "found")?, found)?;
    notes.text(heap)
}
