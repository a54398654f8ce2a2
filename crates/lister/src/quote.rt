// Lines of a text, quoted.
use numerals::lines::Lines;
use std::alloc::{AllocError, Global};

// Of a longer line only so much is quoted, more than any line of a table has.
const LONGEST_QUOTE: usize = 60;

// The line of this number, from 1, with its end; empty where the text has none.
pub(crate) fn line_of(text: &[u8], number: usize) -> &[u8] {
    Lines::new(text)
        .nth(number.saturating_sub(1))
        .unwrap_or_default()
}

// A line without its end.
pub(crate) fn body_of(line: &[u8]) -> &[u8] {
    line.strip_suffix(b"\n").unwrap_or(line)
}

fn is_printable(byte: u8) -> bool {
    (b' '..=b'~').contains(&byte)
}

// The bytes between quotation marks, with a ? for each that is not printed, and two dots after a part.
pub(crate) fn quoted(heap: Global, bytes: &[u8]) -> Result<String, AllocError> {
    let mut out = String::from_str(heap, "\"")?;
    for byte in bytes.iter().take(LONGEST_QUOTE) {
        out.push(if is_printable(*byte) {
            *byte as char
        } else {
            '?'
        })?;
    }
    let end = if bytes.len() > LONGEST_QUOTE {
        "\".."
    } else {
        "\""
    };
    out.push_str(end)?;
    Ok(out)
}
