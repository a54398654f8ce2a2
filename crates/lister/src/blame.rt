// What is wrong with a line that the reader refuses: where in it, what was expected, and what was found.
// Nothing is promised of it: the refusal is the reader's own.
use crate::field::{Field, Form};
use crate::quote::{body_of, quoted};
use numerals::lines::Lines;
use numerals::read::read_number;
use sheet::procedure::Procedure;
use std::alloc::{AllocError, Global};

#[derive(Drop)]
pub(crate) struct Blame {
    // The columns at fault, where it is not the whole line.
    pub(crate) field: Option<Field>,
    pub(crate) expected: String,
    pub(crate) found: String,
}

fn whole(heap: Global, expected: String, found: &str) -> Result<Blame, AllocError> {
    Ok(Blame {
        field: None,
        expected,
        found: String::from_str(heap, found)?,
    })
}

fn in_field(heap: Global, body: &[u8], field: Field, words: &str) -> Result<Blame, AllocError> {
    let columns = field.columns(heap)?;
    Ok(Blame {
        field: Some(field),
        expected: format!(in heap; "{words}, in {columns}")?,
        found: quoted(heap, field.of(body))?,
    })
}

// A line whose length, or whose end, is not that of its form.
fn wrong_length(heap: Global, form: Form, line: &[u8]) -> Result<Blame, AllocError> {
    let expected = format!(in heap; "columns {}, and then byte 10", form.width())?;
    let width = body_of(line).len();
    if !line.ends_with(b"\n") {
        let found = format!(in heap; "columns {width}, and the end of the text")?;
        return whole(heap, expected, found.as_str());
    }
    let found = if line.ends_with(b"\r\n") {
        format!(in heap; "columns {width}, the last of them a carriage return")?
    } else {
        format!(in heap; "columns {width}")?
    };
    whole(heap, expected, found.as_str())
}

// A line of wrong length, letter, mnemonic or column.
pub(crate) fn malformed(heap: Global, line: &[u8]) -> Result<Blame, AllocError> {
    let body = body_of(line);
    let Some(form) = Form::of(body) else {
        return in_field(heap, body, Field::FIRST, "P, V or C");
    };
    if body.len() != form.width() || !line.ends_with(b"\n") {
        return wrong_length(heap, form, line);
    }
    match form.first_malformed(body) {
        Some(field) => in_field(heap, body, field, field.wanted()),
        None => whole(heap, String::from_str(heap, "another line")?, "this one"),
    }
}

// How many procedures, instructions, and cells of the last procedure stand before a line.
#[derive(Clone, Copy, Drop)]
struct Before {
    procedures: usize,
    cells: usize,
    code: usize,
}

fn count_before(text: &[u8], number: usize) -> Before {
    let mut before = Before {
        procedures: 0,
        cells: 0,
        code: 0,
    };
    for line in Lines::new(text).take(number.saturating_sub(1)) {
        match Form::of(line) {
            Some(Form::Procedure) => {
                before.procedures = before.procedures.saturating_add(1);
                before.cells = 0;
            }
            Some(Form::Cell) => before.cells = before.cells.saturating_add(1),
            _ => before.code = before.code.saturating_add(1),
        }
    }
    before
}

// What may stand next in place of a line that is out of order, and what stands there.
fn next_in_order(
    heap: Global,
    form: Form,
    before: Before,
    number: i128,
) -> Result<Blame, AllocError> {
    let Before {
        procedures,
        cells,
        code,
    } = before;
    let most = Procedure::MOST_CELLS;
    let (expected, found) = match form {
        Form::Code => (
            format!(in heap; "instruction number {code}")?,
            format!(in heap; "number {number}")?,
        ),
        _ if code > 0 => (
            format!(in heap;
                "an instruction: procedures and their cells stand before all instructions"
            )?,
            format!(in heap; "{}", form.name())?,
        ),
        Form::Procedure => (
            format!(in heap; "procedure number {procedures}")?,
            format!(in heap; "number {number}")?,
        ),
        Form::Cell if procedures == 0 => (
            format!(in heap; "a procedure before the first data cell")?,
            format!(in heap; "{}", form.name())?,
        ),
        Form::Cell => (
            format!(in heap; "at most {most} data cells of a procedure")?,
            format!(in heap; "one more after {cells}")?,
        ),
    };
    Ok(Blame {
        field: None,
        expected,
        found,
    })
}

// A well-formed line with a number out of range, or out of order.
pub(crate) fn misplaced(
    heap: Global,
    text: &[u8],
    number: usize,
    line: &[u8],
) -> Result<Blame, AllocError> {
    let body = body_of(line);
    let Some(form) = Form::of(body) else {
        return malformed(heap, line);
    };
    if let Some(field) = form.first_out_of_range(body) {
        return in_field(heap, body, field, field.range());
    }
    let said = read_number(Field::NUMBER.of(body)).unwrap_or(0);
    next_in_order(heap, form, count_before(text, number), said)
}
