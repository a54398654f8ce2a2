// The columns in which the instructions of a table are listed: each as wide as what it holds.
use std::alloc::{AllocError, Global};

// A line of the listing for an instruction.
#[derive(Drop)]
pub(crate) struct CodeLine {
    pub(crate) number: usize,
    pub(crate) text: String,
    // The stack before it, where paths were followed.
    pub(crate) before: Option<String>,
    pub(crate) effect: String,
    pub(crate) meaning: String,
}

#[derive(Clone, Copy, Drop)]
pub(crate) struct Widths {
    text: usize,
    before: usize,
    effect: usize,
}

// A blank, or > where it is at fault; then a number of up to five digits, to the right.
pub(crate) fn mark(is_at_fault: bool) -> char {
    if is_at_fault { '>' } else { ' ' }
}

// A column, and two blanks after it.
fn push_column(out: &mut String, text: &str, width: usize) -> Result<(), AllocError> {
    out.push_str(text)?;
    for _ in text.len()..width {
        out.push(' ')?;
    }
    out.push_str("  ")
}

fn before_of(line: &CodeLine) -> &str {
    line.before.as_ref().map_or("", |before| before.as_str())
}

impl Widths {
    // Of the headings, which stand above.
    const NARROWEST: Widths = Widths {
        text: 11,
        before: 12,
        effect: 6,
    };

    pub(crate) fn of(lines: &[CodeLine]) -> Widths {
        let mut widths = Widths::NARROWEST;
        for line in lines {
            widths.text = widths.text.max(line.text.len());
            widths.before = widths.before.max(before_of(line).len());
            widths.effect = widths.effect.max(line.effect.len());
        }
        widths
    }

    pub(crate) fn push_headings(
        self,
        out: &mut String,
        has_stacks: bool,
    ) -> Result<(), AllocError> {
        out.push_str("        ")?;
        push_column(out, "instruction", self.text)?;
        if has_stacks {
            push_column(out, "stack before", self.before)?;
        }
        push_column(out, "effect", self.effect)?;
        out.push_str("meaning\n")
    }

    pub(crate) fn push_line(
        self,
        heap: Global,
        out: &mut String,
        line: &CodeLine,
        is_at_fault: bool,
    ) -> Result<(), AllocError> {
        let number = line.number;
        let place = format!(in heap; "{}{number:>5}", mark(is_at_fault))?;
        push_column(out, place.as_str(), 0)?;
        push_column(out, line.text.as_str(), self.text)?;
        if let Some(before) = &line.before {
            push_column(out, before.as_str(), self.before)?;
        }
        push_column(out, line.effect.as_str(), self.effect)?;
        out.push_str(line.meaning.as_str())?;
        out.push('\n')
    }
}
