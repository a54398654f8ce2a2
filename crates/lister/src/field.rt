// The columns of the three kinds of lines of a table's text, to tell where a line is at fault.
use numerals::read::read_number;
use sheet::mnemonic::Mnemonic;
use std::alloc::{AllocError, Global};

#[derive(Clone, Copy, PartialEq, Eq, Drop)]
enum Holds {
    Letter,
    Natural, // 0 to 65,535
    Operand, // a number in the range of i
    Kind,
    OptionalKind,
    Blank,
    Mnemonic,
}

// The columns after `at` up to `end`, counted from 1.
#[derive(Clone, Copy, Drop)]
pub(crate) struct Field {
    at: usize,
    end: usize,
    holds: Holds,
}

#[derive(Clone, Copy, Drop)]
pub(crate) enum Form {
    Procedure,
    Cell,
    Code,
}

// A field in short: a constant's value may not be made by a call.
type Columns = (usize, usize, Holds);

const PROCEDURE: [Columns; 5] = [
    (1, 7, Holds::Natural),
    (7, 13, Holds::Natural),
    (13, 19, Holds::Natural),
    (19, 25, Holds::Natural),
    (25, 26, Holds::OptionalKind),
];

const CELL: [Columns; 1] = [(1, 2, Holds::Kind)];

const CODE: [Columns; 7] = [
    (1, 7, Holds::Natural),
    (7, 8, Holds::Blank),
    (8, 12, Holds::Mnemonic),
    (12, 13, Holds::OptionalKind),
    (13, 14, Holds::OptionalKind),
    (14, 26, Holds::Operand),
    (26, 38, Holds::Operand),
];

impl Form {
    // By the first letter of a line.
    pub(crate) fn of(line: &[u8]) -> Option<Form> {
        match line.first() {
            Some(b'P') => Some(Form::Procedure),
            Some(b'V') => Some(Form::Cell),
            Some(b'C') => Some(Form::Code),
            _ => None,
        }
    }

    pub(crate) fn name(self) -> &'static str {
        match self {
            Form::Procedure => "a procedure",
            Form::Cell => "a data cell",
            Form::Code => "an instruction",
        }
    }

    pub(crate) fn width(self) -> usize {
        match self {
            Form::Procedure => 26,
            Form::Cell => 2,
            Form::Code => 38,
        }
    }

    fn columns(self) -> &'static [Columns] {
        match self {
            Form::Procedure => &PROCEDURE,
            Form::Cell => &CELL,
            Form::Code => &CODE,
        }
    }

    pub(crate) fn first_malformed(self, body: &[u8]) -> Option<Field> {
        self.columns()
            .iter()
            .map(|columns| Field::new(*columns))
            .find(|field| !field.is_well_formed(body))
    }

    pub(crate) fn first_out_of_range(self, body: &[u8]) -> Option<Field> {
        self.columns()
            .iter()
            .map(|columns| Field::new(*columns))
            .find(|field| !field.is_in_range(body))
    }
}

impl Field {
    pub(crate) const FIRST: Field = Field {
        at: 0,
        end: 1,
        holds: Holds::Letter,
    };

    // The number of a procedure or an instruction.
    pub(crate) const NUMBER: Field = Field {
        at: 1,
        end: 7,
        holds: Holds::Natural,
    };

    fn new((at, end, holds): Columns) -> Field {
        Field { at, end, holds }
    }

    // What stands in it.
    pub(crate) fn of(self, body: &[u8]) -> &[u8] {
        body.get(self.at..self.end).unwrap_or(&[])
    }

    pub(crate) fn is_well_formed(self, body: &[u8]) -> bool {
        let bytes = self.of(body);
        match (self.holds, bytes) {
            (Holds::Letter, _) => true,
            (Holds::Natural | Holds::Operand, _) => read_number(bytes).is_some(),
            (Holds::Kind, [b'a' | b'b' | b'c' | b'i' | b'r']) => true,
            (Holds::OptionalKind, [b'a' | b'b' | b'c' | b'i' | b'r' | b'-']) => true,
            (Holds::Blank, [b' ']) => true,
            (Holds::Mnemonic, [a, b, c, d]) => Mnemonic::by_name([*a, *b, *c, *d]).is_some(),
            _ => false,
        }
    }

    pub(crate) fn is_in_range(self, body: &[u8]) -> bool {
        match (self.holds, read_number(self.of(body))) {
            (Holds::Natural, Some(n)) => u16::try_from(n).is_ok(),
            (Holds::Operand, Some(n)) => i32::try_from(n).is_ok(),
            _ => true,
        }
    }

    pub(crate) fn wanted(self) -> &'static str {
        match self.holds {
            Holds::Letter => "a letter",
            Holds::Natural | Holds::Operand => "a number to the right, without leading zeros",
            Holds::Kind => "a, b, c, i or r",
            Holds::OptionalKind => "a, b, c, i, r or -",
            Holds::Blank => "a blank",
            Holds::Mnemonic => "a mnemonic, from the left",
        }
    }

    pub(crate) fn range(self) -> &'static str {
        match self.holds {
            Holds::Operand => "-2,147,483,648 to 2,147,483,647",
            _ => "0 to 65,535",
        }
    }

    // Its columns in words.
    pub(crate) fn columns(self, heap: Global) -> Result<String, AllocError> {
        let from = self.at.saturating_add(1);
        let to = self.end;
        if from == to {
            return format!(in heap; "column {from}");
        }
        format!(in heap; "columns {from} to {to}")
    }

    // Pointers to its columns, under a line between quotation marks.
    pub(crate) fn pointers(self, heap: Global) -> Result<String, AllocError> {
        let mut out = String::from_str(heap, " ")?;
        for _ in 0..self.at {
            out.push(' ')?;
        }
        for _ in self.at..self.end {
            out.push('^')?;
        }
        Ok(out)
    }
}
