// The lists of a table.
use columns::fault::TextFault;
use columns::table_text::read_table;
use numerals::lines::line_count;
use sheet::instruction::Instruction;
use sheet::kind::Kind;
use sheet::procedure::Procedure;
use sheet::table::Table;
use std::alloc::{AllocError, Global};

#[derive(Drop)]
pub struct Lists {
    procedures: Vec<Procedure>,
    cells: Vec<Kind>,
    code: Vec<Instruction>,
}

impl Lists {
    // As a text gives them; it has no more records than lines.
    pub(crate) fn read(heap: Global, text: &[u8]) -> Result<Result<Lists, TextFault>, AllocError> {
        let lines = line_count(text);
        let mut procedures = vec![in heap; Procedure::NONE; lines]?;
        let mut cells = vec![in heap; Kind::Integer; lines]?;
        let mut code = vec![in heap; Instruction::NONE; lines]?;
        let extent = match read_table(text, &mut procedures, &mut cells, &mut code) {
            Ok(extent) => extent,
            Err(fault) => return Ok(Err(fault)),
        };
        procedures.truncate(extent.procedures);
        cells.truncate(extent.cells);
        code.truncate(extent.code);
        Ok(Ok(Lists {
            procedures,
            cells,
            code,
        }))
    }

    pub(crate) fn table(&self) -> Table<'_> {
        Table {
            procedures: &self.procedures,
            cells: &self.cells,
            code: &self.code,
        }
    }
}

// The text of one procedure of so many instructions, two or more: each but the first and the last jumps to the next.
pub(crate) fn made_text(heap: Global, count: usize) -> Result<String, AllocError> {
    let mut text = String::new(heap);
    text.push_str("P     0     0     0     0-\n")?;
    text.push_str("C     0 ent --           0           5\n")?;
    let last = count.saturating_sub(1);
    for i in 1..last {
        let next = i + 1;
        let line = format!(in heap; "C{i:>6} ujp --           0{next:>12}\n")?;
        text.push_str(line.as_str())?;
    }
    let line = format!(in heap; "C{last:>6} hlt --           0           0\n")?;
    text.push_str(line.as_str())?;
    Ok(text)
}
