// A yard's table, read and judged.
use admit::{Passed, admit};
use anyhow::anyhow;
use columns::table_text::Extent;
use prepare::prepare::prepare;
use rows::row::Row;
use sheet::instruction::Instruction;
use sheet::kind::Kind;
use sheet::procedure::Procedure;
use std::alloc::Global;

// Long enough for the yards here.
const PLACES: usize = 100;

#[derive(Drop)]
pub(crate) struct Yard {
    extent: Extent,
    procedures: Vec<Procedure>,
    cells: Vec<Kind>,
    code: Vec<Instruction>,
    rows: Vec<Row>,
}

impl Yard {
    pub(crate) fn read(heap: Global, text: &[u8]) -> anyhow::Result<Yard> {
        let mut procedures = vec![in heap; Procedure::NONE; PLACES]?;
        let mut cells = vec![in heap; Kind::Integer; PLACES]?;
        let mut code = vec![in heap; Instruction::NONE; PLACES]?;
        let mut rows = vec![in heap; Row::unreached(); PLACES]?;
        let mut places = vec![in heap; 0usize; PLACES]?;
        let prepared = prepare(
            text,
            &mut procedures,
            &mut cells,
            &mut code,
            &mut rows,
            &mut places,
        )
        // not `context`, here and below: it would print the cause too
        .map_err(|_| anyhow!("the table is refused"))?;
        Ok(Yard {
            extent: prepared.extent,
            procedures,
            cells,
            code,
            rows,
        })
    }

    // Its table, with the rows that judging left.
    pub(crate) fn passed(&self) -> anyhow::Result<Passed<'_>> {
        let table = self
            .extent
            .table_in(&self.procedures, &self.cells, &self.code);
        admit(table, &self.rows).map_err(|_| anyhow!("the rows are refused"))
    }
}
