// The parts of a listing: a heading, then the procedures with their cells and instructions.
use crate::grid::{CodeLine, Widths, mark};
use crate::row::code_line;
use crate::stack::stack;
use rows::row::Row;
use rules::lookup::cells_at;
use sheet::procedure::Procedure;
use sheet::table::Table;
use std::alloc::{AllocError, Global};

// What a refusal points at.
#[derive(Clone, Copy, PartialEq, Eq, Drop)]
pub(crate) enum Culprit {
    Nothing,
    Procedure(usize),
    Instruction(usize),
}

// A table, the stacks before its instructions (none where no path was followed), and what is to be marked.
#[derive(Clone, Copy, Drop)]
pub(crate) struct Judged<'a> {
    pub(crate) table: Table<'a>,
    pub(crate) rows: &'a [Row],
    pub(crate) culprit: Culprit,
}

fn list_heading(
    heap: Global,
    out: &mut String,
    number: usize,
    procedure: Procedure,
    is_at_fault: bool,
) -> Result<(), AllocError> {
    let Procedure {
        parent,
        first,
        parameters,
        result,
        ..
    } = procedure;
    let mark = if is_at_fault { "> " } else { "" };
    let result = match result {
        Some(kind) => kind.to_string(heap)?,
        None => String::from_str(heap, "none")?,
    };
    let line = format!(in heap;
        "\n{mark}Procedure {number}: parent {parent}, first instruction {first}, parameters {parameters}, result {result}\n"
    )?;
    out.push_str(line.as_str())
}

// The data cells of a procedure by their offsets in the frame.
fn list_cells(
    heap: Global,
    out: &mut String,
    table: Table<'_>,
    procedure: Procedure,
) -> Result<(), AllocError> {
    let own = cells_at(table, procedure.offset, procedure.count);
    for (i, kind) in own.iter().enumerate() {
        let offset = Procedure::FIRST_CELL.saturating_add(i);
        let role = if i < procedure.parameters as usize {
            "parameter"
        } else {
            ""
        };
        let line = format!(in heap; "{offset:>6}  {kind:<9}  {role}")?;
        out.push_str(line.as_str().trim_end())?;
        out.push('\n')?;
    }
    Ok(())
}

// Where instructions end: those in no procedure, which come first, and then those of each procedure.
// An instruction lies in the last procedure that begins at it or before.
fn ends(heap: Global, table: Table<'_>) -> Result<Vec<usize>, AllocError> {
    let mut ends = Vec::new(heap);
    let mut end = table.code.len();
    for procedure in table.procedures.iter().rev() {
        ends.push(end)?;
        end = end.min(procedure.first as usize);
    }
    ends.push(end)?;
    ends.reverse();
    Ok(ends)
}

fn code_lines(heap: Global, judged: Judged<'_>) -> Result<Vec<CodeLine>, AllocError> {
    let mut lines = Vec::new(heap);
    for (i, instruction) in judged.table.code.iter().enumerate() {
        let before = judged.rows.get(i).copied();
        lines.push(code_line(heap, i, *instruction, before)?)?;
    }
    Ok(lines)
}

fn list_code(
    heap: Global,
    out: &mut String,
    widths: Widths,
    lines: &[CodeLine],
    judged: Judged<'_>,
) -> Result<(), AllocError> {
    if lines.is_empty() {
        return Ok(());
    }
    widths.push_headings(out, !judged.rows.is_empty())?;
    for line in lines {
        let is_at_fault = judged.culprit == Culprit::Instruction(line.number);
        widths.push_line(heap, out, line, is_at_fault)?;
    }
    Ok(())
}

// The listing of a table. Nothing is taken for granted: the table may break every rule.
pub(crate) fn list_parts(heap: Global, judged: Judged<'_>) -> Result<String, AllocError> {
    let table = judged.table;
    let p = table.procedures.len();
    let d = table.cells.len();
    let n = table.code.len();
    let mut out = format!(in heap; "Procedures {p}, data cells {d}, instructions {n}\n")?;
    let lines = code_lines(heap, judged)?;
    let widths = Widths::of(&lines);
    let ends = ends(heap, table)?;
    let outside = ends.first().copied().unwrap_or(0);
    if outside > 0 {
        out.push_str("\nIn no procedure\n")?;
        list_code(
            heap,
            &mut out,
            widths,
            lines.get(..outside).unwrap_or(&[]),
            judged,
        )?;
    }
    for (i, (procedure, end)) in table.procedures.iter().zip(ends.iter().skip(1)).enumerate() {
        let is_at_fault = judged.culprit == Culprit::Procedure(i);
        list_heading(heap, &mut out, i, *procedure, is_at_fault)?;
        list_cells(heap, &mut out, table, *procedure)?;
        let own = lines.get(procedure.first as usize..*end).unwrap_or(&[]);
        if procedure.count > 0 && !own.is_empty() {
            out.push('\n')?;
        }
        list_code(heap, &mut out, widths, own, judged)?;
    }
    out.push('\n')?;
    Ok(out)
}

// Only the stacks, each with the number of its instruction.
pub(crate) fn list_stacks(heap: Global, judged: Judged<'_>) -> Result<String, AllocError> {
    let mut out = String::new(heap);
    for (i, row) in judged.rows.iter().enumerate() {
        let mark = mark(judged.culprit == Culprit::Instruction(i));
        let words = stack(heap, *row)?;
        let line = format!(in heap; "{mark}{i:>5}  {words}\n")?;
        out.push_str(line.as_str())?;
    }
    Ok(out)
}
