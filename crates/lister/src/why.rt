// What a listing says of a table that is refused: the line at fault, what was expected there and what was found.
use crate::again::Paths;
use crate::ill_formed::{broken_rule, counts_are_wrong};
use crate::not_allowed::not_allowed;
use crate::notes::{Notes, Pair};
use crate::parts::Culprit;
use crate::quote::{body_of, line_of, quoted};
use crate::row::spoken;
use crate::stack::{Words, stack};
use rows::entry::Entry;
use rows::row::Row;
use rules::effects::{Gives, Takes, effect_of};
use rules::fault::TableFault;
use rules::lookup::{ancestor, cells_at, owner, procedure_at, room_at};
use sheet::instruction::Instruction;
use sheet::procedure::Procedure;
use sheet::table::Table;
use std::alloc::{AllocError, Global};

// The mark that a call needs: it leads from the caller to the procedure that the callee stands in.
fn mark_wanted(
    heap: Global,
    table: Table<'_>,
    from: usize,
    to: usize,
) -> Result<String, AllocError> {
    match (0..8).find(|links| ancestor(table, *links, from) == Some(to)) {
        Some(links) => format!(in heap; "mark {links}"),
        None => format!(in heap;
            "a mark that leads to procedure {to}, which stands above no frame here"
        ),
    }
}

fn add_cells(
    heap: Global,
    words: &mut Words,
    table: Table<'_>,
    procedure: Procedure,
) -> Result<(), AllocError> {
    for kind in cells_at(table, procedure.offset, procedure.parameters) {
        words.add_kind(heap, *kind)?;
    }
    Ok(())
}

// What an instruction takes, the top at the right.
fn taken(heap: Global, table: Table<'_>, n: usize, takes: Takes) -> Result<String, AllocError> {
    let mut words = Words::begin(heap)?;
    words.add("..")?;
    match takes {
        Takes::Kinds(top, below) => {
            if let Some(kind) = below {
                words.add_kind(heap, kind)?;
            }
            if let Some(kind) = top {
                words.add_kind(heap, kind)?;
            }
        }
        Takes::Parameters(procedure) => add_cells(heap, &mut words, table, procedure)?,
        Takes::Call(procedure) => {
            let mark = mark_wanted(heap, table, owner(table, n), procedure.parent as usize)?;
            words.add(mark.as_str())?;
            add_cells(heap, &mut words, table, procedure)?;
        }
    }
    words.end()
}

// The entries of the stack that an instruction takes.
fn entries_taken(takes: Takes) -> usize {
    match takes {
        Takes::Kinds(top, below) => usize::from(top.is_some()) + usize::from(below.is_some()),
        Takes::Parameters(procedure) => procedure.parameters as usize,
        Takes::Call(procedure) => procedure.parameters as usize + 1,
    }
}

fn cells_given(gives: Gives) -> usize {
    match gives {
        Gives::Nothing => 0,
        Gives::One(_) => 1,
        Gives::Two(_) => 2,
        Gives::Mark(_) => 5,
    }
}

fn add_given(heap: Global, words: &mut Words, gives: Gives) -> Result<(), AllocError> {
    match gives {
        Gives::Nothing => Ok(()),
        Gives::One(kind) => words.add_kind(heap, kind),
        Gives::Two(kind) => {
            words.add_kind(heap, kind)?;
            words.add_kind(heap, kind)
        }
        Gives::Mark(links) => words.add_mark(heap, links),
    }
}

fn cells_of(entries: &[u8]) -> usize {
    entries.iter().fold(
        0,
        |cells: usize, byte| cells.saturating_add(Entry::from(*byte).cells()),
    )
}

// The line of the text that a culprit stands in: each procedure has a line, then one for each data cell, and then come the instructions.
fn line_number(table: Table<'_>, culprit: Culprit) -> Option<usize> {
    let before = match culprit {
        Culprit::Nothing => return None,
        Culprit::Procedure(n) => n.saturating_add(procedure_at(table, n).offset),
        Culprit::Instruction(n) => n
            .saturating_add(table.procedures.len())
            .saturating_add(table.cells.len()),
    };
    Some(before.saturating_add(1))
}

// What a refusal of a table points at.
pub(crate) fn culprit(table: Table<'_>, fault: TableFault) -> Culprit {
    match fault {
        TableFault::IllFormed(_) if counts_are_wrong(table) => Culprit::Nothing,
        TableFault::IllFormed(n) => Culprit::Procedure(n),
        TableFault::TooFewPlaces => Culprit::Nothing,
        _ => Culprit::Instruction(fault.place()),
    }
}

// The number, and what it points at: an instruction as it is spoken of.
fn head(
    heap: Global,
    table: Table<'_>,
    culprit: Culprit,
    number: u8,
) -> Result<String, AllocError> {
    match culprit {
        Culprit::Nothing => format!(in heap; "{number}"),
        Culprit::Procedure(n) => format!(in heap; "{number} at procedure {n}"),
        Culprit::Instruction(n) => {
            let x = table.code.get(n).copied().unwrap_or(Instruction::NONE);
            let words = spoken(heap, x)?;
            format!(in heap; "{number} at instruction {n}, {words}")
        }
    }
}

// The stack that an instruction would leave has more cells than its ent allows.
fn too_high(heap: Global, table: Table<'_>, n: usize, row: Row) -> Result<Pair, AllocError> {
    let x = table.code.get(n).copied().unwrap_or(Instruction::NONE);
    let effect = effect_of(table, n, x);
    let room = room_at(table, n);
    let entries = row.entry_bytes();
    let kept = entries.len().saturating_sub(entries_taken(effect.takes));
    let kept = entries.get(..kept).unwrap_or(entries);
    let cells = cells_of(kept).saturating_add(cells_given(effect.gives));
    let mut words = Words::begin(heap)?;
    words.add_entries(heap, kept)?;
    add_given(heap, &mut words, effect.gives)?;
    let after = words.end()?;
    Ok((
        format!(in heap; "at most {room} cells of stack after it")?,
        format!(in heap; "{cells}, of {after}")?,
    ))
}

// What was expected, and what was found.
fn expected(
    heap: Global,
    table: Table<'_>,
    paths: &Paths,
    fault: TableFault,
) -> Result<Pair, AllocError> {
    let n = fault.place();
    let x = table.code.get(n).copied().unwrap_or(Instruction::NONE);
    match fault {
        TableFault::IllFormed(_) => broken_rule(heap, table, n),
        TableFault::NotAllowed(_) => not_allowed(heap, table, n, x),
        TableFault::StackTooHigh(_) => too_high(heap, table, n, paths.row(n)),
        TableFault::PastTheEnd(_) => {
            let procedure = owner(table, n);
            let expected = format!(in heap; "a next instruction in procedure {procedure}")?;
            Ok((expected, format!(in heap; "the end of the procedure")?))
        }
        _ => {
            let takes = effect_of(table, n, x).takes;
            Ok((taken(heap, table, n, takes)?, stack(heap, paths.row(n))?))
        }
    }
}

// The two stacks that meet.
fn add_stacks(heap: Global, notes: &mut Notes, paths: &Paths, n: usize) -> Result<(), AllocError> {
    let came = paths.came(n);
    let first = stack(heap, paths.row(n))?;
    notes.add(
        format!(in heap; "one path")?,
        format!(in heap; "{first}, from instruction {came}")?,
    )?;
    if let Some(other) = paths.other {
        let second = stack(heap, other.row)?;
        let from = other.from;
        notes.add(
            format!(in heap; "another")?,
            format!(in heap; "{second}, from instruction {from}")?,
        )?;
    }
    Ok(())
}

// The fault in words, the line of the text at fault, and what was expected and found there.
pub(crate) fn why(
    heap: Global,
    text: &[u8],
    table: Table<'_>,
    paths: &Paths,
    fault: TableFault,
) -> Result<String, AllocError> {
    let culprit = culprit(table, fault);
    let mut notes = Notes::under(heap, head(heap, table, culprit, fault.number())?);
    notes.add(format!(in heap; "fault")?, format!(in heap; "{fault}")?)?;
    if let Some(line) = line_number(table, culprit) {
        let words = quoted(heap, body_of(line_of(text, line)))?;
        notes.add(format!(in heap; "line {line}")?, words)?;
    }
    if let TableFault::StacksDiffer(n) = fault {
        add_stacks(heap, &mut notes, paths, n)?;
        return notes.text(heap);
    }
    let (expected, found) = expected(heap, table, paths, fault)?;
    notes.add(format!(in heap; "expected")?, expected)?;
    notes.add(format!(in heap; "found")?, found)?;
    notes.text(heap)
}
