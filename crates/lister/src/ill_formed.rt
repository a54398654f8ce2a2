// Which rule of tables a procedure breaks, and what was found in place of what it asks. The rules are tried in the verifier's order.
use crate::notes::Pair;
use crate::words::sign;
use rules::lookup::{ancestor, procedure_at};
use sheet::procedure::Procedure;
use sheet::table::Table;
use std::alloc::{AllocError, Global};

// Whether the counts are at fault: then no procedure is.
pub(crate) fn counts_are_wrong(table: Table<'_>) -> bool {
    !(1..=4096).contains(&table.code.len()) || !(1..=64).contains(&table.procedures.len())
}

fn wrong_counts(heap: Global, table: Table<'_>) -> Result<Pair, AllocError> {
    let n = table.code.len();
    let p = table.procedures.len();
    Ok((
        format!(in heap; "instructions 1 to 4,096, procedures 1 to 64")?,
        format!(in heap; "instructions {n}, procedures {p}")?,
    ))
}

fn main_is_right(main: Procedure) -> bool {
    main.parent == 0 && main.first == 0 && main.parameters == 0 && main.result.is_none()
}

fn wrong_main(heap: Global, main: Procedure) -> Result<Pair, AllocError> {
    let Procedure {
        parent,
        first,
        parameters,
        ..
    } = main;
    let result = sign(main.result);
    Ok((
        format!(in heap; "parent 0, first instruction 0, parameters 0, result -")?,
        format!(in heap;
            "parent {parent}, first instruction {first}, parameters {parameters}, result {result}"
        )?,
    ))
}

// The parent and the first instruction of any procedure but 0.
fn wrong_form(
    heap: Global,
    table: Table<'_>,
    n: usize,
    procedure: Procedure,
) -> Result<Option<Pair>, AllocError> {
    let Procedure { parent, first, .. } = procedure;
    let before = procedure_at(table, n.saturating_sub(1)).first;
    if n == 0 {
        return Ok(None);
    }
    if parent as usize >= n {
        let expected = format!(in heap; "a parent with a lower number than {n}")?;
        return Ok(Some((expected, format!(in heap; "parent {parent}")?)));
    }
    if first <= before {
        let expected = format!(in heap;
            "a first instruction above {before}, where the procedure before begins"
        )?;
        return Ok(Some((expected, format!(in heap; "first instruction {first}")?)));
    }
    Ok(None)
}

// How many parents lead to procedure 0; no more than a table has procedures.
fn parents(table: Table<'_>, n: usize) -> usize {
    (0..64)
        .take_while(|links| ancestor(table, *links, n).is_some_and(|a| a > 0))
        .count()
}

// The parameters and the data cells.
fn wrong_sizes(heap: Global, procedure: Procedure) -> Result<Pair, AllocError> {
    let Procedure {
        parameters,
        count,
        ..
    } = procedure;
    Ok((
        format!(in heap; "parameters at most 35, and no more of them than data cells")?,
        format!(in heap; "parameters {parameters}, data cells {count}")?,
    ))
}

// What the rule that is broken first asks, and what stands there.
pub(crate) fn broken_rule(heap: Global, table: Table<'_>, n: usize) -> Result<Pair, AllocError> {
    if counts_are_wrong(table) {
        return wrong_counts(heap, table);
    }
    let procedure = procedure_at(table, n);
    if n == 0 && !main_is_right(procedure) {
        return wrong_main(heap, procedure);
    }
    if let Some(pair) = wrong_form(heap, table, n, procedure)? {
        return Ok(pair);
    }
    let end = table.code.len();
    let first = procedure.first;
    if first as usize >= end {
        let expected = format!(in heap;
            "a first instruction below {end}, the number of instructions"
        )?;
        return Ok((expected, format!(in heap; "first instruction {first}")?));
    }
    let parents = parents(table, n);
    if parents > 7 {
        let expected = format!(in heap; "at most 7 parents up to procedure 0")?;
        return Ok((expected, format!(in heap; "{parents} parents")?));
    }
    wrong_sizes(heap, procedure)
}
