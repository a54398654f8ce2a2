// Tries tables on judge and rows on admit, and prints how each is answered.
// `judged.txt` has a line for each table: its name, and how many rows and places of the work list are lent, as +k or -k
// against its number of instructions. The text is NAME.txt; or it is made, where the line goes on with that number.
// `admitted.txt` has a line for each list of rows: the name of its table, how many rows are lent, and then its changes I=WORD:
// the row of instruction I becomes the stack WORD, letters for values and digits for marks, the bottom first, `.` for the
// empty stack and `-` for no row. Before, the rows are as judge leaves them.
#![tactic(auto)]

mod case;
mod lists;
mod outcome;
mod stack;

use crate::case::{AdmittedCase, JudgedCase, read_admitted, read_judged};
use crate::lists::{Lists, made_text};
use crate::outcome::{Judged, changed_rows, number, try_admit, try_judge};
use rules::fault::TableFault;
use std::{fs, io};

const ABOUT: &'static str =
    "How judge answers each table: the number of the refusal and its place, or 0 and how many instructions have rows;
then, of the rows lent for the instructions, how many are rows, and of those lent beyond, how many are as they were;
of the places lent for the instructions, how many are 0, and of those lent beyond, how many are as they were.

table                                       number  place   rows beyond places beyond
";

// The lists of a table's text; what the columns cannot read is said, and is none.
fn read_lists(rt: &HostRuntime, name: &str, text: &[u8]) -> io::Result<Option<Lists>> {
    match Lists::read(rt.alloc(), text)? {
        Ok(lists) => Ok(Some(lists)),
        Err(fault) => {
            let number = fault.number();
            let line = fault.line();
            println!(rt; "{name}: no table, {number} in line {line}")?;
            Ok(None)
        }
    }
}

fn read_file(rt: &HostRuntime, name: &str) -> io::Result<Vec<u8>> {
    fs::read(rt, format!(in rt.alloc(); "{name}.txt")?)
}

fn show_judged(rt: &HostRuntime, case: JudgedCase<'_>) -> io::Result<()> {
    let heap = rt.alloc();
    let name = case.name;
    let text = match case.made {
        Some(count) => made_text(heap, count)?.into_bytes(),
        None => read_file(rt, name)?,
    };
    let Some(lists) = read_lists(rt, name, &text)? else {
        return Ok(());
    };
    let table = lists.table();
    let n = table.code.len();
    let outcome = try_judge(heap, table, case.rows.over(n), case.places.over(n))?;
    let number = number(outcome.answer.err());
    let place = outcome.place();
    let Judged { rows, places, .. } = outcome;
    println!(rt;
        "{name:<44}{number:>6}{place:>7}{:>7}{:>7}{:>7}{:>7}",
        rows.own, rows.rest, places.own, places.rest
    )
}

const ADMITTED_ABOUT: &'static str = "
How admit answers each list of rows: the number of the refusal and its place, or 0 twice.

table                                       number  place
";

fn show_admitted(rt: &HostRuntime, case: AdmittedCase<'_>) -> io::Result<()> {
    let heap = rt.alloc();
    let name = case.name;
    let text = read_file(rt, name)?;
    let Some(lists) = read_lists(rt, name, &text)? else {
        return Ok(());
    };
    let table = lists.table();
    let rows = changed_rows(heap, table, case.rows.over(table.code.len()), &case.changes)?;
    let fault = try_admit(table, &rows);
    let number = number(fault);
    let place = fault.map_or(0, TableFault::place);
    println!(rt; "{name:<44}{number:>6}{place:>7}")
}

fn main(rt: HostRuntime) -> io::Result<()> {
    rt.print(ABOUT)?;
    let index = fs::read_to_string(&rt, "judged.txt")?;
    for line in index.as_str().lines() {
        match read_judged(line) {
            Some(case) => show_judged(&rt, case)?,
            None => println!(rt; "{line}: no case")?,
        }
    }
    rt.print(ADMITTED_ABOUT)?;
    let index = fs::read_to_string(&rt, "admitted.txt")?;
    for line in index.as_str().lines() {
        match read_admitted(rt.alloc(), line)? {
            Some(case) => show_admitted(&rt, case)?,
            None => println!(rt; "{line}: no case")?,
        }
    }
    Ok(())
}
