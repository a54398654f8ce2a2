// Reads texts of tables and of values, well and ill written, and prints how each is answered; then lists a few.
// `tables.txt` has a line for each: its name, and the lengths of the three lists lent. The text is NAME.txt; or it is
// made, where the line goes on with the counts of its procedures, data cells and instructions, and bytes to put last.
// `values.txt` has a line for each text of values: its name, and the length of the list lent.
// `listed.txt` names the texts to list.
#![tactic(auto)]

mod case;
mod outcome;
mod values;

use crate::case::{Case, read_case, read_value_case};
use crate::outcome::try_table;
use crate::values::{ValueOutcome, try_values};
use columns::table_text::Extent;
use lister::text::list_table;
use std::io::Write;
use std::{fs, io};

const ABOUT: &str =
    "How each text is answered: the number of the refusal and its line, or 0 and the count of instructions;
then how many places of the three lists lent stay as they were.

table                                    number  place procedures  cells   code
";

// The text NAME.txt.
fn read_text(rt: &HostRuntime, name: &str) -> io::Result<Vec<u8>> {
    fs::read(rt, format!(in rt.alloc(); "{name}.txt")?)
}

fn show(rt: &HostRuntime, case: Case<'_>) -> io::Result<()> {
    let heap = rt.alloc();
    let name = case.name;
    let text = match case.recipe {
        Some(recipe) => recipe.text(heap)?.into_bytes(),
        None => read_text(rt, name)?,
    };
    let outcome = try_table(heap, &text, case.room)?;
    let number = outcome.number();
    let place = outcome.place();
    let Extent {
        procedures: p,
        cells: d,
        code: i,
    } = outcome.untouched;
    println!(rt; "{name:<41}{number:>6}{place:>7}{p:>11}{d:>7}{i:>7}")
}

const VALUES_ABOUT: &str = "
How each text of values is answered: the number of the refusal and its line, or 0 and the count of values;
then how many places of the list lent stay as they were, and whether the values write back as they stood.

values                                   number  place  places
";

fn show_values(rt: &HostRuntime, name: &str, room: usize) -> io::Result<()> {
    let heap = rt.alloc();
    let text = read_text(rt, name)?;
    let ValueOutcome {
        answer,
        untouched,
        writes_back,
    } = try_values(heap, &text, room)?;
    let (number, place) = match answer {
        Ok(count) => (0, count),
        Err(fault) => (fault.number(), fault.line()),
    };
    let back = match writes_back {
        None => "",
        Some(true) => "  same",
        Some(false) => "  differs",
    };
    println!(rt; "{name:<41}{number:>6}{place:>7}{untouched:>8}{back}")
}

fn list(rt: &HostRuntime, name: &str) -> io::Result<()> {
    let heap = rt.alloc();
    let text = read_text(rt, name)?;
    let listing = list_table(heap, &text)?;
    println!(rt; "\n---- {name}")?;
    rt.stdout().write_all(&listing)
}

fn main(rt: HostRuntime) -> io::Result<()> {
    rt.print(ABOUT)?;
    let index = fs::read_to_string(&rt, "tables.txt")?;
    for line in index.as_str().lines() {
        match read_case(line) {
            Some(case) => show(&rt, case)?,
            None => println!(rt; "{line}: no case")?,
        }
    }
    rt.print(VALUES_ABOUT)?;
    let index = fs::read_to_string(&rt, "values.txt")?;
    for line in index.as_str().lines() {
        match read_value_case(line) {
            Some((name, room)) => show_values(&rt, name, room)?,
            None => println!(rt; "{line}: no case")?,
        }
    }
    let listed = fs::read_to_string(&rt, "listed.txt")?;
    for name in listed.as_str().lines() {
        list(&rt, name)?;
    }
    Ok(())
}
