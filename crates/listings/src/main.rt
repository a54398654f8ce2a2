// Lists many tables, accepted and refused, and explains every number.
// `listed.txt` has a line for each listing: the name of the table, then `rows` where only its stacks are listed. The text is NAME.txt.
#![tactic(auto)]

use explain::explain::explain;
use lister::text::{list_rows, list_table};
use std::io::Write;
use std::{fs, io};

fn show(rt: &HostRuntime, line: &str) -> io::Result<()> {
    let heap = rt.alloc();
    let mut words = line.split_whitespace();
    let name = words.next().unwrap_or("");
    let text = fs::read(rt, format!(in heap; "{name}.txt")?)?;
    println!(rt; "---- {line}")?;
    let listing = match words.next() {
        Some("rows") => list_rows(heap, &text)?,
        _ => list_table(heap, &text)?,
    };
    rt.stdout().write_all(&listing)
}

// Larger than any number that is explained.
const NUMBERS: u64 = 100;

fn show_explanations(rt: &HostRuntime) -> io::Result<()> {
    for number in 0..NUMBERS {
        if let Some(explanation) = explain(number) {
            println!(rt; "---- {number}")?;
            rt.print(explanation)?;
        }
    }
    Ok(())
}

fn main(rt: HostRuntime) -> io::Result<()> {
    let index = fs::read_to_string(&rt, "listed.txt")?;
    for line in index.as_str().lines() {
        show(&rt, line)?;
    }
    show_explanations(&rt)
}
