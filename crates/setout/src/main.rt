// The office's program: a table and the values typed on standard input, the values written and the verdict on standard output.
#![tactic(auto)]

use anyhow::bail;
use pegs::set_out::set_out;
use std::env;
use std::io::{Read, Write};

const HELP: &str = "setout: sets out a row by a yard's table

  cat TABLE VALUES | setout    reads a table and, from the first line on that begins with a, b, c, i or r,
                               the values typed for it; runs the table; prints the values that it writes
  setout --help                prints this

The last line printed is z, a number and a place: 1 and the steps made where the table came to its end, 0 where
it did not within 1,000,000 steps, or why it was refused or stopped, and the line, procedure or instruction, or
the steps made. Put no peg after any number but 1. The program listing explains each: listing --explain NUMBER.
The exit status is 0 in all these cases.
";

// One byte more than are read tells an input that is too long; nothing behind it is looked at.
const MOST_READ: u64 = 32769;

fn set_out_input(rt: &HostRuntime) -> anyhow::Result<()> {
    let mut input = Vec::new(rt.alloc());
    rt.stdin().take(MOST_READ).read_to_end(&mut input)?;
    let text = set_out(rt.alloc(), &input)?;
    rt.stdout().write_all(&text)?;
    Ok(())
}

fn run(rt: &HostRuntime) -> anyhow::Result<()> {
    match env::args(rt)?.nth(1) {
        None => set_out_input(rt),
        Some(word) if word.as_str() == "--help" => Ok(rt.print(HELP)?),
        Some(word) => bail!("what is {word}? setout reads standard input: setout --help says more"),
    }
}

fn main(rt: HostRuntime) -> anyhow::Result<()> {
    run(&rt)
}
