// Lists a table for people, or explains a number.
#![tactic(auto)]

mod command;
#[cfg(test)]
mod tests;

use crate::command::Command;
use anyhow::{Context, bail};
use explain::explain::explain;
use lister::text::{list_rows, list_table};
use std::io::{Read, Write};
use std::{env, fs};

const HELP: &str = "listing: a table for people to read

  listing [TABLE]           lists a table: its procedures with their data cells, then its instructions,
                            each with the stack before it, its effect on the stack and its meaning
  listing --rows [TABLE]    only the stack before each instruction
  listing --explain NUMBER  what a number means that a refusal or the end of a run answers: 0, 1, 11 to 13,
                            20 to 27, 31 to 35, 41 to 47, 60 to 63
  listing --help            prints this

TABLE is a file; without one, the table is read from standard input. For example:

  listing examples/lower-yard.txt
  listing --rows < examples/lower-yard.txt
  listing --explain 22

Stacks have the top at the right; \"not reached\" stands where no path leads, and .. for what lies below
where a stack is wide. A ! marks a letter or an operand where the instruction takes none, and a - where a
letter is due. Where the table is refused, > marks what is at fault, and the stacks are those that paths
brought until then.

The last line of a listing is z, a number and a place: 0 and how many instructions paths reach, or why the
text or the table is refused, and the line, procedure or instruction. The exit status is 0 for a refused
table too; it is 1 where nothing can be listed or explained.
";

// Longer texts are refused.
const MOST_BYTES: usize = 1048576;

fn read_text(rt: &HostRuntime, file: Option<&str>) -> anyhow::Result<Vec<u8>> {
    let text = match file {
        Some(name) => fs::read(rt, name).context(format_args!("cannot read {name}"))?,
        None => {
            let mut text = Vec::new(rt.alloc());
            let mut input = rt.stdin();
            input.read_to_end(&mut text)?;
            text
        }
    };
    if text.len() > MOST_BYTES {
        bail!("the text has more than 1,048,576 bytes");
    }
    Ok(text)
}

fn obey(rt: &HostRuntime, command: Command<'_>) -> anyhow::Result<()> {
    let heap = rt.alloc();
    let listing = match command {
        Command::Help => return Ok(rt.print(HELP)?),
        Command::Explain(number) => {
            let Some(explanation) = explain(number) else {
                bail!("nothing answers {number}: listing --help says which numbers there are");
            };
            return Ok(rt.print(explanation)?);
        }
        Command::List(file) => list_table(heap, &read_text(rt, file)?)?,
        Command::Rows(file) => list_rows(heap, &read_text(rt, file)?)?,
    };
    rt.stdout().write_all(&listing)?;
    Ok(())
}

fn run(rt: &HostRuntime) -> anyhow::Result<()> {
    let mut words = Vec::new(rt.alloc());
    for word in env::args(rt)?.skip(1) {
        words.push(word)?;
    }
    let mut given = Vec::new(rt.alloc());
    for word in &words {
        given.push(word.as_str())?;
    }
    obey(rt, Command::read(&given)?)
}

fn main(rt: HostRuntime) -> anyhow::Result<()> {
    run(&rt)
}
