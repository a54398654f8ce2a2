// Sets out many inputs, and prints the name of each and then what is written.
// `names` has a line for each input, the name of its file: by the number that is printed, then those with two faults, of which the
// order of the checks names one (`order-`), then those that write as much as fits and more.
#![tactic(auto)]

use anyhow::Context;
use pegs::set_out::set_out;
use std::fs;
use std::io::Write;

fn show(rt: &HostRuntime, name: &str) -> anyhow::Result<()> {
    let input = fs::read(rt, name).context("an input that is named cannot be read")?;
    let text = set_out(rt.alloc(), &input)?;
    println!(rt; "{name}")?;
    rt.stdout().write_all(&text)?;
    Ok(())
}

fn run(rt: &HostRuntime) -> anyhow::Result<()> {
    let names = fs::read_to_string(rt, "names").context("the list of names cannot be read")?;
    for name in names.as_str().lines() {
        show(rt, name)?;
    }
    Ok(())
}

fn main(rt: HostRuntime) -> anyhow::Result<()> {
    run(&rt)
}
