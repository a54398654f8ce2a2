// Sets out a row of each yard over both stores and both hosts, with the calls of each run cut in another way, and prints what was
// written, how the run ended and the registers: the same lines four times.
#![tactic(auto)]

mod drive;
mod yard;

use crate::drive::{Ended, drive};
use crate::yard::Yard;
use anyhow::anyhow;
use columns::value_line::write_value;
use columns::value_text::read_values;
use host::host::Host;
use host::lines::Lines;
use host::lists::Lists;
use run::answer::Report;
use sheet::value::Value;
use std::fs;
use std::io::Write;
use store::cell::Cell;
use store::packed::Packed;
use store::records::Records;
use store::store::Store;

const CELLS: usize = 64;

// Room for twenty lines, and for twenty values.
const BYTES: usize = 440;

const VALUES: usize = 20;

fn show(rt: &HostRuntime, ended: Ended) -> anyhow::Result<()> {
    let Ended {
        count,
        finish,
        report,
    } = ended;
    let number = finish.number();
    let Report { pc, sp, mp, ep, np } = report;
    let (pc, sp, mp, ep, np) = (pc.0, sp.0, mp.0, ep.0, np.0);
    println!(rt; "z {number} after {count} steps, PC {pc}, SP {sp}, MP {mp}, EP {ep}, NP {np}")?;
    Ok(())
}

// The store that a run is over: a value, since no closure takes every kind of store.
#[derive(Clone, Copy, Drop)]
enum Backing {
    Records,
    Packed,
}

// A way to run a yard: over a store of this kind, in slices of `cut` steps.
#[derive(Clone, Copy, Drop)]
struct Way<'a> {
    rt: &'a HostRuntime,
    yard: &'a Yard,
    backing: Backing,
    cut: u32,
}

impl Way<'_> {
    fn drive<H: Host>(&self, host: &mut H) -> anyhow::Result<Ended> {
        let heap = self.rt.alloc();
        let passed = self.yard.passed()?;
        match self.backing {
            Backing::Records => {
                let mut records = vec![in heap; Cell::Free; CELLS]?;
                let mut store = Records::over(&mut records);
                drive(passed, &mut store, host, self.cut)
            }
            Backing::Packed => {
                let mut codes = vec![in heap; 0u8; CELLS]?;
                let mut words = vec![in heap; 0u64; CELLS]?;
                let mut store = Packed::over(&mut codes, &mut words);
                drive(passed, &mut store, host, self.cut)
            }
        }
    }

    // Values waiting in a list, values written into another.
    fn with_lists(&self, typed: &[u8]) -> anyhow::Result<()> {
        let heap = self.rt.alloc();
        let mut input = vec![in heap; Value::Integer(0); VALUES]?;
        let n = read_values(typed, &mut input).map_err(|_| anyhow!("the values are refused"))?;
        input.truncate(n);
        let mut output = vec![in heap; Value::Integer(0); VALUES]?;
        let mut host = Lists::over(&input, &mut output);
        let ended = self.drive(&mut host)?;
        for value in host.so_far() {
            self.rt.stdout().write_all(&write_value(*value))?;
        }
        show(self.rt, ended)
    }

    // Lines of values typed, lines of values written.
    fn with_lines(&self, typed: &[u8]) -> anyhow::Result<()> {
        let mut output = vec![in self.rt.alloc(); 0u8; BYTES]?;
        let mut host = Lines::over(typed, &mut output).map_err(|_| anyhow!(
            "the values are refused"
        ))?;
        let ended = self.drive(&mut host)?;
        self.rt.stdout().write_all(host.text())?;
        show(self.rt, ended)
    }
}

fn four_ways(rt: &HostRuntime, name: &str) -> anyhow::Result<()> {
    let text = fs::read(rt, format!(in rt.alloc(); "{name}.txt")?)?;
    let typed = fs::read(rt, format!(in rt.alloc(); "{name}.values")?)?;
    let yard = Yard::read(rt.alloc(), &text)?;
    println!(rt; "{name}")?;
    let way = |backing, cut| Way {
        rt,
        yard: &yard,
        backing,
        cut,
    };
    way(Backing::Records, 100).with_lists(&typed)?;
    way(Backing::Packed, 1).with_lists(&typed)?;
    way(Backing::Records, 7).with_lines(&typed)?;
    way(Backing::Packed, 3).with_lines(&typed)
}

fn run(rt: &HostRuntime) -> anyhow::Result<()> {
    four_ways(rt, "upper-yard")?;
    four_ways(rt, "lower-yard")
}

fn main(rt: HostRuntime) -> anyhow::Result<()> {
    run(&rt)
}
