// The marks of a call, and the call.
ghost use Rattle.std.specs.Prelude.{◌≡◌};
ghost use Rattle.host.specs.Hosts.{Meaning};
ghost use Rattle.rules.specs.Lookups.{contents_of};
ghost use Rattle.machine.specs.Frames.{place, marks, marked};
ghost use Rattle.machine.specs.Machine.{CarriesOut, state_of};
ghost use Rattle.machine.specs.Steps as step;

use machine::machine::Machine;
use machine::registers::Registers;
use reads::cells::{cell_at, mark_in, place_in, put_at};
use reads::links::base_of;
use reads::parameters::passed;
use rules::lookup::{natural, procedure_of};
use sheet::place::CodePlace;
use sheet::stop::Stop;
use sheet::table::Table;
use store::cell::Cell;
use store::store::Store;

// The mark of a place in the store.
fn place_mark(x: u16) -> Cell
    ensures { result ≡ place x }
{
    Cell::Mark(i32::from(x))
}

// The five marks of a call from x up; each has a meaning of its own, so they are written one by one.
fn write_marks<S: Store>(store: &mut S, x: u16, link: u16, mp: u16, ep: u16)
    ensures { S.cells store.new ≡ marks x link mp ep (S.cells store.old) }
{
    let x = u32::from(x);
    put_at(store, x, place_mark(0));
    put_at(store, x + 1, place_mark(link));
    put_at(store, x + 2, place_mark(mp));
    put_at(store, x + 3, place_mark(ep));
    put_at(store, x + 4, place_mark(0));
}

pub fn mst<S: Store>(machine: &mut Machine<'_, S>, links: u16, next: CodePlace) -> Result<(), Stop>
    ensures { CarriesOut S.cells result machine.old machine.new (step.mst links next) }
{
    let link = base_of(machine.store, links, machine.regs.mp)?;
    let Registers { height, mp, ep, .. } = machine.regs;
    let x = u16::try_from(height)
        .ok()
        .filter(|x| u32::from(*x) + 4 <= u32::from(ep))
        .ok_or(Stop::StackFull)?;
    write_marks(machine.store, x, link, mp, ep);
    machine.regs.pc = next;
    machine.regs.height += 5;
    Ok(())
}

// The five marks that begin at m: links below m, an EP from SP to the last cell.
fn marked<S: Store>(machine: &Machine<'_, S>, m: u16) -> Result<(), Stop>
    ensures { (h : Meaning) → result ≡ marked m (state_of S.cells machine.now h) }
{
    let x = u32::from(m);
    mark_in(cell_at(machine.store, x))?;
    let link = place_in(cell_at(machine.store, x + 1))?;
    let caller = place_in(cell_at(machine.store, x + 2))?;
    let ep = place_in(cell_at(machine.store, x + 3))?;
    mark_in(cell_at(machine.store, x + 4))?;
    let Registers { height, last, .. } = machine.regs;
    if link < x && caller < x && height <= ep + 1 && ep <= u32::from(last) {
        Ok(())
    } else {
        Err(Stop::WrongMark)
    }
}

pub fn cup<S: Store>(
    machine: &mut Machine<'_, S>,
    table: Table<'_>,
    parameters: u16,
    target: CodePlace,
    next: CodePlace,
) -> Result<(), Stop>
    ensures { CarriesOut S.cells result machine.old machine.new (step.cup (contents_of table.entry) parameters target next) }
{
    let procedure = procedure_of(table, natural(target.0));
    let Registers { height, last, .. } = machine.regs;
    let m = height
        .checked_sub(u32::from(parameters) + 5)
        .and_then(|m| u16::try_from(m).ok())
        .filter(|m| *m <= last)
        .ok_or(Stop::WrongMark)?;
    marked(machine, m)?;
    passed(table, procedure, m, machine.store)?;
    put_at(machine.store, u32::from(m) + 4, Cell::Mark(next.0));
    machine.regs.pc = target;
    machine.regs.mp = m;
    Ok(())
}
