// The return from a procedure.
ghost use Rattle.std.specs.Prelude.{◌≡◌};
ghost use Rattle.host.specs.Hosts.{Meaning};
ghost use Rattle.rules.specs.Lookups.{contents_of};
ghost use Rattle.machine.specs.Frames.{back, return_plain};
ghost use Rattle.machine.specs.Machine.{CarriesOut, state_of};
ghost use Rattle.machine.specs.Steps as step;

use machine::machine::Machine;
use machine::registers::Registers;
use reads::cells::{cell_at, held_in, mark_in, place_in, put_at};
use rules::lookup::procedure_of;
use sheet::place::CodePlace;
use sheet::stop::Stop;
use sheet::table::Table;
use store::cell::Cell;
use store::store::Store;

// The registers that a return to a stack of this height takes from the marks.
// Apart from `marked` of a call: a return reads neither the result's mark nor the static link.
fn back_to<S: Store>(machine: &Machine<'_, S>, height: u32) -> Result<Registers, Stop>
    ensures { (h : Meaning) → result ≡ back height (state_of S.cells machine.now h) }
{
    let Registers { mp, last, .. } = machine.regs;
    let x = u32::from(mp);
    let pc = mark_in(cell_at(machine.store, x + 4))?;
    let ep = place_in(cell_at(machine.store, x + 3))?;
    let caller = place_in(cell_at(machine.store, x + 2))?;
    let caller = u16::try_from(caller)
        .ok()
        .filter(|caller| *caller < mp)
        .ok_or(Stop::WrongMark)?;
    let ep = u16::try_from(ep)
        .ok()
        .filter(|ep| height <= u32::from(*ep) + 1 && *ep <= last)
        .ok_or(Stop::WrongMark)?;
    Ok(Registers {
        pc: CodePlace(pc),
        height,
        mp: caller,
        ep,
        last,
    })
}

// n is the number of the instruction itself.
pub fn retf<S: Store>(machine: &mut Machine<'_, S>, table: Table<'_>, n: usize) -> Result<(), Stop>
    ensures { CarriesOut S.cells result machine.old machine.new (step.retf (contents_of table.entry) n) }
{
    let procedure = procedure_of(table, n);
    let mp = u32::from(machine.regs.mp);
    let caller = back_to(machine, mp + 1)?;
    let kind = procedure.result.ok_or(Stop::WrongCell)?;
    let x = held_in(
        Stop::WrongCell,
        Stop::WrongCell,
        kind,
        cell_at(machine.store, mp),
    )?;
    put_at(machine.store, mp, Cell::Working(x));
    machine.regs = caller;
    Ok(())
}

pub fn retp<S: Store>(machine: &mut Machine<'_, S>) -> Result<(), Stop>
    ensures { CarriesOut S.cells result machine.old machine.new return_plain }
{
    machine.regs = back_to(machine, u32::from(machine.regs.mp))?;
    Ok(())
}
