// The instructions that read and write data cells: of procedure 0, and by address.
ghost use Rattle.machine.specs.Leaves.{load, store as stores};
ghost use Rattle.machine.specs.Machine.{CarriesOut};
ghost use Rattle.machine.specs.Steps as step;

use crate::stack::{dropped, push};
use machine::machine::Machine;
use reads::cells::{cell_at, held_in, put_at, reached, stacked_at, typed_at, writable};
use sheet::kind::Kind;
use sheet::place::{CodePlace, StorePlace};
use sheet::stop::Stop;
use store::cell::Cell;
use store::store::Store;

// The cell at x is pushed.
pub(crate) fn load<S: Store>(
    machine: &mut Machine<'_, S>,
    kind: Kind,
    x: u32,
    next: CodePlace,
) -> Result<(), Stop>
    ensures { CarriesOut S.cells result machine.old machine.new (load next kind x) }
{
    let value = held_in(
        Stop::WrongCell,
        Stop::WrongCell,
        kind,
        cell_at(machine.store, x),
    )?;
    push(machine, value, 0, next)
}

// The top is taken and stored in the cell at x.
pub(crate) fn store_at<S: Store>(
    machine: &mut Machine<'_, S>,
    kind: Kind,
    x: u32,
    next: CodePlace,
) -> Result<(), Stop>
    ensures { CarriesOut S.cells result machine.old machine.new (stores next kind x) }
{
    let value = typed_at(machine.store, kind, machine.regs.height, 0)?;
    writable(
        Stop::WrongCell,
        Stop::WrongCell,
        kind,
        cell_at(machine.store, x),
    )?;
    put_at(machine.store, x, Cell::Data(value));
    machine.regs = dropped(machine.regs, 1, next);
    Ok(())
}

pub fn ldo<S: Store>(
    machine: &mut Machine<'_, S>,
    kind: Kind,
    offset: u16,
    next: CodePlace,
) -> Result<(), Stop>
    ensures { CarriesOut S.cells result machine.old machine.new (load next kind offset) }
{
    load(machine, kind, u32::from(offset), next)
}

pub fn sro<S: Store>(
    machine: &mut Machine<'_, S>,
    kind: Kind,
    offset: u16,
    next: CodePlace,
) -> Result<(), Stop>
    ensures { CarriesOut S.cells result machine.old machine.new (stores next kind offset) }
{
    store_at(machine, kind, u32::from(offset), next)
}

// By itself, as `sto`: `load` and `store_at` with causes and a count would take seven parameters for two lines each.
pub fn ind<S: Store>(machine: &mut Machine<'_, S>, kind: Kind, next: CodePlace) -> Result<(), Stop>
    ensures { CarriesOut S.cells result machine.old machine.new (step.ind kind next) }
{
    let address = StorePlace::try_from(stacked_at(machine.store, machine.regs.height, 0)?)?;
    let x = reached(address, machine.regs.height)?;
    let value = held_in(
        Stop::NoDataCell,
        Stop::OtherKindOfCell,
        kind,
        cell_at(machine.store, x),
    )?;
    push(machine, value, 1, next)
}

pub fn sto<S: Store>(machine: &mut Machine<'_, S>, kind: Kind, next: CodePlace) -> Result<(), Stop>
    ensures { CarriesOut S.cells result machine.old machine.new (step.sto kind next) }
{
    let value = typed_at(machine.store, kind, machine.regs.height, 0)?;
    let address = StorePlace::try_from(stacked_at(machine.store, machine.regs.height, 1)?)?;
    let place = reached(address, machine.regs.height)?;
    writable(
        Stop::NoDataCell,
        Stop::OtherKindOfCell,
        kind,
        cell_at(machine.store, place),
    )?;
    put_at(machine.store, place, Cell::Data(value));
    machine.regs = dropped(machine.regs, 2, next);
    Ok(())
}
