// The instructions that find a frame by its static links.
ghost use Rattle.std.specs.Prelude.{◌≡◌};
ghost use Rattle.machine.specs.Machine.{CarriesOut};
ghost use Rattle.machine.specs.Steps as step;
ghost use Rattle.instructions.specs.Cells.{cell_of};

use crate::cells::{load, store_at};
use crate::stack::push;
use machine::machine::Machine;
use reads::links::base_of;
use sheet::kind::Kind;
use sheet::place::{CodePlace, StorePlace};
use sheet::stop::Stop;
use sheet::value::Value;
use store::store::Store;

// The place of the cell with this offset in the frame that many static links up.
fn cell_of<S: Store>(machine: &Machine<'_, S>, links: u16, offset: u16) -> Result<u32, Stop>
    ensures { result ≡ cell_of links offset machine.now.regs.mp (S.cells machine.now.store.now) }
{
    let x = base_of(machine.store, links, machine.regs.mp)?;
    Ok(u32::from(x) + u32::from(offset))
}

pub fn lod<S: Store>(
    machine: &mut Machine<'_, S>,
    kind: Kind,
    links: u16,
    offset: u16,
    next: CodePlace,
) -> Result<(), Stop>
    ensures { CarriesOut S.cells result machine.old machine.new (step.lod kind links offset next) }
{
    let x = cell_of(machine, links, offset)?;
    load(machine, kind, x, next)
}

pub fn str<S: Store>(
    machine: &mut Machine<'_, S>,
    kind: Kind,
    links: u16,
    offset: u16,
    next: CodePlace,
) -> Result<(), Stop>
    ensures { CarriesOut S.cells result machine.old machine.new (step.str kind links offset next) }
{
    let x = cell_of(machine, links, offset)?;
    store_at(machine, kind, x, next)
}

pub fn lda<S: Store>(
    machine: &mut Machine<'_, S>,
    links: u16,
    offset: u16,
    next: CodePlace,
) -> Result<(), Stop>
    ensures { CarriesOut S.cells result machine.old machine.new (step.lda links offset next) }
{
    let x = base_of(machine.store, links, machine.regs.mp)?;
    let address = StorePlace(i32::from(x) + i32::from(offset));
    push(machine, Value::Address(address), 0, next)
}
