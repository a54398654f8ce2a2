// The entry of a procedure: its frame gets its data cells.
ghost use Rattle.std.specs.Prelude.{◌≡◌, ◌+◌, ◌^◌, ◌<◌, length};
ghost use Rattle.rules.specs.Lookups.{contents_of};
ghost use Rattle.machine.specs.Frames.{settled, settle, clear, opened};
ghost use Rattle.machine.specs.Machine.{CarriesOut};
ghost use Rattle.machine.specs.Steps as step;

use machine::machine::Machine;
use machine::registers::Registers;
use reads::cells::{cell_at, put_at};
use reads::kinds::{local_kinds, parameter_kinds};
use reads::parameters::passed;
use rules::lookup::procedure_of;
use sheet::kind::Kind;
use sheet::place::CodePlace;
use sheet::procedure::Procedure;
use sheet::stop::Stop;
use sheet::table::Table;
use store::cell::Cell;
use store::store::Store;

// A working cell becomes a data cell with its value.
fn settled(cell: Cell) -> Cell
    ensures { result ≡ settled cell }
{
    match cell {
        Cell::Working(x) => Cell::Data(x),
        _ => cell,
    }
}

// The working cells from x up become data cells with their values; the kinds only say how many cells there are.
fn settle<S: Store>(store: &mut S, kinds: &[Kind], x: u32)
    requires room { x + length kinds.now < 2 ^ 32 }
    ensures { S.cells store.new ≡ settle kinds.now x (S.cells store.old) }
{
    for place in x..x + kinds.len() as u32 {
        let cell = settled(cell_at(store, place));
        put_at(store, place, cell);
    }
}

// The cells from x up become data cells of these kinds without a value.
fn clear<S: Store>(store: &mut S, kinds: &[Kind], x: u32)
    requires room { x + length kinds.now < 2 ^ 32 }
    ensures { S.cells store.new ≡ clear kinds.now x (S.cells store.old) }
{
    // Counted by hand, since with a zip with a range a call takes half as long again over a packed store.
    let mut place = x;
    for kind in kinds {
        put_at(store, place, Cell::Blank(*kind));
        place += 1;
    }
}

// The cells of the procedure's frame at m.
fn open<S: Store>(store: &mut S, table: Table<'_>, procedure: Procedure, m: u16)
    ensures { S.cells store.new ≡ opened (contents_of table.entry) procedure m (S.cells store.old) }
{
    let x = u32::from(m);
    let parameters = parameter_kinds(table, procedure);
    settle(store, parameters, x + 5);
    clear(
        store,
        local_kinds(table, procedure),
        x + 5 + parameters.len() as u32,
    );
    if let Some(kind) = procedure.result {
        put_at(store, x, Cell::Blank(kind));
    }
}

// n is the number of the instruction itself.
pub fn ent<S: Store>(
    machine: &mut Machine<'_, S>,
    table: Table<'_>,
    n: usize,
    room: u16,
    size: u16,
    next: CodePlace,
) -> Result<(), Stop>
    ensures { CarriesOut S.cells result machine.old machine.new (step.ent (contents_of table.entry) n room size next) }
{
    let procedure = procedure_of(table, n);
    let Registers { mp, last, .. } = machine.regs;
    passed(table, procedure, mp, machine.store)?;
    let height = u32::from(mp) + u32::from(size);
    let ep = u16::try_from(height.saturating_sub(1) + u32::from(room))
        .ok()
        .filter(|ep| *ep <= last)
        .ok_or(Stop::StoreFull)?;
    open(machine.store, table, procedure, mp);
    machine.regs.pc = next;
    machine.regs.height = height;
    machine.regs.ep = ep;
    Ok(())
}
