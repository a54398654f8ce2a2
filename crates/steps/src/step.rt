// One step: the instruction at PC is fetched, decoded and carried out.
ghost use Rattle.std.specs.Prelude.{◌≡◌, length};
ghost use Rattle.rules.specs.Lookups.{contents_of};
ghost use Rattle.machine.specs.Machine.{CarriesOutWith};
ghost use Rattle.machine.specs.Steps.{step};

use crate::fetch::{number, operation_at};
use crate::perform::perform;
use host::host::Host;
use machine::ending::Ending;
use machine::machine::Machine;
use sheet::stop::Stop;
use sheet::table::Table;
use store::store::Store;

// What ends a run leaves everything as it was; the store keeps its length in any case.
// Length and last place are said apart: of the equation alone each caller would have to go through the instructions.
pub fn step<S: Store, H: Host>(
    machine: &mut Machine<'_, S>,
    table: Table<'_>,
    host: &mut H,
) -> Result<(), Ending>
    ensures value { CarriesOutWith S.cells result machine.old (H.means host.old) machine.new (H.means host.new) (step (contents_of table.entry)) }
    ensures long { length (S.cells machine.new.store.now) ≡ length (S.cells machine.old.store.now) }
    ensures last { machine.new.regs.last ≡ machine.old.regs.last }
{
    let n = number(machine.regs.pc).ok_or(Stop::OutsideCode)?;
    let operation = operation_at(table, n).ok_or(Stop::OutsideCode)?;
    perform(machine, table, n, operation, host)
}
