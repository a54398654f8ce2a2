// An operation is carried out.
ghost use Rattle.std.specs.Prelude.{◌≡◌, ◌+◌};
ghost use Rattle.rules.specs.Lookups.{contents_of};
ghost use Rattle.machine.specs.Machine.{CarriesOutWith};
ghost use Rattle.machine.specs.States.{code_at};
ghost use Rattle.machine.specs.Steps.{perform};

use frames::calls::{cup, mst};
use frames::entry::ent;
use frames::returns::{retf, retp};
use host::host::Host;
use instructions::cells::{ind, ldo, sro, sto};
use instructions::links::{lda, lod, str};
use instructions::stack::{dpl, fjp, input, ldc, one, output, two, ujp};
use machine::ending::Ending;
use machine::machine::Machine;
use machine::operation::Operation;
use sheet::place::CodePlace;
use sheet::table::Table;
use store::store::Store;

fn next_place(n: u16) -> CodePlace
    ensures { result ≡ code_at (n + 1) }
{
    CodePlace(i32::from(n) + 1)
}

// n is the number of the instruction.
pub(crate) fn perform<S: Store, H: Host>(
    machine: &mut Machine<'_, S>,
    table: Table<'_>,
    n: u16,
    operation: Operation,
    host: &mut H,
) -> Result<(), Ending>
    ensures { CarriesOutWith S.cells result machine.old (H.means host.old) machine.new (H.means host.new) (perform (contents_of table.entry) n operation) }
{
    let next = next_place(n);
    let done = match operation {
        Operation::Two(op) => two(machine, op, next),
        Operation::One(op) => one(machine, op, next),
        Operation::Ldc(x) => ldc(machine, x, next),
        Operation::Dpl(t) => dpl(machine, t, next),
        Operation::Ldo(t, q) => ldo(machine, t, q, next),
        Operation::Sro(t, q) => sro(machine, t, q, next),
        Operation::Lod(t, p, q) => lod(machine, t, p, q, next),
        Operation::Str(t, p, q) => str(machine, t, p, q, next),
        Operation::Lda(p, q) => lda(machine, p, q, next),
        Operation::Ind(t) => ind(machine, t, next),
        Operation::Sto(t) => sto(machine, t, next),
        Operation::Ujp(q) => ujp(machine, q),
        Operation::Fjp(q) => fjp(machine, q, next),
        Operation::In(t) => input(machine, t, next, host),
        Operation::Out(t) => output(machine, t, next, host),
        Operation::Mst(p) => mst(machine, p, next),
        Operation::Cup(p, q) => cup(machine, table, p, q, next),
        Operation::Ent(p, q) => ent(machine, table, n as usize, p, q, next),
        Operation::Retf => retf(machine, table, n as usize),
        Operation::Retp => retp(machine),
        Operation::Hlt => return Err(Ending::Halted),
    };
    Ok(done?)
}
