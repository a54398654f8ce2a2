// Many steps.
ghost use Rattle.std.specs.Prelude.{◌≡◌, length};
ghost use Rattle.rules.specs.Lookups.{contents_of};
ghost use Rattle.machine.specs.Machine.{state_of};
ghost use Rattle.machine.specs.Runs.{Went, go};

use crate::step::step;
use host::host::Host;
use machine::ending::Ending;
use machine::machine::Machine;
use sheet::table::Table;
use store::store::Store;

// The steps made, and what ended them sooner.
#[derive(Clone, Copy, Drop)]
pub struct Gone {
    pub count: u32,
    pub ending: Option<Ending>,
}

// n steps, or as many as there are; length and last place are said apart, as at `step`.
pub fn go_on<S: Store, H: Host>(
    machine: &mut Machine<'_, S>,
    table: Table<'_>,
    n: u32,
    host: &mut H,
) -> Gone
    ensures store { machine.new.store.ghost_name ≡ machine.old.store.ghost_name }
    ensures value { ◌≡◌ {A = Went} (record { state = state_of S.cells machine.new (H.means host.new); count = result.count; ending = result.ending }) (go (contents_of table.entry) n (state_of S.cells machine.old (H.means host.old))) }
    ensures long { length (S.cells machine.new.store.now) ≡ length (S.cells machine.old.store.now) }
    ensures last { machine.new.regs.last ≡ machine.old.regs.last }
{
    for i in 0..n {
        if let Err(ending) = step(machine, table, host) {
            return Gone {
                count: i,
                ending: Some(ending),
            };
        }
    }
    Gone {
        count: n,
        ending: None,
    }
}
