// The parameters that a call passes.
ghost use Rattle.std.specs.Prelude.{◌≡◌, ◌+◌};
ghost use Rattle.rules.specs.Lookups.{contents_of};
ghost use Rattle.machine.specs.Frames.{passes, passed as passed_from, parameter_kinds};

use crate::cells::{cell_at, of_kind, working_in};
use crate::kinds::parameter_kinds;
use sheet::kind::Kind;
use sheet::procedure::Procedure;
use sheet::stop::Stop;
use sheet::table::Table;
use sheet::value::Value;
use store::store::Store;

// The cell at x is a working cell of this kind.
fn parameter_at<S: Store>(store: &S, kind: Kind, x: u32) -> Result<Value, Stop>
    ensures { result ≡ passes kind x (S.cells store.now) }
{
    of_kind(Stop::WrongCell, kind, working_in(cell_at(store, x))?)
}

// The parameters of a procedure whose frame is at m are working cells of their kinds.
pub fn passed<S: Store>(
    table: Table<'_>,
    procedure: Procedure,
    m: u16,
    store: &S,
) -> Result<(), Stop>
    ensures { result ≡ passed_from (parameter_kinds (contents_of table.entry) procedure) (m + 5) (S.cells store.now) }
{
    let first = u32::from(m) + 5;
    for (kind, x) in parameter_kinds(table, procedure).iter().zip(first..) {
        parameter_at(store, *kind, x)?;
    }
    Ok(())
}
