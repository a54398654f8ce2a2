// The kinds of the data cells of a procedure, as far as the table has them.
ghost use Rattle.std.specs.Prelude.{◌≡◌, ◌≤◌, length};
ghost use Rattle.rules.specs.Lookups.{contents_of};
ghost use Rattle.machine.specs.Frames.{parameter_kinds, local_kinds};

use rules::lookup::cells_at;
use sheet::kind::Kind;
use sheet::procedure::Procedure;
use sheet::table::Table;

pub fn parameter_kinds<'a>(table: Table<'a>, procedure: Procedure) -> &'a [Kind]
    ensures value { result.now ≡ parameter_kinds (contents_of table.entry) procedure }
    ensures short { length result.now ≤ 65535 }
{
    let kinds = cells_at(table, procedure.offset, procedure.count);
    kinds
        .get(..usize::from(procedure.parameters))
        .unwrap_or(kinds)
}

pub fn local_kinds<'a>(table: Table<'a>, procedure: Procedure) -> &'a [Kind]
    ensures value { result.now ≡ local_kinds (contents_of table.entry) procedure }
    ensures short { length result.now ≤ 65535 }
{
    let kinds = cells_at(table, procedure.offset, procedure.count);
    kinds
        .get(usize::from(procedure.parameters)..)
        .unwrap_or(&[])
}
