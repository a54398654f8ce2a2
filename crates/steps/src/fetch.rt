// The operation at a place in the code.
ghost use Rattle.std.specs.Prelude.{◌≡◌};
ghost use Rattle.std.specs.List.{slice_get};
ghost use Rattle.machine.specs.Steps.{decoded};
ghost use Rattle.steps.specs.Places.{number};

use machine::decode::decode;
use machine::operation::Operation;
use sheet::place::CodePlace;
use sheet::table::Table;

// The number of the instruction at a place; no table has 4,097 instructions.
pub(crate) fn number(place: CodePlace) -> Option<u16>
    ensures { result ≡ number place.0 }
{
    u16::try_from(place.0).ok().filter(|n| *n < 4096)
}

pub(crate) fn operation_at(table: Table<'_>, n: u16) -> Option<Operation>
    ensures { result ≡ decoded (slice_get table.entry.code.now n) }
{
    table.code.get(usize::from(n)).and_then(|x| decode(*x))
}
