// The stack with which a procedure begins.
ghost use Rattle.std.specs.Prelude.{◌≡◌, ◌<◌, [], map, length, take, drop, MatchResult};
ghost use Rattle.pile.specs.Piles.{bottom_first, held, room};
ghost use Rattle.rows.specs.Rows.{packed};

use pile::{Full, Pile};
use rows::entry::Entry;
use rows::row::Row;
use rules::lookup::cells_at;
use sheet::kind::Kind;
use sheet::procedure::Procedure;
use sheet::table::Table;

// A value of each kind, the last on top; refused where the stack has too few places.
// The loop of `Entries::load` is the same; one for both would take a closure, with clauses for its calls and their results.
fn put_all(kinds: &[Kind], stack: &mut Pile<'_, Entry>) -> Result<(), Full>
    requires empty { held stack.old ≡ [] }
    ensures { MatchResult result (λ _. bottom_first stack.new ≡ map Entry.Value kinds.now) (λ _. room stack.old < length kinds.now) }
{
    for kind in kinds {
        stack.push(Entry::Value(*kind))?;
    }
    Ok(())
}

// Its parameters, the last on top, as a row; more than forty make none.
pub fn entry_row(table: Table<'_>, procedure: Procedure) -> Option<Row>
    ensures { result ≡ packed (map Entry.Value (take procedure.parameters (drop procedure.offset table.entry.cells.now))) }
{
    let kinds = cells_at(table, procedure.offset, procedure.parameters);
    let mut places = [Entry::Mark(0); 40];
    let mut stack = Pile::over(&mut places);
    put_all(kinds, &mut stack).ok()?;
    Row::pack(&stack)
}
