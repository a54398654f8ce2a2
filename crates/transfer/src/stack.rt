// A stack under judgement: a row is loaded, entries are taken off and given.
ghost use Rattle.std.specs.Prelude.{◌≡◌, ◌+◌, ◌≤◌, true, [], ◌∷◌, ◌++◌, reverse, ◌<◌, ◌^◌, sum_by};
ghost use Rattle.rules.specs.Lookups.{contents_of};
ghost use Rattle.pile.specs.Piles.{held, depth, room};
ghost use Rattle.rows.specs.Entries.{cells_of_entry};
ghost use Rattle.rows.specs.Rows.{is_row};
ghost use Rattle.transfer.specs.Stacks.{cells_on, listed, less_kinds, less_mark, less, more, Took, Gave};
ghost use Rattle.transfer.specs.Transfer.{stack_of};

use crate::breach::Breach;
use pile::Pile;
use rows::entry::Entry;
use rows::row::Row;
use rules::effects::{Gives, Takes};
use rules::lookup::{ancestor, cells_at};
use sheet::kind::Kind;
use sheet::table::Table;

// Kept on a pile of forty places, as many as a row may have entries.
#[derive(Drop)]
pub(crate) struct Entries<'a> {
    pub(crate) pile: Pile<'a, Entry>,
    ghost forty: { room pile ≡ 40 },
}

// The cells of the store that the entries stand for.
fn cells_of(entries: &[Entry]) -> usize
    requires { sum_by cells_of_entry entries.now < 2 ^ 64 }
    ensures { result ≡ sum_by cells_of_entry entries.now }
{
    entries.iter().map(|entry| entry.cells()).sum()
}

impl<'a> Entries<'a> {
    // An empty stack over these places.
    pub(crate) fn over(places: &'a mut [Entry; 40]) -> Entries<'a>
        ensures { held result.pile ≡ [] }
    {
        Entries {
            pile: Pile::over(places),
        }
    }

    // Puts a row's entries on an empty stack; a record may be no row, so the call asks that it is one.
    // What is a row has no type of its own: rows are lent as records, and such a type would stand beside `Row`.
    // The loop of `put_all` is the same; one for both would take a closure, with clauses for its calls and their results.
    pub(crate) fn load(&mut self, row: Row)
        requires row { is_row row ≡ true }
        requires empty { held self.old.pile ≡ [] }
        ensures { held self.new.pile ≡ stack_of row }
    {
        for byte in row.entry_bytes() {
            // never refused: there are forty places
            let _ = self.pile.push(Entry::from(*byte));
        }
    }

    // Takes a value of this kind off the top.
    fn take_kind(&mut self, kind: Kind) -> Result<(), Breach>
        ensures { Took result (less_kinds (kind ∷ []) (held self.old.pile)) (held self.new.pile) }
    {
        match self.pile.pop() {
            Some(Entry::Value(top)) if top == kind => Ok(()),
            _ => Err(Breach::WrongStack),
        }
    }

    // By two tests and no loop over both, which would need an invariant.
    fn take_kinds(&mut self, top: Option<Kind>, below: Option<Kind>) -> Result<(), Breach>
        ensures { Took result (less_kinds (listed top ++ listed below) (held self.old.pile)) (held self.new.pile) }
    {
        if let Some(kind) = top {
            self.take_kind(kind)?;
        }
        if let Some(kind) = below {
            self.take_kind(kind)?;
        }
        Ok(())
    }

    // The last of the list is on top.
    fn take_all(&mut self, kinds: &[Kind]) -> Result<(), Breach>
        ensures { Took result (less_kinds (reverse kinds.now) (held self.old.pile)) (held self.new.pile) }
    {
        for kind in kinds.iter().rev() {
            self.take_kind(*kind)?;
        }
        Ok(())
    }

    // Takes off a mark that leads from one procedure to the other.
    fn take_mark(&mut self, table: Table<'_>, from: usize, to: usize) -> Result<(), Breach>
        ensures { Took result (less_mark (contents_of table.entry) from to (held self.old.pile)) (held self.new.pile) }
    {
        match self.pile.pop() {
            Some(Entry::Mark(links)) if ancestor(table, links as usize, from) == Some(to) => Ok(()),
            _ => Err(Breach::WrongStack),
        }
    }

    // What an instruction of procedure `owner` takes.
    pub(crate) fn take(
        &mut self,
        table: Table<'_>,
        owner: usize,
        takes: Takes,
    ) -> Result<(), Breach>
        ensures { Took result (less (contents_of table.entry) owner takes (held self.old.pile)) (held self.new.pile) }
    {
        match takes {
            Takes::Kinds(top, below) => self.take_kinds(top, below),
            Takes::Parameters(procedure) => {
                self.take_all(cells_at(table, procedure.offset, procedure.parameters))
            }
            Takes::Call(procedure) => {
                self.take_all(cells_at(table, procedure.offset, procedure.parameters))?;
                self.take_mark(table, owner, usize::from(procedure.parent))
            }
        }
    }

    // The cells of the store that they stand for.
    pub(crate) fn cells(&self) -> usize
        ensures cells { result ≡ cells_on (held self.now.pile) }
        ensures few { result ≤ 200 }
    {
        cells_of(self.pile.as_slice())
    }

    // What an instruction gives; there are places for it where its cells fit the procedure.
    pub(crate) fn give(&mut self, gives: Gives) -> Result<(), Breach>
        ensures { Gave result gives (depth self.old.pile) 40 (more gives (held self.old.pile)) (held self.new.pile) }
    {
        match gives {
            Gives::Nothing => {}
            Gives::One(kind) => self.pile.push(Entry::Value(kind))?,
            Gives::Two(kind) => {
                self.pile.push(Entry::Value(kind))?;
                self.pile.push(Entry::Value(kind))?;
            }
            Gives::Mark(links) => {
                let links = u8::try_from(links)
                    .ok()
                    .filter(|links| *links < 8)
                    .ok_or(Breach::WrongStack)?;
                self.pile.push(Entry::Mark(links))?;
            }
        }
        Ok(())
    }
}
