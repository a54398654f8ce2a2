ghost use Rattle.std.specs.Prelude.{◌≡◌};
ghost use Rattle.store.specs.Cells.{all_cells, put_answer, put};
ghost use Rattle.store.specs.Laws.{AWriteReplacesOneCell};
ghost use Rattle.store.specs.Meanings.{cells_of_records};

use crate::cell::Cell;
use crate::slot::{PastTheEnd, Slot};
use crate::store::Store;

// A store over a lent list of cell records; one that is no cell reads as free.
#[derive(Drop)]
pub struct Records<'a> {
    records: &'a mut [Cell],
}

impl<'a> Records<'a> {
    // `law`: what is written is read back, and nothing else changes.
    #[tactic(auto, using(crate::proofs::Lists::a_write_replaces_one_cell))]
    pub fn over(records: &'a mut [Cell]) -> Records<'a>
        ensures name { result.records.ghost_name ≡ records.entry.ghost_name }
        ensures held { cells_of_records result ≡ all_cells records.old }
        ensures law { AWriteReplacesOneCell }
    {
        Records { records }
    }
}

impl Store for Records<'_> {
    ghost cells = { cells_of_records };

    #[tactic(auto, using(crate::proofs::Lists::all_cells_again))]
    fn len(&self) -> usize {
        self.records.len()
    }

    fn read(&self, x: Slot) -> Result<Cell, PastTheEnd> {
        self.records
            .get(x.0 as usize)
            .map(|cell| cell.cleaned())
            .ok_or(PastTheEnd)
    }

    // `name` stands here, since the trait knows no list: the one that was lent holds what was written.
    #[tactic(auto, using(crate::proofs::Lists::writes))]
    fn write(&mut self, x: Slot, c: Cell) -> Result<(), PastTheEnd>
        ensures name { self.new.records.ghost_name ≡ self.old.records.ghost_name }
        ensures value { result ≡ put_answer (cells_of_records self.old) x.0 }
        ensures after { cells_of_records self.new ≡ put (cells_of_records self.old) x.0 c }
    {
        // By index, since `get_mut` does not tell what the list ends as.
        let i = x.0 as usize;
        if i >= self.records.len() {
            return Err(PastTheEnd);
        }
        self.records[i] = c;
        Ok(())
    }
}
