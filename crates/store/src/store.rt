ghost use Rattle.std.specs.Prelude.{◌≡◌, List, length};
ghost use Rattle.store.specs.Cells.{all_cells, found, put_answer, put};
ghost use Rattle.store.specs.declared.cell.Cell.{Cell};

use crate::cell::Cell;
use crate::slot::{PastTheEnd, Slot};

// A store means a list of cells of fixed length.
pub trait Store {
    ghost cells: { Self → List Cell };

    fn len(&self) -> usize
        ensures value { result ≡ length (cells self.now) }
        ensures proper { all_cells (cells self.now) ≡ cells self.now };

    fn read(&self, x: Slot) -> Result<Cell, PastTheEnd>
        ensures { result ≡ found (cells self.now) x.0 };

    // Replaces cell x alone; past the end nothing changes.
    fn write(&mut self, x: Slot, c: Cell) -> Result<(), PastTheEnd>
        ensures value { result ≡ put_answer (cells self.old) x.0 }
        ensures after { cells self.new ≡ put (cells self.old) x.0 c };
}
