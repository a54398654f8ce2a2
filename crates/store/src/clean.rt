ghost use Rattle.std.specs.Prelude.{◌≡◌};
ghost use Rattle.store.specs.Cells.{clean};

use crate::cell::Cell;

impl Cell {
    // The cell that a record means.
    pub fn cleaned(self) -> Cell
        ensures { result ≡ clean self }
    {
        match self {
            Cell::Working(x) | Cell::Data(x) if !x.is_proper() => Cell::Free,
            _ => self,
        }
    }
}
