ghost use Rattle.std.specs.Prelude.{◌≡◌, true};
ghost use Rattle.rows.specs.Rows.{is_row};

use rows::row::Row;
use rules::effects::Way;

// The stack that an instruction leaves, and where it goes on with it.
#[derive(Clone, Copy, Drop)]
pub struct Sent {
    pub row: Row,
    pub way: Way,
    ghost reached: { is_row row ≡ true },
}
