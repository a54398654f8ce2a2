ghost use Rattle.std.specs.Prelude.{◌≡◌};
ghost use Rattle.sheet.specs.Tables.{entry_of};

use crate::kind::Kind;
use crate::place::CodePlace;

// A procedure. Its data cells are the `count` kinds from `offset` on in the table's list of cells,
// at offsets 5 and up in its frame; the first `parameters` of them are its parameters.
#[derive(Clone, Copy, PartialEq, Eq, Debug, Drop)]
pub struct Procedure {
    pub parent: u16,
    pub first: u16, // the number of its first instruction
    pub parameters: u16,
    pub result: Option<Kind>,
    pub offset: usize,
    pub count: u16,
}

impl Procedure {
    // The offset of the first data cell in a frame.
    pub const FIRST_CELL: usize = 5;

    // How many data cells there may be.
    pub const MOST_CELLS: u16 = 250;

    // What stands where there is no procedure.
    pub const NONE: Procedure = Procedure {
        parent: 0,
        first: 0,
        parameters: 0,
        result: None,
        offset: 0,
        count: 0,
    };

    // Where a call of it goes on.
    pub fn entry(self) -> CodePlace
        ensures { result ≡ entry_of self }
    {
        CodePlace(i32::from(self.first))
    }
}
