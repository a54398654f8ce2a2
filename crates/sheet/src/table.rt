use crate::instruction::Instruction;
use crate::kind::Kind;
use crate::procedure::Procedure;

// A table as three lent lists; a procedure's cells follow those of the one before it.
// By offset and count, as the format says: slices of the cells would be places that cannot be lent before the cells are read.
#[derive(Clone, Copy, Drop)]
pub struct Table<'a> {
    pub procedures: &'a [Procedure],
    pub cells: &'a [Kind],
    pub code: &'a [Instruction],
}
