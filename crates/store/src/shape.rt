// What a packed cell's numbers mean, for both ways.

// The shapes, in the lowest three bits of a code; the kind is in the others.
pub(crate) const FREE: u8 = 0;

pub(crate) const MARK: u8 = 1;

pub(crate) const WORKING: u8 = 2;

pub(crate) const DATA: u8 = 3;

pub(crate) const BLANK: u8 = 4;

// How many shapes a code can tell apart.
pub(crate) const SHAPES: u8 = 8;

// The word of the number 0, since the lowest number has the word 0.
pub(crate) const ZERO: i64 = 0x8000_0000;
