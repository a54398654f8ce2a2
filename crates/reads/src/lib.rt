// What an instruction reads from the store, and the write of one cell.
#![tactic(auto)]

pub mod cells;
pub mod kinds;
pub mod links;
pub mod parameters;
