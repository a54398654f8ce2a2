// Cells, and stores of them.
#![tactic(auto)]

pub mod cell;
mod clean;
mod decode;
mod encode;
pub mod packed;
pub mod records;
mod shape;
pub mod slot;
pub mod store;
