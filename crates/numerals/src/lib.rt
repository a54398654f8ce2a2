// Numbers in fixed columns, and a text in lines.
#![tactic(auto)]

pub mod lines;
pub mod read;
pub mod write;
