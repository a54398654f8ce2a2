// A table's text, read and then judged.
#![tactic(auto)]

pub mod fault;
pub mod prepare;
