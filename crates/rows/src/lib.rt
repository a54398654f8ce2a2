// The stack before an instruction, as the verifier keeps it: forty bytes and a length.
#![tactic(auto)]

pub mod entry;
pub mod row;
