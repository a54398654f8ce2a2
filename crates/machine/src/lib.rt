// The machine: its registers, its instructions decoded, and the definitions of one step and of many.
#![tactic(auto)]

pub mod decode;
pub mod ending;
pub mod machine;
pub mod operation;
pub mod registers;
