// The rules of tables and of operands, and what each instruction takes, gives and where it goes on.
#![tactic(auto)]

pub mod effects;
pub mod fault;
mod letters;
pub mod lookup;
pub mod operands;
pub mod procedures;
