// The sheet: kinds and values, mnemonics and their operand shapes, instructions, procedures and tables.
#![tactic(auto)]

pub mod instruction;
pub mod kind;
pub mod mnemonic;
pub mod operation;
pub mod place;
pub mod procedure;
pub mod shape;
pub mod stop;
pub mod table;
pub mod value;
