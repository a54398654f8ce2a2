// The text of tables and of values, in fixed columns.
#![tactic(auto)]

pub mod fault;
mod letters;
pub mod line;
mod lists;
pub mod table_text;
pub mod value_line;
pub mod value_text;
pub mod verdict;
