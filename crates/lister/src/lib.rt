// The listing of a table's text for people. Its last line, the verdict, is proved; the lines before it are only tested.
#![tactic(auto)]

mod again;
mod blame;
mod field;
mod grid;
mod ill_formed;
mod not_allowed;
mod notes;
mod parts;
mod quote;
mod refusal;
mod row;
mod stack;
pub mod text;
mod why;
mod words;
