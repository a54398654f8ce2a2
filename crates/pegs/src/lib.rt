// From typed text to the lines of pegs.
#![tactic(auto)]

mod fault;
mod judged;
mod parts;
pub mod set_out;
mod text;
