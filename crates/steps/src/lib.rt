// One step of the machine, and many.
#![tactic(auto)]

mod fetch;
pub mod go;
mod perform;
pub mod step;
