// Where values come from and where they go.
#![tactic(auto)]

pub mod host;
mod kinds;
mod line;
pub mod lines;
pub mod lists;
mod scan;
