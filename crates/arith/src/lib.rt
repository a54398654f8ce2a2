// Every operation of the sheet that computes a value from one or two.
#![tactic(auto)]

pub mod division;
mod exact;
pub mod operation;
pub mod real;
mod relation;
mod rounded;
#[cfg(test)]
mod tests;
