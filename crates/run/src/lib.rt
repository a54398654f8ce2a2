// Runs of an admitted table: begun over a store, gone on with, looked into, closed; and whole lists of such calls.
#![tactic(auto)]

pub mod answer;
mod clear;
pub mod fault;
pub mod run;
pub mod undergo;
