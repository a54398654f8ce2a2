// Judging tables on every path.
#![tactic(auto)]

mod call;
pub mod flaw;
pub mod meet;
mod verifier;

pub use call::{check_rules, judge};
