// The instructions that stay in their frame, over any store and any host.
#![tactic(auto)]

pub mod cells;
pub mod links;
pub mod stack;
