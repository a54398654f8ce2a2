// The instructions that make, open and leave a frame, over any store.
#![tactic(auto)]

pub mod calls;
pub mod entry;
pub mod returns;
