// What one instruction does with the stack before it: the transfer function of the verifier.
#![tactic(auto)]

pub mod breach;
pub mod entrance;
mod sent;
mod stack;
pub mod transfer;
