// What each number means that a call answers: for people, so its words are only tested.
#![tactic(auto)]

pub mod explain;
