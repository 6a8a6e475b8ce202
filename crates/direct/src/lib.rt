// The direct answer: which path every router of a table takes, without a network that is run.
#![tactic(auto)]

mod sending;

pub use sending::direct;
