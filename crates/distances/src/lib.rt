// A table, and the least distance from each of its routers to each other.
#![tactic(auto)]

mod distances;
mod matrix;

pub use distances::Distances;
