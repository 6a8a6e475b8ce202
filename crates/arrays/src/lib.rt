// A list of bounded length in memory of its own.
#![tactic(auto)]

mod array_vec;

pub use array_vec::{ArrayVec, Full};
