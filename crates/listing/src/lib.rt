// The list of a network in text: a line for each router.
#![tactic(auto)]

mod lines;

pub use lines::{MOST_BYTES, list};
