// What a way through the network costs: the laws of a cost, distances, the theorems about them, and the
// plain metric.
#![tactic(auto)]

mod metric;

pub use metric::{UNREACHED, join};
