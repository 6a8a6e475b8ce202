// Bytes to a checked table: the one call that reads a table, and what it gives.
#![tactic(auto)]

mod graph;
mod table;

pub use table::Table;
