// A network of route reflectors and their clients under one rule, running or settled: what is held of it, and its calls.
#![tactic(auto)]

mod activation;
mod held;
mod running;
mod settled;

pub use running::Running;
pub use settled::Settled;
