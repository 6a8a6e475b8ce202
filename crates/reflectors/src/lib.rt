// A network of route reflectors and their clients, for any rule of advertising: running or settled, and a run of calls on it.
#![tactic(auto)]

mod playing;
mod reached;

pub use network::{Running, Settled};
pub use playing::{Played, play};
pub use reached::Reached;
