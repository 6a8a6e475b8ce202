use network::{Running, Settled};
use rules::Rule;

/// A network, running or settled.
#[derive(Drop)]
pub enum Reached<R: Rule> {
    Running(Running<R>),
    Settled(Settled<R>),
}
