use peering::Peering;
use sets::PathSet;

// The sets of a network: the injected paths, and for each router number what the router knows and what it advertises.
#[derive(Clone, Copy)]
pub(crate) struct Sets {
    pub(crate) injected: PathSet,
    pub(crate) known: [PathSet; 32],
    pub(crate) advertised: [PathSet; 32],
}

// What a network holds: its table, once there is one, and its sets.
#[derive(Drop)]
pub(crate) struct Held {
    pub(crate) peering: Option<Peering>,
    pub(crate) sets: Sets,
}
