ghost use Rattle.distances.specs.Answered.{declared_by};
ghost use Rattle.peering.specs.Peered.{Peered};

mod build;
mod learn;

use distances::Distances;
use sets::{PathSet, RouterSet};

// A table with its distances, and of each router what it takes to say what it learns.
#[derive(Drop)]
pub struct Peering {
    distances: Distances,
    // Of each router: its exit paths, those of its cluster's clients, and its peers. Past the declared routers, nothing.
    exits: [PathSet; 32],
    client_exits: [PathSet; 32],
    peers: [RouterSet; 32],
    ghost right: { Peered (declared_by distances) exits client_exits peers },
}
