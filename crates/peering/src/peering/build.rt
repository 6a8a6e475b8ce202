ghost use Rattle.std.specs.Prelude.{◌≡◌};
ghost use Rattle.distances.specs.Answered.{declared_by};
ghost use Rattle.peering.specs.Seen.{its_distances};

use crate::peering::Peering;
use crate::roles::{client_exits_of, peers_of};
use distances::Distances;
use sets::{PathSet, RouterSet};

impl Peering {
    // What there is to know of the routers of a table.
    pub fn of(distances: Distances) -> Peering
        ensures { declared_by (its_distances result) ≡ declared_by distances }
    {
        let mut exits = [PathSet::empty(); 32];
        let mut client_exits = [PathSet::empty(); 32];
        let mut peers = [RouterSet::empty(); 32];
        let table = distances.table();
        for v in 0..table.routers().len() {
            exits[v] = table.exits_at(v as u32).unwrap_or_default();
            client_exits[v] = client_exits_of(table, v);
            peers[v] = peers_of(table, v);
        }
        Peering {
            distances,
            exits,
            client_exits,
            peers,
        }
    }

    // The table and its distances.
    pub fn distances(&self) -> &Distances
        ensures { result.now ≡ its_distances self.now }
    {
        &self.distances
    }
}
