ghost use Rattle.std.specs.Prelude.{◌≡◌, ℕ, ◌<◌, length};
ghost use Rattle.protocol.specs.Network.{peers};
ghost use Rattle.sets.specs.Members.{member};
ghost use Rattle.tables.specs.Accepted.{declared};
ghost use Rattle.peering.specs.Peered.{client_by, client_exits_by, peer_by};

use layout::Pair;
use sets::{PathSet, RouterSet};
use tables::Table;

// Whether two routers are peers.
fn are_peers(table: &Table, v: usize, w: usize) -> bool
    requires one { v < length (declared table.now).routers }
    requires other { w < length (declared table.now).routers }
    ensures { result ≡ peers (declared table.now) v w }
{
    let (one, other) = (table.routers()[v], table.routers()[w]);
    if v == w {
        return false;
    }
    let reflects = !one.role.is_client();
    let other_reflects = !other.role.is_client();
    let ends = Pair {
        a: v as u8,
        b: w as u8,
    };
    reflects && other_reflects
        || one.cluster == other.cluster && (reflects || other_reflects)
        || table.in_session(ends).unwrap_or(false)
}

// The peers of a router.
pub(crate) fn peers_of(table: &Table, v: usize) -> RouterSet
    requires { v < length (declared table.now).routers }
    ensures { (w : ℕ) → member result w ≡ peer_by (declared table.now) v w }
{
    let mut peers = RouterSet::empty();
    for w in 0..table.routers().len() {
        if are_peers(table, w, v) {
            peers = peers.with(w as u32);
        }
    }
    peers
}

// Whether router w is a client of v's cluster.
fn is_client_of(table: &Table, w: usize, v: usize) -> bool
    requires one { v < length (declared table.now).routers }
    requires other { w < length (declared table.now).routers }
    ensures { result ≡ client_by (declared table.now) w v }
{
    let (one, other) = (table.routers()[v], table.routers()[w]);
    other.role.is_client() && other.cluster == one.cluster
}

// The exit paths of the clients of a router's cluster.
pub(crate) fn client_exits_of(table: &Table, v: usize) -> PathSet
    requires { v < length (declared table.now).routers }
    ensures { (p : ℕ) → member result p ≡ client_exits_by (declared table.now) v p }
{
    let mut exits = PathSet::empty();
    for (p, path) in table.paths().iter().enumerate() {
        if is_client_of(table, path.exit_point as usize, v) {
            exits = exits.with(p as u32);
        }
    }
    exits
}
