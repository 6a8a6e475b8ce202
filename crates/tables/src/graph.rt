ghost use Rattle.std.specs.Prelude.{◌≡◌, ◌≤◌, map, take, All};
ghost use Rattle.std.specs.List.{position, range_with_len};
ghost use Rattle.layout.specs.Graph.{reflects, has_reflector, unled, relabelled, Labellable, labels, cut_off};

use layout::{Link, Router};
use std::array;

// Whether a router is a reflector of a cluster.
fn reflects(router: Router, cluster: u8) -> bool
    ensures { result ≡ reflects cluster router }
{
    !router.role.is_client() && router.cluster == cluster
}

// Whether a cluster has a reflector.
fn reflected(cluster: u8, routers: &[Router]) -> bool
    ensures { result ≡ has_reflector cluster routers.now }
{
    routers.iter().any(|router| reflects(*router, cluster))
}

// Whether a router is a client of a cluster without a reflector.
fn is_unled(router: Router, routers: &[Router]) -> bool
    ensures { result ≡ unled routers.now router }
{
    router.role.is_client() && !reflected(router.cluster, routers)
}

// The first such client.
pub(crate) fn unled_client(routers: &[Router]) -> Option<usize>
    ensures { result ≡ position (unled routers.now) routers.now }
{
    routers.iter().position(|router| is_unled(*router, routers))
}

// Gives the new label to all that have the old one.
fn relabel(labels: &mut [u8], old: u8, new: u8)
    ensures { labels.new ≡ map (relabelled old new) labels.old }
{
    for label in labels.iter_mut() {
        if *label == old {
            *label = new;
        }
    }
}

// Each router labelled by its own number.
fn own_labels() -> [u8; 32]
    ensures { result ≡ range_with_len 0 32 }
{
    array::from_fn(|v| v as u8)
}

// Labels of the routers: one label for all that links join.
fn labelled(links: &[Link]) -> [u8; 32]
    requires { All Labellable links.now }
    ensures { result ≡ labels links.now }
{
    let mut labels = own_labels();
    for link in links {
        let new = labels[link.ends.a as usize];
        let old = labels[link.ends.b as usize];
        relabel(&mut labels, old, new);
    }
    labels
}

// The first of `count` routers that links do not join to router 0.
pub(crate) fn cut_off_router(count: usize, links: &[Link]) -> Option<usize>
    requires { All Labellable links.now }
    ensures { result ≡ position (cut_off (labels links.now)) (take count (labels links.now)) }
{
    let labels = labelled(links);
    let first = labels[0];
    labels.iter().take(count).position(|label| *label != first)
}
