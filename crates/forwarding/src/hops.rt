ghost use Rattle.std.specs.Prelude.{◌≡◌, ℕ, ◌<◌, length, IfOk, Some};
ghost use Rattle.costs.specs.Cost.{plain};
ghost use Rattle.costs.specs.Least.{distance};
ghost use Rattle.distances.specs.Answered.{declared_by};
ghost use Rattle.forwarding.specs.Answers.{hop_answer};
ghost use Rattle.packets.specs.Hops.{other_end, lead_along, NextHop, HopIs};

use costs::join;
use distances::Distances;
use faults::CallFault;
use layout::{Link, Pair};

// The router that a pair joins to another.
fn other_end(ends: Pair, router: u32) -> Option<u8>
    ensures { result ≡ other_end ends router }
{
    if ends.a as u32 == router {
        Some(ends.b)
    } else if ends.b as u32 == router {
        Some(ends.a)
    } else {
        None
    }
}

// The router to which a link leads from one router towards another: from it, the rest of the distance is
// that distance but for the link.
fn along(distances: &Distances, link: Link, from: u32, towards: u32, whole: u32) -> Option<u8>
    requires ends { (link.ends.a < length (declared_by distances.now).routers) × (link.ends.b < length (declared_by distances.now).routers) }
    requires end { towards < length (declared_by distances.now).routers }
    requires whole { whole ≡ distance plain (declared_by distances.now) from towards }
    ensures { result ≡ lead_along plain (declared_by distances.now) from towards link }
{
    let next = other_end(link.ends, from)?;
    let rest = distances.between(next as u32, towards).ok()?;
    (join(link.metric as u32, rest) == whole).then_some(next)
}

// The next hop from one router towards another: the lowest-numbered router that a link joins to the first,
// and from which the rest of the distance is that distance but for the link. None from a router to itself. Inlined: what is
// refused then costs no more than the test.
#[inline]
pub fn next_hop(distances: &Distances, from: u32, towards: u32) -> Result<Option<u8>, CallFault>
    ensures value { result ≡ hop_answer (declared_by distances.now) from towards }
    ensures plain { IfOk result (HopIs plain (declared_by distances.now) from towards) }
    ensures only { IfOk result (λ next. (w : ℕ) → w < length (declared_by distances.now).routers → NextHop plain (declared_by distances.now) from towards w → next ≡ Some w) }
{
    let whole = distances.between(from, towards)?;
    let links = distances.table().links();
    let leading = links
        .iter()
        .filter_map(|link| along(distances, *link, from, towards, whole));
    Ok(leading.min())
}
