ghost use Rattle.std.specs.Prelude.{◌≡◌, ◌<◌, ◌≤◌, ◌↔◌, length, Err, OnErr, OnOk};
ghost use Rattle.costs.specs.Cost.{plain};
ghost use Rattle.distances.specs.Answered.{declared_by};
ghost use Rattle.faults.specs.declared.call.CallFault.{CallFault as Fault};
ghost use Rattle.forwarding.specs.Answers.{told, over_written, trace_answer, trace_bytes};
ghost use Rattle.forwarding.specs.Refusals.{TraceAsked, TraceRefused};
ghost use Rattle.packets.specs.Ways.{way};
ghost use Rattle.packets.specs.WaysPlain.{AlwaysLeaves, LeavesFrom};
ghost use Rattle.selection.specs.Laws.{AllDeclared};

use crate::best_path::{best_declared, lowest_undeclared};
use crate::hops::next_hop;
use distances::Distances;
use faults::CallFault;
use sets::PathSet;

// The most routers that a packet can meet.
const MOST_MET: usize = 32;

// The way of a packet: how many routers it meets, first and last included, and the path by which it leaves. The routers
// themselves go into the caller's buffer, as the library has no heap.
#[derive(Clone, Copy, PartialEq, Eq, Debug)]
pub struct Way {
    pub count: usize,
    pub path: u8,
}

// Follows a packet from a declared router, and writes the routers that it meets. The distances and the set come
// as `best` and `trace` take them: a struct of the two would be made for this one call.
fn follow(
    distances: &Distances,
    router: u8,
    set: PathSet,
    met: &mut [u8],
) -> Result<Option<Way>, CallFault>
    requires declared { router < length (declared_by distances.now).routers }
    requires room { 32 ≤ length met.old }
    requires all { AllDeclared (declared_by distances.now).paths set }
    ensures value { result ≡ Ok (told (way plain (declared_by distances.now) set router)) }
    ensures bytes { met.new ≡ over_written (way plain (declared_by distances.now) set router) met.old }
{
    let paths = distances.table().paths();
    let mut at = router;
    for (before, place) in met.iter_mut().enumerate() {
        let Some(path) = best_declared(distances, at as u32, set)? else {
            return Ok(None);
        };
        *place = at;
        let exit_point = paths[path as usize].exit_point;
        if exit_point == at {
            return Ok(Some(Way {
                count: before + 1,
                path,
            }));
        }
        // There always is one, from a router towards another.
        let Some(next) = next_hop(distances, at as u32, exit_point as u32)? else {
            return Ok(None);
        };
        at = next;
    }
    // No packet meets as many routers as there is room for and goes on.
    Ok(None)
}

// The way of a packet from a router, where every router takes its best path of a set of declared paths: the routers that it
// meets, one byte each, go into `met`, and bytes past them stay as they were. None where the set is empty. The distances and
// the set come apart, as in `best`.
pub fn trace(
    distances: &Distances,
    router: u32,
    set: PathSet,
    met: &mut [u8],
) -> Result<Option<Way>, CallFault>
    ensures value { result ≡ trace_answer (declared_by distances.now) set router (length met.old) }
    ensures bytes { met.new ≡ trace_bytes (declared_by distances.now) set router met.old }
    ensures asked { OnOk result
        (TraceAsked (declared_by distances.now) set router (length met.old)) }
    ensures refuses { (fault : Fault) → (result ≡ Err fault)
        ↔ TraceRefused (declared_by distances.now) set router (length met.old) fault }
    ensures unchanged { OnErr result (met.new ≡ met.old) }
    ensures leaves { router < length (declared_by distances.now).routers → LeavesFrom plain (declared_by distances.now) set router }
    ensures however { AlwaysLeaves plain (declared_by distances.now) set }
{
    if let Some(path) = lowest_undeclared(distances, set) {
        return Err(CallFault::UndeclaredPath(path));
    }
    // The router is declared.
    distances.row(router)?;
    if met.len() < MOST_MET {
        return Err(CallFault::ShortBuffer(MOST_MET));
    }
    follow(distances, router as u8, set, met)
}
