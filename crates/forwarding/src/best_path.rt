ghost use Rattle.std.specs.Prelude.{◌≡◌, ℕ, ◌+◌, ◌*◌, ◌^◌, ◌<◌, ◌≤◌, ◌↔◌, length, Err, IfNone, IfOk, OnOk, Some, slice_index};
ghost use Rattle.costs.specs.Cost.{plain};
ghost use Rattle.distances.specs.Answered.{declared_by, of_router};
ghost use Rattle.faults.specs.declared.call.CallFault.{CallFault as Fault};
ghost use Rattle.forwarding.specs.Answers.{best_answer, metric_answer};
ghost use Rattle.forwarding.specs.Ranks.{rank_of};
ghost use Rattle.forwarding.specs.Refusals.{BestAsked, BestRefused};
ghost use Rattle.packets.specs.Best.{best};
ghost use Rattle.packets.specs.BestPlain.{Best, BestIs};
ghost use Rattle.selection.specs.Laws.{AllDeclared};
ghost use Rattle.selection.specs.Undeclared.{lowest_undeclared};

use distances::Distances;
use faults::CallFault;
use layout::ExitPath;
use sets::PathSet;

// The metric of a path at a router, by the distances from that router.
fn metric_over(row: &[u32], path: ExitPath) -> u32
    requires in_row { path.exit_point < length row.now }
    requires near { slice_index row.now path.exit_point + path.exit_cost < 2 ^ 32 }
    ensures { result ≡ slice_index row.now path.exit_point + path.exit_cost }
{
    row[path.exit_point as usize] + path.exit_cost as u32
}

// Where a path stands at a router, the best the lowest: the router's own exits come before any other, then the nearer,
// then the lower speaker. One number holds all three, so that one comparison decides.
fn rank(router: u32, row: &[u32], path: ExitPath) -> u64
    requires in_row { path.exit_point < length row.now }
    requires near { slice_index row.now path.exit_point + path.exit_cost < 2 ^ 31 }
    ensures value { result ≡ rank_of router row.now path }
    ensures narrow { path.speaker < 2 ^ 32 }
{
    let elsewhere = u64::from(path.exit_point as u32 != router);
    let metric = u64::from(metric_over(row, path));
    (elsewhere << 63) + (metric << 32) + u64::from(path.speaker)
}

// The lowest path of a set that is not declared.
pub(crate) fn lowest_undeclared(distances: &Distances, set: PathSet) -> Option<u32>
    ensures value { result ≡ lowest_undeclared (declared_by distances.now).paths set }
    ensures none { IfNone result (AllDeclared (declared_by distances.now).paths set) }
{
    set.least_from(distances.table().paths().len() as u32)
}

// The best path of a router of a set of declared paths.
pub(crate) fn best_declared(
    distances: &Distances,
    router: u32,
    set: PathSet,
) -> Result<Option<u8>, CallFault>
    requires { AllDeclared (declared_by distances.now).paths set }
    ensures value { result ≡ of_router (declared_by distances.now) router
        (Ok (best plain (declared_by distances.now) set router)) }
    ensures plain { IfOk result (BestIs plain (declared_by distances.now) set router) }
    ensures only { IfOk result (λ path.
        (p : ℕ) → Best plain (declared_by distances.now) set router p → path ≡ Some p) }
{
    let row = distances.row(router)?;
    let paths = distances.table().paths();
    let Some(mut first) = set.least() else {
        return Ok(None);
    };
    let mut lowest = rank(router, row, paths[first as usize]);
    // The lower numbers come before the higher, so of equal ranks the first one stays. `get` finds every path of the set; with it
    // the compiler makes the comparison a branch, which is seldom taken, and the loop is quicker than with an index.
    for p in set.without(first) {
        if let Some(path) = paths.get(p as usize) {
            let rank = rank(router, row, *path);
            if rank < lowest {
                lowest = rank;
                first = p;
            }
        }
    }
    Ok(Some(first as u8))
}

// The best path of a router of a set of declared paths: if some of the set leave at the router itself, only those count; of
// the least metric, then of the lowest speaker, then of the lowest number. None where the set is empty. The set comes apart
// from the distances, which stay while sets come and go.
pub fn best(distances: &Distances, router: u32, set: PathSet) -> Result<Option<u8>, CallFault>
    ensures value { result ≡ best_answer (declared_by distances.now) set router }
    ensures asked { OnOk result (BestAsked (declared_by distances.now) set router) }
    ensures refuses { (fault : Fault) →
        (result ≡ Err fault) ↔ BestRefused (declared_by distances.now) set router fault }
    ensures plain { IfOk result (BestIs plain (declared_by distances.now) set router) }
    ensures only { IfOk result (λ path. (p : ℕ) → Best plain (declared_by distances.now) set router p → path ≡ Some p) }
{
    if let Some(path) = lowest_undeclared(distances, set) {
        return Err(CallFault::UndeclaredPath(path));
    }
    best_declared(distances, router, set)
}

// The metric of a path at a router: the distance to its exit point and then its exit cost.
pub fn metric(distances: &Distances, router: u32, path: u32) -> Result<u32, CallFault>
    ensures value { result ≡ metric_answer (declared_by distances.now) router path }
    ensures near { IfOk result (λ m. m ≤ 32 * 65535) }
{
    let paths = distances.table().paths();
    let exit = paths
        .get(path as usize)
        .ok_or(CallFault::UndeclaredPath(path))?;
    let row = distances.row(router)?;
    Ok(metric_over(row, *exit))
}
