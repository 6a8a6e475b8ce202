ghost use Rattle.std.specs.Prelude.{◌≡◌, ℕ, ◌<◌, ◌≤◌, length, All, slice_index};
ghost use Rattle.costs.specs.Cost.{plain, lesser};
ghost use Rattle.costs.specs.Least.{by_links};
ghost use Rattle.distances.specs.Held.{cost_at, Costs, unlinked_cost, cost_through, Held};
ghost use Rattle.layout.specs.WellFormed.{LinkFits};
ghost use Rattle.tables.specs.Accepted.{declared};

use costs::{UNREACHED, join};
use layout::Link;
use tables::Table;

// The costs between routers that no link joins.
fn unlinked() -> [[u32; 32]; 32]
    ensures { Costs 32 unlinked_cost result }
{
    let mut costs = [[UNREACHED; 32]; 32];
    for (v, row) in costs.iter_mut().enumerate() {
        row[v] = 0;
    }
    costs
}

// Lowers the costs to those of the links.
fn link(costs: &mut [[u32; 32]; 32], links: &[Link])
    requires { All (LinkFits 32) links.now }
    ensures { Costs 32 (λ a b. by_links plain (cost_at costs.old a b) links.now a b) costs.new }
{
    for link in links {
        let a = link.ends.a as usize;
        let b = link.ends.b as usize;
        let metric = link.metric as u32;
        costs[a][b] = costs[a][b].min(metric);
        costs[b][a] = costs[b][a].min(metric);
    }
}

// Lowers each cost of a row to that of the way that costs `through` and then goes on by `via`, where that is lower.
fn relax(row: &mut [u32; 32], through: u32, via: &[u32; 32])
    ensures { (j : ℕ) → j < 32 → slice_index row.new j ≡ lesser plain (slice_index row.old j) (plain.join through (slice_index via.now j)) }
{
    // By place and not by `zip`: of what is written through a `zip` a proof knows only how long it is.
    for (j, cost) in row.iter_mut().enumerate() {
        *cost = (*cost).min(join(through, via[j]));
    }
}

// Lowers the costs between the first routers, a row for each, to those of the ways through router `k`.
fn pass(costs: &mut [[u32; 32]], k: usize)
    requires few { length costs.old ≤ 32 }
    requires declared { k < length costs.old }
    ensures { Costs (length costs.old) (cost_through k costs.old) costs.new }
{
    let via = costs[k];
    for row in costs {
        let through = row[k];
        relax(row, through, &via);
    }
}

// The least costs between the routers of a table.
pub(crate) fn least(table: &Table) -> [[u32; 32]; 32]
    ensures { Held (declared table.now) result }
{
    let mut costs = unlinked();
    link(&mut costs, table.links());
    let rows = &mut costs[..table.routers().len()];
    // `k` is the number of a router, which the pass is told.
    for k in 0..rows.len() {
        pass(rows, k);
    }
    costs
}
