ghost use Rattle.distances.specs.Held.{Held};
ghost use Rattle.tables.specs.Accepted.{declared};

mod lookup;
mod work;

use tables::Table;

// A table, and the least distance from each of its routers to each other. The fact is a ghost field and not a model's
// invariant, so that whoever holds the distances has it, without a call.
#[derive(Drop)]
pub struct Distances {
    table: Table,
    // The cost from router a to router b in place b of row a; what lies past the declared routers is of no account.
    costs: [[u32; 32]; 32],
    ghost least: { ∥ Held (declared table) costs ∥₁ },
}
