ghost use Rattle.std.specs.Prelude.{◌≡◌};
ghost use Rattle.distances.specs.Held.{Held};
ghost use Rattle.distances.specs.Answered.{its_costs, declared_by};
ghost use Rattle.tables.specs.Accepted.{declared};

use crate::distances::Distances;
use crate::matrix::least;
use tables::Table;

impl Distances {
    // The distances between the routers of a table, worked out; a `From` would look as if the table only changed its form.
    pub fn of(table: Table) -> Distances
        ensures same { declared_by result ≡ declared table }
        ensures least { Held (declared table) (its_costs result) }
    {
        let costs = least(&table);
        Distances { table, costs }
    }
}
