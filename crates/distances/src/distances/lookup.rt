ghost use Rattle.std.specs.Prelude.{◌≡◌, ◌*◌, ◌≤◌, length, take, IfOk, All};
ghost use Rattle.distances.specs.Answered.{its_table, declared_by, read, of_router, row_answer, between_answer};

use crate::distances::Distances;
use faults::CallFault;
use tables::Table;

// The costs of a row to the first `count` routers. By itself, since within the array a proof loses how long a row is.
fn front(row: &[u32; 32], count: usize) -> &[u32]
    requires { count ≤ 32 }
    ensures value { result.now ≡ take count row.now }
    ensures whole { length result.now ≡ count }
{
    &row[..count]
}

impl Distances {
    // The table whose distances these are.
    pub fn table(&self) -> &Table
        ensures { result.now ≡ its_table self.now }
    {
        &self.table
    }

    // The index of a router, where it is declared.
    fn index_of(&self, router: u32) -> Result<usize, CallFault>
        ensures { result ≡ of_router (declared_by self.now) router (Ok router) }
    {
        let v = router as usize;
        if v >= self.table.routers().len() {
            return Err(CallFault::UndeclaredRouter(router));
        }
        Ok(v)
    }

    // The distances from a router to every declared one.
    pub fn row(&self, router: u32) -> Result<&[u32], CallFault>
        ensures value { read result ≡ row_answer (declared_by self.now) router }
        ensures near { IfOk result (λ row. All (λ d. d ≤ 31 * 65535) row.now) }
    {
        let v = self.index_of(router)?;
        Ok(front(&self.costs[v], self.table.routers().len()))
    }

    // The distance from one router to another. Of two undeclared ones the lower is refused.
    pub fn between(&self, from: u32, to: u32) -> Result<u32, CallFault>
        ensures value { result ≡ between_answer (declared_by self.now) from to }
        ensures near { IfOk result (λ d. d ≤ 31 * 65535) }
    {
        self.index_of(from.min(to))?;
        self.index_of(from.max(to))?;
        Ok(self.costs[from as usize][to as usize])
    }
}
