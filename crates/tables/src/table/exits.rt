ghost use Rattle.std.specs.Prelude.{◌≡◌, ℕ, Ok, IfOk};
ghost use Rattle.sets.specs.Members.{member};
ghost use Rattle.tables.specs.Accepted.{declared};
ghost use Rattle.tables.specs.Asked.{of_router};
ghost use Rattle.tables.specs.Exits.{exits_of, leaves_at};

use crate::table::Table;
use faults::CallFault;
use sets::PathSet;

impl Table {
    // The exit paths of a router. A loop, as a set's `filter` would take a closure, and this call would say again what that
    // answers.
    pub fn exits_at(&self, router: u32) -> Result<PathSet, CallFault>
        ensures value { result ≡
            of_router (declared self.now) router (Ok (exits_of router (declared self.now).paths)) }
        ensures members { IfOk result (λ exits. (p : ℕ) →
            member exits p ≡ leaves_at router (declared self.now).paths p) }
    {
        self.index_of(router)?;
        let mut exits = PathSet::empty();
        let paths = self.paths();
        for (p, path) in paths.iter().enumerate() {
            if path.exit_point as u32 == router {
                exits = exits.with(p as u32);
            }
        }
        Ok(exits)
    }
}
