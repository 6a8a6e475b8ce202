ghost use Rattle.std.specs.Prelude.{◌≡◌, map, Ok};
ghost use Rattle.layout.specs.Checks.{repeats};
ghost use Rattle.layout.specs.WellFormed.{session_ends};
ghost use Rattle.tables.specs.Accepted.{declared};
ghost use Rattle.tables.specs.Asked.{of_routers};

use crate::table::Table;
use faults::CallFault;
use layout::Pair;

impl Table {
    // Whether a client session joins two routers, in either order. Of two undeclared ones the lower is refused.
    pub fn in_session(&self, pair: Pair) -> Result<bool, CallFault>
        ensures { result ≡ of_routers (declared self.now) pair.a pair.b
            (Ok (repeats pair (map session_ends (declared self.now).sessions))) }
    {
        self.index_of(u32::from(pair.a.min(pair.b)))?;
        self.index_of(u32::from(pair.a.max(pair.b)))?;
        Ok(self.declarations.in_session(pair))
    }
}
