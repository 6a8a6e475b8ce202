ghost use Rattle.std.specs.Prelude.{◌≡◌, Ok};
ghost use Rattle.tables.specs.Accepted.{declared};
ghost use Rattle.tables.specs.Asked.{of_router};

use crate::table::Table;
use faults::CallFault;

impl Table {
    // The index of a router, where it is declared.
    pub fn index_of(&self, router: u32) -> Result<usize, CallFault>
        ensures { result ≡ of_router (declared self.now) router (Ok router) }
    {
        let v = router as usize;
        if v >= self.routers().len() {
            return Err(CallFault::UndeclaredRouter(router));
        }
        Ok(v)
    }
}
