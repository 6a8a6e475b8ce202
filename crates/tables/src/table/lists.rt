ghost use Rattle.std.specs.Prelude.{◌≡◌, ◌≤◌, length};
ghost use Rattle.tables.specs.Accepted.{declared};

use crate::table::Table;
use layout::{ExitPath, Link, Router, Session};

// A method for each list, with that list's own bound: one for all would be told which list, and be no shorter.
impl Table {
    // The routers, in the order of their numbers.
    pub fn routers(&self) -> &[Router]
        ensures value { result.now ≡ (declared self.now).routers }
        ensures few { length result.now ≤ 32 }
    {
        self.declarations.routers.as_slice()
    }

    // The links, as they come.
    pub fn links(&self) -> &[Link]
        ensures value { result.now ≡ (declared self.now).links }
        ensures few { length result.now ≤ 128 }
    {
        self.declarations.links.as_slice()
    }

    // The client sessions, as they come.
    pub fn sessions(&self) -> &[Session]
        ensures value { result.now ≡ (declared self.now).sessions }
        ensures few { length result.now ≤ 64 }
    {
        self.declarations.sessions.as_slice()
    }

    // The exit paths, in the order of their numbers.
    pub fn paths(&self) -> &[ExitPath]
        ensures value { result.now ≡ (declared self.now).paths }
        ensures few { length result.now ≤ 64 }
    {
        self.declarations.paths.as_slice()
    }
}
