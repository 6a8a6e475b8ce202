ghost use Rattle.std.specs.Prelude.{map};
ghost use Rattle.layout.specs.WellFormed.{link_ends, session_ends};
ghost use Rattle.declarations.specs.Joined.{Recalls};

use crate::joined::Joined;
use arrays::ArrayVec;
use layout::{ExitPath, Link, Router, Session};

// What a table has declared so far, within the format's limits.
#[derive(Drop)]
pub struct Declarations {
    pub routers: ArrayVec<Router, 32>,
    pub links: ArrayVec<Link, 128>,
    pub sessions: ArrayVec<Session, 64>,
    pub paths: ArrayVec<ExitPath, 64>,
    // The routers that links join and those that sessions join, so that a record is held to all earlier ones by one look.
    pub(crate) linked: Joined,
    pub(crate) in_session: Joined,
    ghost of_links: { Recalls linked (map link_ends links) },
    ghost of_sessions: { Recalls in_session (map session_ends sessions) },
}
