// What a table declares, and what its bytes mean: the types, the definitions and the theorems about them.
#![tactic(auto)]

mod link;
mod path;
mod router;

pub use link::{Link, Pair, Session};
pub use path::ExitPath;
pub use router::{NoRole, Role, Router};
