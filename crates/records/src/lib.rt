// Bytes to records: a table is a run of records, and a reader hands them out one by one.
#![tactic(auto)]

mod kind;
mod reader;
mod record;

pub use kind::{Kind, NoKind};
pub use reader::Reader;
pub use record::{Placed, Record};
