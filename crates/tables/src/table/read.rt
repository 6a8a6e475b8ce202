ghost use Rattle.std.specs.Prelude.{◌≡◌};
ghost use Rattle.layout.specs.Answer.{AnswerTells};
ghost use Rattle.layout.specs.Graph.{whole};
ghost use Rattle.layout.specs.Promise.{Reads};
ghost use Rattle.layout.specs.Reading.{table_in};
ghost use Rattle.layout.specs.WellFormed.{Sound};
ghost use Rattle.tables.specs.Accepted.{answer};
ghost use Rattle.declarations.specs.Held.{declared_in};

use crate::graph::{cut_off_router, unled_client};
use crate::table::Table;
use declarations::Declarations;
use faults::{GraphFault, LoadFault};
use records::Reader;

// The offset of a router's record: routers come first, with three bytes each.
const ROUTER_LEN: usize = 3;

// The table of these declarations, or the first rule that they break as a whole.
fn checked(declarations: Declarations) -> Result<Table, GraphFault>
    requires { Sound (declared_in declarations) }
    ensures { answer result ≡ whole (declared_in declarations) }
{
    let count = declarations.routers.len();
    if count == 0 {
        return Err(GraphFault::NoRouter);
    }
    if let Some(v) = unled_client(declarations.routers.as_slice()) {
        return Err(GraphFault::NoReflector(ROUTER_LEN * v));
    }
    if let Some(v) = cut_off_router(count, declarations.links.as_slice()) {
        return Err(GraphFault::NotJoined(ROUTER_LEN * v));
    }
    Ok(Table { declarations })
}

impl Table {
    // The table that these bytes are, or why they are none.
    pub fn read(bytes: &[u8]) -> Result<Table, LoadFault>
        ensures value { answer result ≡ table_in bytes.now }
        ensures promise { Reads bytes.now (answer result) }
        ensures told { AnswerTells bytes.now (answer result) }
    {
        let mut declarations = Declarations::new();
        let mut reader = Reader::new(bytes);
        while let Some(found) = reader.next()? {
            declarations.declare(found)?;
        }
        Ok(checked(declarations)?)
    }
}
