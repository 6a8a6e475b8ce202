use crate::fault::Fault;
use crate::layer::Layer;
use thiserror::Error;

// What is wrong with a whole record after those before it, and the offset of its kind byte.
#[derive(Clone, Copy, Debug, PartialEq, Eq, Error)]
pub enum TableFault {
    // It is one more than the most of its kind.
    #[error("byte {0}: the record is one more than the most of its kind")]
    TooMany(usize),
    // A field is out of range or names a router that no earlier record declares.
    #[error("byte {0}: a field of the record is out of range or names a router that no earlier record declares")]
    OutOfRange(usize),
    // A link or a session joins a router to itself, or the two routers of an earlier one of its kind.
    #[error("byte {0}: the record joins a router to itself, or two routers that an earlier one of its kind joins")]
    BadPair(usize),
    // A session joins two routers that are not both clients of the same cluster.
    #[error("byte {0}: the session joins two routers that are not both clients of the same cluster")]
    BadSession(usize),
}

impl Fault for TableFault {
    ghost use Rattle.faults.specs.Faults.{number_of, layer_of, place_of};
    ghost use Rattle.faults.specs.declared.load.LoadFault.TheVariants.{Table as in_table};

    ghost number = { λ fault. number_of (in_table fault) };

    ghost layer = { λ fault. layer_of (in_table fault) };

    ghost place = { λ fault. place_of (in_table fault) };

    fn number(self) -> u8 {
        match self {
            TableFault::TooMany(_) => 4,
            TableFault::OutOfRange(_) => 5,
            TableFault::BadPair(_) => 6,
            TableFault::BadSession(_) => 7,
        }
    }

    fn layer(self) -> Layer {
        Layer::Table
    }

    fn place(self) -> usize {
        match self {
            TableFault::TooMany(place)
            | TableFault::OutOfRange(place)
            | TableFault::BadPair(place)
            | TableFault::BadSession(place) => place,
        }
    }
}
