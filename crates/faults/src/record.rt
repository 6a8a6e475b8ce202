use crate::fault::Fault;
use crate::layer::Layer;
use thiserror::Error;

// What is wrong with the bytes of a record, and the offset of its kind byte.
#[derive(Clone, Copy, Debug, PartialEq, Eq, Error)]
pub enum RecordFault {
    // The first byte is no kind.
    #[error("byte {0}: the kind of the record is unknown")]
    UnknownKind(usize),
    // The bytes end inside the record.
    #[error("byte {0}: the bytes end inside the record")]
    CutShort(usize),
    // The kind is lower than that of the record before.
    #[error("byte {0}: the kind of the record is lower than that of the one before")]
    KindFalls(usize),
}

impl Fault for RecordFault {
    ghost use Rattle.faults.specs.Faults.{number_of, layer_of, place_of};
    ghost use Rattle.faults.specs.declared.load.LoadFault.TheVariants.{Record as in_record};

    ghost number = { λ fault. number_of (in_record fault) };

    ghost layer = { λ fault. layer_of (in_record fault) };

    ghost place = { λ fault. place_of (in_record fault) };

    fn number(self) -> u8 {
        match self {
            RecordFault::UnknownKind(_) => 1,
            RecordFault::CutShort(_) => 2,
            RecordFault::KindFalls(_) => 3,
        }
    }

    fn layer(self) -> Layer {
        Layer::Record
    }

    fn place(self) -> usize {
        match self {
            RecordFault::UnknownKind(place)
            | RecordFault::CutShort(place)
            | RecordFault::KindFalls(place) => place,
        }
    }
}
