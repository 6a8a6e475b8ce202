use crate::fault::Fault;
use crate::layer::Layer;
use thiserror::Error;

// What is wrong with the routers and links as a whole, and the offset of a router's record.
#[derive(Clone, Copy, Debug, PartialEq, Eq, Error)]
pub enum GraphFault {
    // There is no router.
    #[error("byte 0: there is no router")]
    NoRouter,
    // A client's cluster has no reflector: the lowest such client.
    #[error("byte {0}: the cluster of this client has no reflector")]
    NoReflector(usize),
    // No chain of links joins a router to router 0: the lowest such router.
    #[error("byte {0}: no chain of links joins this router to router 0")]
    NotJoined(usize),
}

impl Fault for GraphFault {
    ghost use Rattle.faults.specs.Faults.{number_of, layer_of, place_of};
    ghost use Rattle.faults.specs.declared.load.LoadFault.TheVariants.{Graph as in_graph};

    ghost number = { λ fault. number_of (in_graph fault) };

    ghost layer = { λ fault. layer_of (in_graph fault) };

    ghost place = { λ fault. place_of (in_graph fault) };

    fn number(self) -> u8 {
        match self {
            GraphFault::NoRouter => 8,
            GraphFault::NoReflector(_) => 9,
            GraphFault::NotJoined(_) => 10,
        }
    }

    fn layer(self) -> Layer {
        Layer::Graph
    }

    fn place(self) -> usize {
        match self {
            GraphFault::NoRouter => 0,
            GraphFault::NoReflector(place) | GraphFault::NotJoined(place) => place,
        }
    }
}
