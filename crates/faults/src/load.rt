use crate::fault::Fault;
use crate::graph::GraphFault;
use crate::layer::Layer;
use crate::record::RecordFault;
use crate::table::TableFault;
use thiserror::Error;

// Why a table is refused: the fault of a lower layer, whole.
#[derive(Clone, Copy, Debug, PartialEq, Eq, Error)]
pub enum LoadFault {
    #[error(transparent)]
    Record(RecordFault),
    #[error(transparent)]
    Table(TableFault),
    #[error(transparent)]
    Graph(GraphFault),
}

// By hand, an impl for each layer: what a derive writes promises nothing of the fault that it makes.

impl From<RecordFault> for LoadFault {
    ghost use Rattle.std.specs.Prelude.{◌≡◌};
    ghost use Rattle.faults.specs.declared.load.LoadFault.TheVariants.{Record};

    ghost from_gives = { λ fault whole. whole ≡ Record fault };

    fn from(fault: RecordFault) -> LoadFault {
        LoadFault::Record(fault)
    }
}

impl From<TableFault> for LoadFault {
    ghost use Rattle.std.specs.Prelude.{◌≡◌};
    ghost use Rattle.faults.specs.declared.load.LoadFault.TheVariants.{Table};

    ghost from_gives = { λ fault whole. whole ≡ Table fault };

    fn from(fault: TableFault) -> LoadFault {
        LoadFault::Table(fault)
    }
}

impl From<GraphFault> for LoadFault {
    ghost use Rattle.std.specs.Prelude.{◌≡◌};
    ghost use Rattle.faults.specs.declared.load.LoadFault.TheVariants.{Graph};

    ghost from_gives = { λ fault whole. whole ≡ Graph fault };

    fn from(fault: GraphFault) -> LoadFault {
        LoadFault::Graph(fault)
    }
}

// Each method asks the layer's own fault: three matches, as no one type stands for the three faults inside.
impl Fault for LoadFault {
    ghost use Rattle.faults.specs.Faults.{number_of, layer_of, place_of};

    ghost number = { number_of };

    ghost layer = { layer_of };

    ghost place = { place_of };

    fn number(self) -> u8 {
        match self {
            LoadFault::Record(fault) => fault.number(),
            LoadFault::Table(fault) => fault.number(),
            LoadFault::Graph(fault) => fault.number(),
        }
    }

    fn layer(self) -> Layer {
        match self {
            LoadFault::Record(fault) => fault.layer(),
            LoadFault::Table(fault) => fault.layer(),
            LoadFault::Graph(fault) => fault.layer(),
        }
    }

    fn place(self) -> usize {
        match self {
            LoadFault::Record(fault) => fault.place(),
            LoadFault::Table(fault) => fault.place(),
            LoadFault::Graph(fault) => fault.place(),
        }
    }
}
