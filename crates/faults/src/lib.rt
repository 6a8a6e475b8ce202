// Why a table or a call is refused. Every fault has a number, a layer and a place, and an upper layer's fault holds a lower one's whole.
#![tactic(auto)]

mod call;
mod fault;
mod graph;
mod layer;
mod load;
mod record;
mod table;

pub use call::CallFault;
pub use fault::Fault;
pub use graph::GraphFault;
pub use layer::Layer;
pub use load::LoadFault;
pub use record::RecordFault;
pub use table::TableFault;
