// Which path a router takes, to which next hop, and the way of a packet.
#![tactic(auto)]

mod best_path;
mod hops;
mod packet;

pub use best_path::{best, metric};
pub use hops::next_hop;
pub use packet::{Way, trace};
