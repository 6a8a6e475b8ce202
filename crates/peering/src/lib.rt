// Which routers are peers, and which paths each passes to another.
#![tactic(auto)]

mod peering;
mod roles;

pub use peering::Peering;
