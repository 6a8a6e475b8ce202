// Which paths a router advertises of those it knows: the interface of a rule, its laws, and the rules.
#![tactic(auto)]

mod advertise;
mod all;
mod compare_always;
mod declared;
mod extreme;
mod five_stage;
mod per_neighbour;
mod rule;
mod shortest;

pub use advertise::advertised;
pub use all::All;
pub use compare_always::CompareAlways;
pub use extreme::Extreme;
pub use five_stage::FiveStage;
pub use per_neighbour::PerNeighbour;
pub use rule::Rule;
pub use selection::Criterion;
