// Records to declarations: each record is checked against those before it.
#![tactic(auto)]

mod declarations;
mod declare;
mod joined;
mod numbers;

pub use declarations::Declarations;
