// What a rule keeps of a set of paths: the definitions, the laws and the theorems about them.
#![tactic(auto)]

mod criterion;

pub use criterion::Criterion;
