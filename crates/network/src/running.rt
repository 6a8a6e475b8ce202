ghost use Rattle.protocol.specs.Consistent.{Consistent};
ghost use Rattle.network.specs.Held.{state_held};

mod actions;
mod questions;
mod reports;
mod steps;

use crate::held::Held;
use rules::Rule;

/// A running network, under one rule from its making to its end. That it is consistent is a ghost field, so whoever holds a
/// network has the fact. It is proved anew at each assignment to `held`, so `held` changes in one.
#[derive(Drop)]
pub struct Running<R: Rule> {
    rule: R,
    held: Held,
    ghost consistent: { Consistent (R.kept rule) (state_held held) },
}
