ghost use Rattle.protocol.specs.Settled.{Settled as AtRest};
ghost use Rattle.network.specs.Running.{rule_of, state_of};

mod offers;

use crate::running::Running;
use rules::Rule;

/// A settled network: every router advertises exactly what the rule keeps of all injected paths.
#[derive(Drop)]
pub struct Settled<R: Rule> {
    pub(crate) running: Running<R>,
    ghost at_rest: { AtRest (R.kept (rule_of running)) (state_of running) },
}
