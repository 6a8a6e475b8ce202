ghost use Rattle.std.specs.Prelude.{◌≡◌, ◌≤◌, ◌↔◌, Err, OnErr, OnOk, length};
ghost use Rattle.faults.specs.declared.call.CallFault.{CallFault as Fault};
ghost use Rattle.protocol.specs.Alters.{Becomes};
ghost use Rattle.protocol.specs.Consistent.{Declares};
ghost use Rattle.protocol.specs.Moves.{activated, after_all, one_by_one, all_of};
ghost use Rattle.protocol.specs.Moves.Move.{Activated};
ghost use Rattle.protocol.specs.Settled.{Settled as AtRest, stretch};
ghost use Rattle.calls.specs.Calls.{stepping, done};
ghost use Rattle.calls.specs.Refusals.{RefusesAction};
ghost use Rattle.calls.specs.declared.action.Action.TheVariants.{Step};
ghost use Rattle.network.specs.Running.{rule_of, state_of};
ghost use Rattle.network.specs.Settled.{rule_of as settled_rule, state_of as settled_state};

use crate::running::Running;
use crate::settled::Settled;
use faults::CallFault;
use rules::Rule;
use sets::RouterSet;

// The rounds of settling.
const ROUNDS: u32 = 7;

impl<R: Rule> Running<R> {
    // How many routers are declared.
    pub(crate) fn count(&self) -> usize
        ensures value { result ≡ length (state_of self.now).table.routers }
        ensures few { result ≤ 32 }
    {
        match &self.held.peering {
            Some(peering) => peering.distances().table().routers().len(),
            None => 0,
        }
    }

    // Each router of a set learns from its peers as they stood before.
    fn activate(&mut self, named: RouterSet)
        requires { Declares (state_of self.old) named }
        ensures state { state_of self.new ≡
            activated (R.kept (rule_of self.old)) (state_of self.old) named }
        ensures rule { rule_of self.new ≡ rule_of self.old }
    {
        let Some(peering) = &self.held.peering else {
            return;
        };
        self.held.sets.activate(&self.rule, peering, named);
    }

    // A step of a set of routers.
    fn step_of(&mut self, named: RouterSet) -> Result<(), CallFault>
        ensures value { (result, state_of self.new) ≡
            done (R.kept (rule_of self.old)) (state_of self.old)
            (stepping (state_of self.old) named) }
        ensures rule { rule_of self.new ≡ rule_of self.old }
    {
        if let Some(router) = named.least_from(self.count() as u32) {
            return Err(CallFault::UndeclaredRouter(router));
        }
        if named.is_empty() {
            return Err(CallFault::NoRouterNamed);
        }
        self.activate(named);
        Ok(())
    }

    /// A step of a set of routers, bit n for router n: each of them learns what its peers, as they were before the call, pass
    /// to it. Refused with 12 at the lowest router of the set that is not declared, and with 13 where the set is empty.
    pub fn step(&mut self, named: u32) -> Result<(), CallFault>
        ensures value { (result, state_of self.new) ≡
            done (R.kept (rule_of self.old)) (state_of self.old)
            (stepping (state_of self.old) named) }
        ensures becomes { OnOk result (Becomes (R.kept (rule_of self.old))
            (state_of self.old) (state_of self.new) (Activated named)) }
        ensures refuses { (fault : Fault) →
            (result ≡ Err fault) ↔ RefusesAction (state_of self.old) (Step named) fault }
        ensures unchanged { OnErr result (state_of self.new ≡ state_of self.old) }
        ensures rule { rule_of self.new ≡ rule_of self.old }
    {
        self.step_of(RouterSet::from(named))
    }

    // One router a step, in the order of their numbers.
    fn round(&mut self)
        ensures state { state_of self.new ≡
            after_all (R.kept (rule_of self.old)) (state_of self.old)
            (stretch (one_by_one (length (state_of self.old).table.routers))) }
        ensures rule { rule_of self.new ≡ rule_of self.old }
    {
        for v in 0..self.count() {
            self.activate(RouterSet::empty().with(v as u32));
        }
    }

    // One router a step, in the order of their numbers, and that seven times. Not inlined: a caller that is handed the network
    // and hands it on stays short enough to be inlined itself, and then copies it fewer times.
    #[inline(never)]
    fn rounds(&mut self)
        ensures state { state_of self.new ≡
            after_all (R.kept (rule_of self.old)) (state_of self.old)
            (stretch (all_of (length (state_of self.old).table.routers) 7)) }
        ensures rule { rule_of self.new ≡ rule_of self.old }
    {
        for _ in 0..ROUNDS {
            self.round();
        }
    }

    /// Settles the network: seven rounds, one router a step, in the order of their numbers.
    pub fn settle(self) -> Settled<R>
        ensures state { settled_state result ≡ after_all (R.kept (rule_of self)) (state_of self)
            (stretch (all_of (length (state_of self).table.routers) 7)) }
        ensures settled { AtRest (R.kept (rule_of self)) (settled_state result) }
        ensures table { (settled_state result).table ≡ (state_of self).table }
        ensures injected { (settled_state result).injected ≡ (state_of self).injected }
        ensures rule { settled_rule result ≡ rule_of self }
    {
        let mut running = self;
        running.rounds();
        Settled { running }
    }
}
