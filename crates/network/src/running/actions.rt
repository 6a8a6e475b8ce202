ghost use Rattle.std.specs.Prelude.{◌≡◌, ℕ, ◌<◌, ◌↔◌, if◌then◌else◌, length, Ok, Err, OnErr, OnOk, nat_lt};
ghost use Rattle.faults.specs.declared.call.CallFault.{CallFault as Fault};
ghost use Rattle.faults.specs.declared.call.CallFault.TheVariants.{UndeclaredPath};
ghost use Rattle.layout.specs.Promise.{Reads};
ghost use Rattle.layout.specs.Reading.{table_in};
ghost use Rattle.layout.specs.Table.{Declared};
ghost use Rattle.packets.specs.Best.{exit_of};
ghost use Rattle.distances.specs.Answered.{of_router};
ghost use Rattle.protocol.specs.Alters.{Begins, Becomes};
ghost use Rattle.protocol.specs.Network.{own_of};
ghost use Rattle.protocol.specs.Consistent.{Consistent};
ghost use Rattle.protocol.specs.Moves.{Move, for_each, begun, knowing};
ghost use Rattle.protocol.specs.Moves.Move.{Injected, Withdrawn, Restarted};
ghost use Rattle.selection.specs.Laws.{AllDeclared};
ghost use Rattle.calls.specs.Calls.{loading, injecting, withdrawing, restarting, coming, done};
ghost use Rattle.calls.specs.History.{IsMove};
ghost use Rattle.calls.specs.Refusals.{RefusesAction};
ghost use Rattle.calls.specs.Typed.{TypedAction};
ghost use Rattle.calls.specs.declared.action.Action.TheVariants.{Load, Inject, Withdraw, Restart};
ghost use Rattle.network.specs.Running.{rule_of, state_of};

use crate::held::{Held, Sets};
use crate::running::Running;
use calls::Action;
use distances::Distances;
use faults::CallFault;
use layout::ExitPath;
use peering::Peering;
use rules::{Rule, advertised};
use sets::PathSet;
use tables::Table;

// Nobody knows a path.
fn nothing_known() -> Sets
    ensures injected { result.injected ≡ 0 }
    ensures known { result.known ≡ for_each (λ v. 0) }
    ensures advertised { result.advertised ≡ for_each (λ v. 0) }
{
    Sets {
        injected: PathSet::empty(),
        known: [PathSet::empty(); 32],
        advertised: [PathSet::empty(); 32],
    }
}

impl<R: Rule> Running<R> {
    /// The network without a router.
    pub fn new(rule: R) -> Self
        ensures state { state_of result ≡ begun }
        ensures rule { rule_of result ≡ rule }
    {
        Running {
            rule,
            held: Held {
                peering: None,
                sets: nothing_known(),
            },
        }
    }

    // The exit paths that are declared.
    pub(crate) fn paths(&self) -> &[ExitPath]
        ensures value { result.now ≡ (state_of self.now).table.paths }
    {
        match &self.held.peering {
            Some(peering) => peering.distances().table().paths(),
            None => &[],
        }
    }

    // The exit point of a path.
    fn exit_point(&self, path: u32) -> Result<usize, CallFault>
        ensures { result ≡ (if nat_lt path (length (state_of self.now).table.paths)
            then Ok (exit_of (state_of self.now).table path) else Err (UndeclaredPath path)) }
    {
        let Some(exit) = self.paths().get(path as usize) else {
            return Err(CallFault::UndeclaredPath(path));
        };
        Ok(exit.exit_point as usize)
    }

    // The injected paths of a router.
    fn own(&self, router: u32) -> Result<PathSet, CallFault>
        ensures { result ≡ of_router (state_of self.now).table router
            (Ok (own_of (state_of self.now).table (state_of self.now).injected router)) }
    {
        let Some(peering) = &self.held.peering else {
            return Err(CallFault::UndeclaredRouter(router));
        };
        peering.own(self.held.sets.injected, router)
    }

    // Has one router know another set, and advertise what the rule keeps of it.
    fn know(&mut self, injected: PathSet, router: usize, known: PathSet)
        requires place { router < 32 }
        requires declared { AllDeclared (state_of self.old).table.paths known }
        requires consistent { Consistent (R.kept (rule_of self.old))
            (knowing (R.kept (rule_of self.old)) (state_of self.old) injected router known) }
        ensures state { state_of self.new ≡
            knowing (R.kept (rule_of self.old)) (state_of self.old) injected router known }
        ensures rule { rule_of self.new ≡ rule_of self.old }
    {
        let mut sets = self.held.sets;
        sets.injected = injected;
        sets.known[router] = known;
        sets.advertised[router] = advertised(&self.rule, self.paths(), known);
        self.held.sets = sets;
    }

    /// Checks a table, and replaces the network by the one that it declares: nothing is injected, and nobody knows a path.
    /// Refused as the reading of the table is, with 1 to 10.
    pub fn load(&mut self, bytes: &[u8]) -> Result<(), CallFault>
        ensures value { (result, state_of self.new) ≡
            done (R.kept (rule_of self.old)) (state_of self.old) (loading bytes.now) }
        ensures begins { OnOk result
            ((t : Declared) × (table_in bytes.now ≡ Ok t) × Begins t (state_of self.new)) }
        ensures reads { Reads bytes.now (table_in bytes.now) }
        ensures refuses { (fault : Fault) →
            (result ≡ Err fault) ↔ RefusesAction (state_of self.old) (Load bytes.entry) fault }
        ensures unchanged { OnErr result (state_of self.new ≡ state_of self.old) }
        ensures rule { rule_of self.new ≡ rule_of self.old }
    {
        let table = Table::read(bytes)?;
        let peering = Some(Peering::of(Distances::of(table)));
        self.held = Held {
            peering,
            sets: nothing_known(),
        };
        Ok(())
    }

    /// Injects a path: its exit point knows it too, and advertises what the rule keeps of what it knows. Refused with 11 where
    /// the path is not declared, and with 14 where it is injected.
    pub fn inject(&mut self, path: u32) -> Result<(), CallFault>
        ensures value { (result, state_of self.new) ≡
            done (R.kept (rule_of self.old)) (state_of self.old)
            (injecting (state_of self.old) path) }
        ensures becomes { OnOk result (Becomes (R.kept (rule_of self.old))
            (state_of self.old) (state_of self.new) (Injected path)) }
        ensures refuses { (fault : Fault) →
            (result ≡ Err fault) ↔ RefusesAction (state_of self.old) (Inject path) fault }
        ensures unchanged { OnErr result (state_of self.new ≡ state_of self.old) }
        ensures rule { rule_of self.new ≡ rule_of self.old }
    {
        let router = self.exit_point(path)?;
        let injected = self.held.sets.injected;
        if injected.contains(path) {
            return Err(CallFault::AlreadyInjected(path));
        }
        let known = self.held.sets.known[router];
        self.know(injected.with(path), router, known.with(path));
        Ok(())
    }

    /// Withdraws a path: its exit point no longer knows it, and advertises what the rule keeps of what it knows. Refused with
    /// 11 where the path is not declared, and with 15 where it is not injected.
    pub fn withdraw(&mut self, path: u32) -> Result<(), CallFault>
        ensures value { (result, state_of self.new) ≡
            done (R.kept (rule_of self.old)) (state_of self.old)
            (withdrawing (state_of self.old) path) }
        ensures becomes { OnOk result (Becomes (R.kept (rule_of self.old))
            (state_of self.old) (state_of self.new) (Withdrawn path)) }
        ensures refuses { (fault : Fault) →
            (result ≡ Err fault) ↔ RefusesAction (state_of self.old) (Withdraw path) fault }
        ensures unchanged { OnErr result (state_of self.new ≡ state_of self.old) }
        ensures rule { rule_of self.new ≡ rule_of self.old }
    {
        let router = self.exit_point(path)?;
        let injected = self.held.sets.injected;
        if !injected.contains(path) {
            return Err(CallFault::NotInjected(path));
        }
        let known = self.held.sets.known[router];
        self.know(injected.without(path), router, known.without(path));
        Ok(())
    }

    /// Restarts a router: it knows only its own injected paths, and advertises what the rule keeps of them. Refused with 12
    /// where the router is not declared.
    pub fn restart(&mut self, router: u32) -> Result<(), CallFault>
        ensures value { (result, state_of self.new) ≡
            done (R.kept (rule_of self.old)) (state_of self.old)
            (restarting (state_of self.old) router) }
        ensures becomes { OnOk result (Becomes (R.kept (rule_of self.old))
            (state_of self.old) (state_of self.new) (Restarted router)) }
        ensures refuses { (fault : Fault) →
            (result ≡ Err fault) ↔ RefusesAction (state_of self.old) (Restart router) fault }
        ensures unchanged { OnErr result (state_of self.new ≡ state_of self.old) }
        ensures rule { rule_of self.new ≡ rule_of self.old }
    {
        let own = self.own(router)?;
        self.know(self.held.sets.injected, router as usize, own);
        Ok(())
    }

    /// Does what an action says. Refused as the call of that action is.
    pub fn act(&mut self, action: Action) -> Result<(), CallFault>
        ensures value { (result, state_of self.new) ≡
            done (R.kept (rule_of self.old)) (state_of self.old)
            (coming (state_of self.old) action.entry) }
        ensures becomes { OnOk result ((m : Move) × IsMove action.entry m ×
            Becomes (R.kept (rule_of self.old)) (state_of self.old) (state_of self.new) m) }
        ensures typed { TypedAction action.entry }
        ensures refuses { (fault : Fault) →
            (result ≡ Err fault) ↔ RefusesAction (state_of self.old) action.entry fault }
        ensures unchanged { OnErr result (state_of self.new ≡ state_of self.old) }
        ensures rule { rule_of self.new ≡ rule_of self.old }
    {
        match action {
            Action::Load(bytes) => self.load(bytes),
            Action::Inject(path) => self.inject(path),
            Action::Withdraw(path) => self.withdraw(path),
            Action::Restart(router) => self.restart(router),
            Action::Step(named) => self.step(named),
        }
    }
}
