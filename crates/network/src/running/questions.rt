ghost use Rattle.std.specs.Prelude.{◌≡◌, ℕ, ◌<◌, ◌↔◌, Err, Ok, IfOk, IsTrue, None, Some};
ghost use Rattle.costs.specs.Cost.{plain};
ghost use Rattle.distances.specs.Answered.{of_router};
ghost use Rattle.faults.specs.declared.call.CallFault.{CallFault as Fault};
ghost use Rattle.packets.specs.BestPlain.{Best, BestIs};
ghost use Rattle.protocol.specs.Network.{set_of};
ghost use Rattle.protocol.specs.Settled.{Settled as AtRest};
ghost use Rattle.sets.specs.Members.{Empty};
ghost use Rattle.calls.specs.Calls.{best_at, metric_at, known_at, advertised_at, at_rest, answered, reply};
ghost use Rattle.calls.specs.Refusals.{NoSuchRouter, RefusesQuestion};
ghost use Rattle.calls.specs.declared.answer.Answer.TheVariants.{Paths, Refused, Best as best_answer, Metric as metric_answer};
ghost use Rattle.network.specs.Running.{rule_of, state_of};

use crate::running::Running;
use calls::{Answer, Outcome, Question};
use faults::CallFault;
use forwarding::{best, metric};
use rules::{Rule, advertised};
use sets::PathSet;

// The answer about a router's best path.
fn told_best(best: Result<Option<u8>, CallFault>) -> Answer
    ensures { result ≡ answered best_answer best }
{
    match best {
        Ok(path) => Answer::Best(path),
        Err(fault) => Answer::Refused(fault),
    }
}

// The answer about its metric.
fn told_metric(metric: Result<Option<u32>, CallFault>) -> Answer
    ensures { result ≡ answered metric_answer metric }
{
    match metric {
        Ok(metric) => Answer::Metric(metric),
        Err(fault) => Answer::Refused(fault),
    }
}

// The answer about a set of paths.
fn told_paths(paths: Result<PathSet, CallFault>) -> Answer
    ensures { result ≡ answered Paths paths }
{
    match paths {
        Ok(paths) => Answer::Paths(paths),
        Err(fault) => Answer::Refused(fault),
    }
}

impl<R: Rule> Running<R> {
    // The index of a router, where it is declared.
    fn index_of(&self, router: u32) -> Result<usize, CallFault>
        ensures value { result ≡ of_router (state_of self.now).table router (Ok router) }
        ensures low { IfOk result (λ v. v < 32) }
    {
        let Some(peering) = &self.held.peering else {
            return Err(CallFault::UndeclaredRouter(router));
        };
        peering.distances().table().index_of(router)
    }

    // What a router advertises; nothing where it is not declared.
    pub(crate) fn advertises(&self, router: u32) -> PathSet
        ensures { result ≡ set_of (state_of self.now).advertised router }
    {
        let advertised = self.held.sets.advertised.get(router as usize);
        advertised.copied().unwrap_or_default()
    }

    /// The best path of a router of what it advertises; none where it advertises nothing, which in a settled network is so just
    /// where nothing is injected. Refused with 12 where the router is not declared.
    pub fn best(&self, router: u32) -> Result<Option<u8>, CallFault>
        ensures value { result ≡ best_at (state_of self.now) router }
        ensures picks { IfOk result (BestIs plain (state_of self.now).table
            (set_of (state_of self.now).advertised router) router) }
        ensures only { IfOk result (λ path. (p : ℕ) → Best plain (state_of self.now).table
            (set_of (state_of self.now).advertised router) router p → path ≡ Some p) }
        ensures none { AtRest (R.kept (rule_of self.now)) (state_of self.now) →
            IfOk result (λ path. (path ≡ None) ↔ Empty (state_of self.now).injected) }
        ensures refuses { (fault : Fault) →
            (result ≡ Err fault) ↔ NoSuchRouter (state_of self.now) router fault }
    {
        let Some(peering) = &self.held.peering else {
            return Err(CallFault::UndeclaredRouter(router));
        };
        best(peering.distances(), router, self.advertises(router))
    }

    /// The metric of a router's best path, none where it has none. Refused with 12 where the router is not declared.
    pub fn metric(&self, router: u32) -> Result<Option<u32>, CallFault>
        ensures value { result ≡ metric_at (state_of self.now) router }
        ensures refuses { (fault : Fault) →
            (result ≡ Err fault) ↔ NoSuchRouter (state_of self.now) router fault }
    {
        let Some(path) = self.best(router)? else {
            return Ok(None);
        };
        let Some(peering) = &self.held.peering else {
            return Ok(None);
        };
        Ok(Some(metric(peering.distances(), router, path as u32)?))
    }

    /// The paths that a router knows. Refused with 12 where the router is not declared.
    pub fn known(&self, router: u32) -> Result<PathSet, CallFault>
        ensures value { result ≡ known_at (state_of self.now) router }
        ensures refuses { (fault : Fault) →
            (result ≡ Err fault) ↔ NoSuchRouter (state_of self.now) router fault }
    {
        let index = self.index_of(router)?;
        Ok(self.held.sets.known[index])
    }

    /// The paths that a router advertises. Refused with 12 where the router is not declared.
    pub fn advertised(&self, router: u32) -> Result<PathSet, CallFault>
        ensures value { result ≡ advertised_at (state_of self.now) router }
        ensures refuses { (fault : Fault) →
            (result ≡ Err fault) ↔ NoSuchRouter (state_of self.now) router fault }
    {
        let index = self.index_of(router)?;
        Ok(self.held.sets.advertised[index])
    }

    /// The injected paths.
    pub fn injected(&self) -> PathSet
        ensures { result ≡ (state_of self.now).injected }
    {
        self.held.sets.injected
    }

    /// Whether the network is settled: whether every router advertises exactly what the rule keeps of all injected paths.
    pub fn is_settled(&self) -> bool
        ensures value { result ≡ at_rest (R.kept (rule_of self.now)) (state_of self.now) }
        ensures settled { IsTrue result ↔ AtRest (R.kept (rule_of self.now)) (state_of self.now) }
    {
        let kept = advertised(&self.rule, self.paths(), self.held.sets.injected);
        for v in 0..self.count() {
            if self.held.sets.advertised[v] != kept {
                return false;
            }
        }
        true
    }

    /// Answers a question. Refused as the call of that question is.
    pub fn ask(&self, question: Question) -> Answer
        ensures value { result ≡ reply (R.kept (rule_of self.now)) (state_of self.now) question }
        ensures refuses { (fault : Fault) →
            (result ≡ Refused fault) ↔ RefusesQuestion (state_of self.now) question fault }
    {
        match question {
            Question::Best(router) => told_best(self.best(router)),
            Question::Metric(router) => told_metric(self.metric(router)),
            Question::Known(router) => told_paths(self.known(router)),
            Question::Advertised(router) => told_paths(self.advertised(router)),
            Question::Injected => Answer::Paths(self.injected()),
            Question::Settled => Answer::Settled(self.is_settled()),
        }
    }

    /// What came of a call with this answer, where it left this network.
    pub fn outcome(&self, answer: Answer) -> Outcome
        ensures { result ≡ record {
          answer = answer;
          advertised = (state_of self.now).advertised;
          settled = at_rest (R.kept (rule_of self.now)) (state_of self.now);
        } }
    {
        Outcome {
            answer,
            advertised: self.held.sets.advertised,
            settled: self.is_settled(),
        }
    }
}
