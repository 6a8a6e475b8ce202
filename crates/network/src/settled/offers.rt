ghost use Rattle.std.specs.Prelude.{◌≡◌, ℕ, ◌≤◌, ◌↔◌, Err, IfOk, IsTrue, None, OnErr, Some, length};
ghost use Rattle.costs.specs.Cost.{plain};
ghost use Rattle.faults.specs.declared.call.CallFault.{CallFault as Fault};
ghost use Rattle.forwarding.specs.declared.packet.Way.{Way as Told};
ghost use Rattle.listing.specs.Listing.{list_at, list_bytes};
ghost use Rattle.packets.specs.BestPlain.{Best, BestIs};
ghost use Rattle.protocol.specs.Network.{set_of};
ghost use Rattle.protocol.specs.Packets.{AllLeave};
ghost use Rattle.protocol.specs.Settled.{Settled as AtRest};
ghost use Rattle.sets.specs.Members.{member, Empty};
ghost use Rattle.calls.specs.Calls.{best_at, metric_at, known_at, advertised_at, at_rest, trace_at, trace_bytes_at, answered, reply, report_answer, report_bytes};
ghost use Rattle.calls.specs.Promise.{Traces};
ghost use Rattle.calls.specs.Refusals.{NoSuchRouter, RefusesQuestion, RefusesReport};
ghost use Rattle.calls.specs.declared.answer.Answer.TheVariants.{Refused, Way as way_answer, Written};
ghost use Rattle.calls.specs.declared.report.Report.TheVariants.{Trace, List as list_report};
ghost use Rattle.network.specs.Settled.{rule_of, state_of};
ghost use Rattle.network.specs.Running.{rule_of as running_rule, state_of as running_state};

use crate::running::Running;
use crate::settled::Settled;
use calls::{Answer, Outcome, Question, Report};
use faults::CallFault;
use forwarding::Way;
use rules::Rule;
use sets::PathSet;

// What a trace answered.
fn told_way(way: Result<Option<Way>, CallFault>) -> Answer
    ensures { result ≡ answered way_answer way }
{
    match way {
        Ok(way) => Answer::Way(way),
        Err(fault) => Answer::Refused(fault),
    }
}

// What a list answered.
fn told_written(written: Result<usize, CallFault>) -> Answer
    ensures { result ≡ answered Written written }
{
    match written {
        Ok(count) => Answer::Written(count),
        Err(fault) => Answer::Refused(fault),
    }
}

impl<R: Rule> Settled<R> {
    /// The best path of a router of what it advertises; none exactly where nothing is injected. Refused with 12 where the
    /// router is not declared.
    pub fn best(&self, router: u32) -> Result<Option<u8>, CallFault>
        ensures value { result ≡ best_at (state_of self.now) router }
        ensures picks { IfOk result (BestIs plain (state_of self.now).table
            (set_of (state_of self.now).advertised router) router) }
        ensures only { IfOk result (λ path. (p : ℕ) → Best plain (state_of self.now).table
            (set_of (state_of self.now).advertised router) router p → path ≡ Some p) }
        ensures none { IfOk result (λ path. (path ≡ None) ↔ Empty (state_of self.now).injected) }
        ensures refuses { (fault : Fault) →
            (result ≡ Err fault) ↔ NoSuchRouter (state_of self.now) router fault }
    {
        self.running.best(router)
    }

    /// The metric of a router's best path; none exactly where nothing is injected. Refused with 12 where the router is not
    /// declared.
    pub fn metric(&self, router: u32) -> Result<Option<u32>, CallFault>
        ensures value { result ≡ metric_at (state_of self.now) router }
        ensures none { IfOk result (λ metric. (metric ≡ None) ↔ Empty (state_of self.now).injected) }
        ensures refuses { (fault : Fault) →
            (result ≡ Err fault) ↔ NoSuchRouter (state_of self.now) router fault }
    {
        self.running.metric(router)
    }

    /// The paths that a router knows. Refused with 12 where the router is not declared.
    pub fn known(&self, router: u32) -> Result<PathSet, CallFault>
        ensures value { result ≡ known_at (state_of self.now) router }
        ensures refuses { (fault : Fault) →
            (result ≡ Err fault) ↔ NoSuchRouter (state_of self.now) router fault }
    {
        self.running.known(router)
    }

    /// The paths that a router advertises. Refused with 12 where the router is not declared.
    pub fn advertised(&self, router: u32) -> Result<PathSet, CallFault>
        ensures value { result ≡ advertised_at (state_of self.now) router }
        ensures refuses { (fault : Fault) →
            (result ≡ Err fault) ↔ NoSuchRouter (state_of self.now) router fault }
    {
        self.running.advertised(router)
    }

    /// The injected paths.
    pub fn injected(&self) -> PathSet
        ensures { result ≡ (state_of self.now).injected }
    {
        self.running.injected()
    }

    /// Whether the network is settled, which it is.
    pub fn is_settled(&self) -> bool
        ensures value { result ≡ at_rest (R.kept (rule_of self.now)) (state_of self.now) }
        ensures settled { IsTrue result }
    {
        self.running.is_settled()
    }

    /// Answers a question. Refused as the call of that question is.
    pub fn ask(&self, question: Question) -> Answer
        ensures value { result ≡ reply (R.kept (rule_of self.now)) (state_of self.now) question }
        ensures refuses { (fault : Fault) →
            (result ≡ Refused fault) ↔ RefusesQuestion (state_of self.now) question fault }
    {
        self.running.ask(question)
    }

    /// The way of a packet from a router: the routers that it meets, one byte each, go into `met`, and bytes past them stay as
    /// they were. None exactly where nothing is injected. Refused with 12 where the router is not declared, and with 16 where
    /// `met` has fewer than 32 bytes.
    pub fn trace(&self, router: u32, met: &mut [u8]) -> Result<Option<Way>, CallFault>
        ensures value { result ≡ trace_at (state_of self.now) router (length met.old) }
        ensures bytes { met.new ≡ trace_bytes_at (state_of self.now) router met.old }
        ensures leaves { AllLeave (state_of self.now) }
        ensures way { (p : ℕ) → IsTrue (member (state_of self.now).injected p) →
            IfOk result (Traces (state_of self.now) router met.old met.new) }
        ensures none { IfOk result (λ way. (way ≡ None) ↔ Empty (state_of self.now).injected) }
        ensures refuses { (fault : Fault) → (result ≡ Err fault) ↔
            RefusesReport (state_of self.now) (Trace router) (length met.old) fault }
        ensures unchanged { OnErr result (met.new ≡ met.old) }
    {
        self.running.way_from(router, met)
    }

    /// A line for each router: its number, the path that it takes and that path's metric. Answers how many bytes it wrote, and
    /// bytes past them stay as they were. Refused with 16 where the buffer has fewer than 512 bytes.
    pub fn list(&self, buffer: &mut [u8]) -> Result<usize, CallFault>
        ensures value { result ≡
            list_at (state_of self.now).table (state_of self.now).advertised (length buffer.old) }
        ensures bytes { buffer.new ≡
            list_bytes (state_of self.now).table (state_of self.now).advertised buffer.old }
        ensures short { IfOk result (λ n. n ≤ 512) }
        ensures refuses { (fault : Fault) → (result ≡ Err fault) ↔
            RefusesReport (state_of self.now) list_report (length buffer.old) fault }
        ensures unchanged { OnErr result (buffer.new ≡ buffer.old) }
    {
        self.running.lines(buffer)
    }

    /// Writes a report into a buffer. Refused as the call of that report is, and then the buffer stays as it was.
    pub fn report(&self, report: Report, buffer: &mut [u8]) -> Answer
        ensures value { result ≡ report_answer (state_of self.now) report (length buffer.old) }
        ensures bytes { buffer.new ≡ report_bytes (state_of self.now) report buffer.old }
        ensures refuses { (fault : Fault) → (result ≡ Refused fault) ↔
            RefusesReport (state_of self.now) report (length buffer.old) fault }
        ensures unchanged { (fault : Fault) → result ≡ Refused fault → buffer.new ≡ buffer.old }
    {
        match report {
            Report::Trace(router) => told_way(self.trace(router, buffer)),
            Report::List => told_written(self.list(buffer)),
        }
    }

    /// What came of a call with this answer, where it left this network.
    pub fn outcome(&self, answer: Answer) -> Outcome
        ensures { result ≡ record {
          answer = answer;
          advertised = (state_of self.now).advertised;
          settled = at_rest (R.kept (rule_of self.now)) (state_of self.now);
        } }
    {
        self.running.outcome(answer)
    }

    /// The network as it is, running again.
    pub fn reopen(self) -> Running<R>
        ensures state { running_state result ≡ state_of self }
        ensures rule { running_rule result ≡ rule_of self }
    {
        self.running
    }
}
