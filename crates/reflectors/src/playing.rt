ghost use Rattle.std.specs.Prelude.{◌≡◌, ℕ, List, IsTrue, if◌then◌else◌, length, true, false};
ghost use Rattle.calls.specs.Calls.{answered, report_answer, report_bytes};
ghost use Rattle.calls.specs.Follows.{Follows};
ghost use Rattle.calls.specs.Promise.{run_of, world_of, Plays};
ghost use Rattle.calls.specs.Turns.{part_of, with_part, offered, next, turned};
ghost use Rattle.calls.specs.Typed.{Typed};
ghost use Rattle.calls.specs.declared.answer.Answer.TheVariants.{Done};
ghost use Rattle.network.specs.Running.{rule_of as running_rule};
ghost use Rattle.network.specs.Settled.{rule_of as settled_rule, state_of as settled_state};
ghost use Rattle.protocol.specs.SixRounds.{SixRounds};
ghost use Rattle.reflectors.specs.Reached.{rule_in, was_settled, world_in, running_world, settled_world};

use crate::reached::Reached;
use calls::{Answer, Call, Part, Report, Turn};
use faults::CallFault;
use network::{Running, Settled};
use rules::Rule;

/// What a run of calls came to: the network, and how many of the calls were made.
#[derive(Drop)]
pub struct Played<R: Rule> {
    pub network: Reached<R>,
    pub played: usize,
}

// What an action answered.
fn acted(done: Result<(), CallFault>) -> Answer
    ensures { result ≡ answered (λ x. Done) done }
{
    match done {
        Ok(()) => Answer::Done,
        Err(fault) => Answer::Refused(fault),
    }
}

// A report into a part of the bytes.
fn reported<R: Rule>(settled: &Settled<R>, report: Report, part: Part, bytes: &mut [u8]) -> Answer
    ensures value { result ≡
        report_answer (settled_state settled.now) report (length (part_of bytes.old part)) }
    ensures bytes { bytes.new ≡ with_part bytes.old part
        (report_bytes (settled_state settled.now) report (part_of bytes.old part)) }
{
    let start = part.start.min(bytes.len());
    let len = part.len.min(bytes.len() - start);
    settled.report(report, &mut bytes[start..start + len])
}

// A call on a running network. False where no running network offers it, and then nothing is done.
fn running_turn<R: Rule>(running: Running<R>, turn: &mut Turn) -> (Reached<R>, bool)
    ensures made { result.1 ≡ offered false turn.old.call }
    ensures turn { (bytes : List ℕ) → turn.new ≡ (if result.1
        then turned (R.kept (running_rule running)) (running_world running bytes) turn.old
        else turn.old) }
    ensures world { (bytes : List ℕ) → world_in result.0 bytes ≡ (if result.1
        then next (R.kept (running_rule running)) (running_world running bytes) turn.old.call
        else running_world running bytes) }
    ensures typed { IsTrue result.1 → Typed turn.old.call }
    ensures rule { rule_in result.0 ≡ running_rule running }
{
    let mut running = running;
    let answer = match turn.call {
        Call::Act(action) => acted(running.act(action)),
        Call::Ask(question) => running.ask(question),
        Call::Settle => {
            let settled = running.settle();
            turn.outcome = Some(settled.outcome(Answer::Done));
            return (Reached::Settled(settled), true);
        }
        Call::Reopen | Call::Report(_, _) => return (Reached::Running(running), false),
    };
    turn.outcome = Some(running.outcome(answer));
    (Reached::Running(running), true)
}

// A call on a settled network. False where no settled network offers it, and then nothing is done.
fn settled_turn<R: Rule>(
    settled: Settled<R>,
    turn: &mut Turn,
    bytes: &mut [u8],
) -> (Reached<R>, bool)
    ensures made { result.1 ≡ offered true turn.old.call }
    ensures turn { turn.new ≡ (if result.1
        then turned (R.kept (settled_rule settled)) (settled_world settled bytes.old) turn.old
        else turn.old) }
    ensures world { world_in result.0 bytes.new ≡ (if result.1
        then next (R.kept (settled_rule settled)) (settled_world settled bytes.old) turn.old.call
        else settled_world settled bytes.old) }
    ensures typed { IsTrue result.1 → Typed turn.old.call }
    ensures rule { rule_in result.0 ≡ settled_rule settled }
{
    let answer = match turn.call {
        Call::Ask(question) => settled.ask(question),
        Call::Report(report, part) => reported(&settled, report, part, bytes),
        Call::Reopen => {
            let running = settled.reopen();
            turn.outcome = Some(running.outcome(Answer::Done));
            return (Reached::Running(running), true);
        }
        Call::Act(_) | Call::Settle => return (Reached::Settled(settled), false),
    };
    turn.outcome = Some(settled.outcome(answer));
    (Reached::Settled(settled), true)
}

// A call on a network. False where it is not offered, and then nothing is done.
fn take_turn<R: Rule>(network: Reached<R>, turn: &mut Turn, bytes: &mut [u8]) -> (Reached<R>, bool)
    ensures made { result.1 ≡ offered (was_settled network) turn.old.call }
    ensures turn { turn.new ≡ (if result.1
        then turned (R.kept (rule_in network)) (world_in network bytes.old) turn.old
        else turn.old) }
    ensures world { world_in result.0 bytes.new ≡ (if result.1
        then next (R.kept (rule_in network)) (world_in network bytes.old) turn.old.call
        else world_in network bytes.old) }
    ensures typed { IsTrue result.1 → Typed turn.old.call }
    ensures rule { rule_in result.0 ≡ rule_in network }
{
    match network {
        Reached::Running(running) => running_turn(running, turn),
        Reached::Settled(settled) => settled_turn(settled, turn, bytes),
    }
}

/// Plays calls in their order on a network that begins empty, and stops before the first that the network does not offer. What a
/// call answers goes into its turn, and what it writes into its part of the bytes. A refused call counts as made: its turn tells
/// the fault, and the run goes on.
pub fn play<R: Rule>(rule: R, turns: &mut [Turn], bytes: &mut [u8]) -> Played<R>
    ensures turns { turns.new ≡ (run_of (R.kept rule) bytes.old turns.old).turns }
    ensures played { result.played ≡ (run_of (R.kept rule) bytes.old turns.old).made }
    ensures world { world_in result.network bytes.new ≡ world_of (R.kept rule) bytes.old turns.old }
    ensures rule { rule_in result.network ≡ rule }
    ensures plays { Plays (R.kept rule) bytes.old turns.old }
    ensures follows { Follows (R.kept rule) bytes.old turns.old }
    ensures six { SixRounds }
{
    let mut network = Reached::Running(Running::new(rule));
    let mut played = 0;
    for turn in turns.iter_mut() {
        let (reached, made) = take_turn(network, turn, bytes);
        network = reached;
        if !made {
            return Played { network, played };
        }
        played += 1;
    }
    Played { network, played }
}
