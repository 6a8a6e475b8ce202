// Plays calls on a network under the five-stage rule, each by itself and all of them by `play`.
use crate::script::{Script, worded};
use crate::ways::{UNWRITTEN, leaves, refused, untouched};
use calls::{Action, Answer, Call, Outcome, Part, Question, Report, Turn};
use faults::{CallFault, Fault};
use forwarding::Way;
use reflectors::{Played, Reached, Running, Settled, play};
use rules::FiveStage;
use sets::PathSet;
use std::alloc::{AllocError, Global};

fn done(answer: Result<(), CallFault>) -> Answer {
    match answer {
        Ok(()) => Answer::Done,
        Err(fault) => Answer::Refused(fault),
    }
}

fn best(answer: Result<Option<u8>, CallFault>) -> Answer {
    match answer {
        Ok(path) => Answer::Best(path),
        Err(fault) => Answer::Refused(fault),
    }
}

fn metric(answer: Result<Option<u32>, CallFault>) -> Answer {
    match answer {
        Ok(metric) => Answer::Metric(metric),
        Err(fault) => Answer::Refused(fault),
    }
}

fn paths(answer: Result<PathSet, CallFault>) -> Answer {
    match answer {
        Ok(paths) => Answer::Paths(paths),
        Err(fault) => Answer::Refused(fault),
    }
}

fn way(answer: Result<Option<Way>, CallFault>) -> Answer {
    match answer {
        Ok(way) => Answer::Way(way),
        Err(fault) => Answer::Refused(fault),
    }
}

fn written(answer: Result<usize, CallFault>) -> Answer {
    match answer {
        Ok(count) => Answer::Written(count),
        Err(fault) => Answer::Refused(fault),
    }
}

// What an action on a running network answers.
fn acted(network: &mut Running<FiveStage>, action: Action) -> Answer {
    done(match action {
        Action::Load(bytes) => network.load(bytes),
        Action::Inject(path) => network.inject(path),
        Action::Withdraw(path) => network.withdraw(path),
        Action::Restart(router) => network.restart(router),
        Action::Step(named) => network.step(named),
    })
}

// What a running network answers to a question.
fn asked_running(network: &Running<FiveStage>, question: Question) -> Answer {
    match question {
        Question::Best(router) => best(network.best(router)),
        Question::Metric(router) => metric(network.metric(router)),
        Question::Known(router) => paths(network.known(router)),
        Question::Advertised(router) => paths(network.advertised(router)),
        Question::Injected => Answer::Paths(network.injected()),
        Question::Settled => Answer::Settled(network.is_settled()),
    }
}

// What a settled one answers.
fn asked_settled(network: &Settled<FiveStage>, question: Question) -> Answer {
    match question {
        Question::Best(router) => best(network.best(router)),
        Question::Metric(router) => metric(network.metric(router)),
        Question::Known(router) => paths(network.known(router)),
        Question::Advertised(router) => paths(network.advertised(router)),
        Question::Injected => Answer::Paths(network.injected()),
        Question::Settled => Answer::Settled(network.is_settled()),
    }
}

// What a report of a settled network answers, which goes into a part of the bytes.
fn reported(network: &Settled<FiveStage>, report: Report, part: Part, bytes: &mut [u8]) -> Answer {
    let start = part.start.min(bytes.len());
    let len = part.len.min(bytes.len() - start);
    let buffer = &mut bytes[start..start + len];
    match report {
        Report::Trace(router) => way(network.trace(router, buffer)),
        Report::List => written(network.list(buffer)),
    }
}

// What a call on a running network answers; none where it offers no such call.
fn on_running(network: Running<FiveStage>, call: Call) -> (Reached<FiveStage>, Option<Answer>) {
    let mut network = network;
    let answer = match call {
        Call::Act(action) => acted(&mut network, action),
        Call::Ask(question) => asked_running(&network, question),
        Call::Settle => return (Reached::Settled(network.settle()), Some(Answer::Done)),
        Call::Reopen | Call::Report(_, _) => return (Reached::Running(network), None),
    };
    (Reached::Running(network), Some(answer))
}

// What a call on a settled network answers; none where it offers no such call.
fn on_settled(
    network: Settled<FiveStage>,
    call: Call,
    bytes: &mut [u8],
) -> (Reached<FiveStage>, Option<Answer>) {
    let answer = match call {
        Call::Ask(question) => asked_settled(&network, question),
        Call::Report(report, part) => reported(&network, report, part, bytes),
        Call::Reopen => return (Reached::Running(network.reopen()), Some(Answer::Done)),
        Call::Act(_) | Call::Settle => return (Reached::Settled(network), None),
    };
    (Reached::Settled(network), Some(answer))
}

// What a call answers; none where the network offers no such call.
fn answer_of(
    network: Reached<FiveStage>,
    call: Call,
    bytes: &mut [u8],
) -> (Reached<FiveStage>, Option<Answer>) {
    match network {
        Reached::Running(network) => on_running(network, call),
        Reached::Settled(network) => on_settled(network, call, bytes),
    }
}

// What came of a call with this answer, where it left this network.
fn outcome_of(network: &Reached<FiveStage>, answer: Answer) -> Outcome {
    match network {
        Reached::Running(network) => network.outcome(answer),
        Reached::Settled(network) => network.outcome(answer),
    }
}

// How many bytes an answer tells of.
fn told(answer: &Answer) -> usize {
    match answer {
        Answer::Way(Some(way)) => way.count,
        Answer::Written(count) => *count,
        _ => 0,
    }
}

// The bytes that a call wrote.
fn told_in<'a>(bytes: &'a [u8], call: &Call<'_>, answer: &Answer) -> &'a [u8] {
    let Call::Report(_, part) = call else {
        return &[];
    };
    let from_start = bytes.get(part.start..).unwrap_or_default();
    from_start.get(..told(answer)).unwrap_or_default()
}

// The members of a set, in braces.
fn members(rt: &impl Print, set: PathSet) -> anyhow::Result<()> {
    print!(rt; "{{")?;
    for (k, path) in set.iter().enumerate() {
        if k > 0 {
            print!(rt; " ")?;
        }
        print!(rt; "{path}")?;
    }
    print!(rt; "}}")?;
    Ok(())
}

// The lines of a list, in one.
fn lines(rt: &impl Print, text: &str) -> anyhow::Result<()> {
    if text.is_empty() {
        print!(rt; " no router")?;
    }
    for (k, line) in text.lines().enumerate() {
        if k > 0 {
            print!(rt; ",")?;
        }
        print!(rt; " {line}")?;
    }
    Ok(())
}

// An answer in words, with the bytes that it tells of.
fn answered(rt: &impl Print, answer: &Answer, bytes: &[u8]) -> anyhow::Result<()> {
    match answer {
        Answer::Done => print!(rt; " done")?,
        Answer::Best(None) | Answer::Metric(None) | Answer::Way(None) => print!(rt; " none")?,
        Answer::Best(Some(path)) => print!(rt; " P{path}")?,
        Answer::Metric(Some(metric)) => print!(rt; " {metric}")?,
        Answer::Paths(paths) => {
            print!(rt; " ")?;
            members(rt, *paths)?
        }
        Answer::Settled(true) => print!(rt; " yes")?,
        Answer::Settled(false) => print!(rt; " no")?,
        Answer::Way(Some(way)) => leaves(rt, bytes, way.path)?,
        Answer::Written(_) => lines(rt, str::from_utf8(bytes)?)?,
        Answer::Refused(fault) => print!(rt; " {} at {}", fault.number(), fault.place())?,
    }
    Ok(())
}

// The routers that advertise another set than before, each with its new set.
fn altered(rt: &impl Print, before: &[PathSet; 32], after: &[PathSet; 32]) -> anyhow::Result<()> {
    let mut first = true;
    for (v, (old, new)) in before.iter().zip(after).enumerate() {
        if old != new {
            if first {
                print!(rt; " R{v} ")?;
            } else {
                print!(rt; ", R{v} ")?;
            }
            members(rt, *new)?;
            first = false;
        }
    }
    if first {
        print!(rt; " nothing altered")?;
    }
    Ok(())
}

// What came of a call, where these sets were advertised before.
fn came(
    rt: &impl Print,
    outcome: &Outcome,
    bytes: &[u8],
    before: &[PathSet; 32],
) -> anyhow::Result<()> {
    answered(rt, &outcome.answer, bytes)?;
    print!(rt; ";")?;
    altered(rt, before, &outcome.advertised)?;
    if outcome.settled {
        print!(rt; "; settled")?;
    } else {
        print!(rt; "; not settled")?;
    }
    Ok(())
}

fn same(one: &Outcome, other: &Outcome) -> bool {
    one.answer == other.answer && one.advertised == other.advertised && one.settled == other.settled
}

// What came of a call by itself, and of the same call by `play` where that is something else.
fn line(
    rt: &impl Print,
    turn: &Turn,
    outcome: &Outcome,
    own: &[u8],
    lent: &[u8],
    before: &[PathSet; 32],
) -> anyhow::Result<()> {
    came(
        rt,
        outcome,
        told_in(own, &turn.call, &outcome.answer),
        before,
    )?;
    match &turn.outcome {
        Some(played) if same(outcome, played) => {}
        Some(played) => {
            print!(rt; ", but played")?;
            came(
                rt,
                played,
                told_in(lent, &turn.call, &played.answer),
                before,
            )?
        }
        None => print!(rt; ", but not played")?,
    }
    println!(rt; "")?;
    Ok(())
}

// What a byte holds before a run: no router and no letter, and its neighbours hold something else.
fn unwritten(place: usize) -> u8 {
    128 + (place % 101) as u8
}

fn all_unwritten(heap: Global, count: usize) -> Result<Vec<u8>, AllocError> {
    (0..count).map(|place| unwritten(place)).collect(heap)
}

// Says so where a byte was written behind those that a report tells of; no report before it has a part there.
fn behind(rt: &impl Print, bytes: &[u8], call: &Call, answer: &Answer) -> anyhow::Result<()> {
    let Call::Report(_, part) = call else {
        return Ok(());
    };
    let end = part.start.saturating_add(told(answer));
    for (place, byte) in bytes.iter().enumerate().skip(end) {
        if *byte != unwritten(place) {
            println!(rt; "  byte {place} was written")?;
        }
    }
    Ok(())
}

// The list of a settled network.
fn list(rt: &impl Print, network: &Settled<FiveStage>) -> anyhow::Result<()> {
    let mut buffer = [UNWRITTEN; 600];
    let count = network.list(&mut buffer)?;
    let (text, behind) = buffer.split_at(count);
    for line in str::from_utf8(text)?.lines() {
        println!(rt; "  {line}")?;
    }
    untouched(rt, behind)
}

// At the end, where the network is settled, the list; and what is refused behind the last router and of short buffers.
fn ending(rt: &impl Print, network: Reached<FiveStage>, count: u32) -> anyhow::Result<()> {
    match network {
        Reached::Running(network) => refused(rt, "best", network.best(count)),
        Reached::Settled(network) => {
            let mut met = [UNWRITTEN; 31];
            let mut buffer = [UNWRITTEN; 511];
            list(rt, &network)?;
            refused(rt, "best", network.best(count))?;
            refused(
                rt,
                "trace from a router into 31 bytes",
                network.trace(count, &mut met),
            )?;
            refused(rt, "trace into 31 bytes", network.trace(0, &mut met))?;
            refused(rt, "list into 511 bytes", network.list(&mut buffer))?;
            untouched(rt, &met)?;
            untouched(rt, &buffer)
        }
    }
}

// The calls, none made yet.
fn turns<'a>(heap: Global, calls: &[Call<'a>]) -> Result<Vec<Turn<'a>>, AllocError> {
    calls.iter().map(|call| Turn::new(*call)).collect(heap)
}

// A line for each call of a text, made by itself over bytes of its own; these turns and these bytes are as `play` left them.
// Answers how many calls were made.
fn by_themselves(
    rt: &HostRuntime,
    text: &str,
    turns: &[Turn],
    lent: &[u8],
) -> anyhow::Result<usize> {
    let mut own = all_unwritten(rt.alloc(), lent.len())?;
    let mut network = Reached::Running(Running::new(FiveStage));
    let mut advertised = [PathSet::empty(); 32];
    let mut made = 0usize;
    for (text, turn) in text.split(',').zip(turns) {
        print!(rt; "  {}:", text.trim())?;
        let (reached, answer) = answer_of(network, turn.call, own.as_mut_slice());
        network = reached;
        let Some(answer) = answer else {
            println!(rt; " out of place")?;
            break;
        };
        let outcome = outcome_of(&network, answer);
        line(rt, turn, &outcome, own.as_slice(), lent, &advertised)?;
        behind(rt, own.as_slice(), &turn.call, &outcome.answer)?;
        advertised = outcome.advertised;
        made = made.saturating_add(1);
    }
    if own.as_slice() != lent {
        println!(rt; "  other bytes were played")?;
    }
    Ok(made)
}

// Of the bytes of a table that declares so many routers, and of calls with a comma between, a line a call.
pub(crate) fn runs(rt: &HostRuntime, table: &[u8], count: u32, text: &str) -> anyhow::Result<()> {
    let Script { calls, bytes } = worded(rt.alloc(), table, text)?;
    let mut turns = turns(rt.alloc(), calls.as_slice())?;
    let mut lent = all_unwritten(rt.alloc(), bytes)?;
    let Played { network, played } = play(FiveStage, turns.as_mut_slice(), lent.as_mut_slice());
    let made = by_themselves(rt, text, turns.as_slice(), lent.as_slice())?;
    if played != made {
        println!(rt; "  {played} calls were played")?;
    }
    ending(rt, network, count)
}
