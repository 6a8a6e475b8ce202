// Calls in words.
use anyhow::{Context, bail};
use calls::{Action, Call, Part, Question, Report};
use sets::RouterSet;
use std::alloc::Global;
use std::str::SplitWhitespace;

// How many bytes a report has where its words do not say.
const TRACE_BYTES: usize = 32;

const LIST_BYTES: usize = 512;

// So many bytes lie before each part and behind the last, and are no report's.
const GAP: usize = 3;

// Calls, and how many bytes are lent to a run of them: each report has a part of its own.
#[derive(Drop)]
pub(crate) struct Script<'a> {
    pub(crate) calls: Vec<Call<'a>>,
    pub(crate) bytes: usize,
}

fn number(words: &mut SplitWhitespace<'_>) -> anyhow::Result<u32> {
    let word = words.next().context("a call without a number")?;
    Ok(word.parse::<u32>()?)
}

// The routers of a step.
fn routers(words: &mut SplitWhitespace<'_>) -> anyhow::Result<u32> {
    let mut named = RouterSet::empty();
    for word in words {
        named = named.with(word.parse::<u32>()?);
    }
    Ok(u32::from(named))
}

// The next part of the bytes, behind so many.
fn part(words: &mut SplitWhitespace<'_>, otherwise: usize, bytes: usize) -> anyhow::Result<Part> {
    let len = match words.next() {
        Some(word) => word.parse::<u16>()? as usize,
        None => otherwise,
    };
    let start = bytes.saturating_add(GAP);
    Ok(Part { start, len })
}

// The call of a text, where the calls before it have so many bytes. It loads the table of the line, or the table without its
// last byte.
fn call<'a>(text: &str, table: &'a [u8], bytes: usize) -> anyhow::Result<Call<'a>> {
    let mut words = text.split_whitespace();
    let call = match words.next().context("a call without a word")? {
        "load" => Call::Act(Action::Load(table)),
        "misload" => {
            let (_, front) = table.split_last().context("no byte to leave out")?;
            Call::Act(Action::Load(front))
        }
        "inject" => Call::Act(Action::Inject(number(&mut words)?)),
        "withdraw" => Call::Act(Action::Withdraw(number(&mut words)?)),
        "restart" => Call::Act(Action::Restart(number(&mut words)?)),
        "step" => Call::Act(Action::Step(routers(&mut words)?)),
        "settle" => Call::Settle,
        "reopen" => Call::Reopen,
        "best" => Call::Ask(Question::Best(number(&mut words)?)),
        "metric" => Call::Ask(Question::Metric(number(&mut words)?)),
        "known" => Call::Ask(Question::Known(number(&mut words)?)),
        "advertised" => Call::Ask(Question::Advertised(number(&mut words)?)),
        "injected" => Call::Ask(Question::Injected),
        "settled" => Call::Ask(Question::Settled),
        "trace" => {
            let router = number(&mut words)?;
            Call::Report(Report::Trace(router), part(&mut words, TRACE_BYTES, bytes)?)
        }
        "list" => Call::Report(Report::List, part(&mut words, LIST_BYTES, bytes)?),
        word => bail!("`{word}` is no call"),
    };
    if let Some(word) = words.next() {
        bail!("`{word}` is one word too many");
    }
    Ok(call)
}

// The calls that a text words, with a comma between.
pub(crate) fn worded<'a>(heap: Global, table: &'a [u8], text: &str) -> anyhow::Result<Script<'a>> {
    let mut calls = Vec::new(heap);
    let mut bytes = 0usize;
    for text in text.split(',') {
        let call = call(text, table, bytes)?;
        if let Call::Report(_, part) = call {
            bytes = part.start.saturating_add(part.len);
        }
        calls.push(call)?;
    }
    Ok(Script {
        calls,
        bytes: bytes.saturating_add(GAP),
    })
}
