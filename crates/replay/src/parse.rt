ghost use Rattle.std.specs.Str.Parse.{ParsesUnsigned};

use crate::command::{Command, LIST_ROOM, TRACE_ROOM};
use anyhow::{Context, Result, bail, ensure};
use calls::{Question, Report};
use sets::RouterSet;
use std::str::SplitWhitespace;

// The longest buffer that a script may name, in bytes.
const MOST_ROOM: u32 = 65_536;

// A decimal number.
fn number(word: &str) -> Result<u32>
    ensures { ParsesUnsigned 32 10 word.now result }
{
    word.parse::<u32>()
        .context(format_args!("`{word}` is no number of 32 bits"))
}

// The one word behind a call.
fn operand<'a>(call: &str, words: &mut SplitWhitespace<'a>) -> Result<&'a str> {
    words
        .next()
        .context(format_args!("`{call}` wants a word behind it"))
}

// The number behind a call.
fn numbered(call: &str, words: &mut SplitWhitespace<'_>) -> Result<u32> {
    number(operand(call, words)?)
}

// The routers of a step.
fn routers(words: &mut SplitWhitespace<'_>) -> Result<RouterSet> {
    let mut named = RouterSet::empty();
    for word in words {
        let router = number(word)?;
        ensure!(router < 32, "no table declares router {router}");
        named = named.with(router);
    }
    Ok(named)
}

// The length of a buffer, where one is named.
fn room(words: &mut SplitWhitespace<'_>, otherwise: usize) -> Result<usize> {
    let Some(word) = words.next() else {
        return Ok(otherwise);
    };
    let room = number(word)?;
    ensure!(
        room <= MOST_ROOM,
        "a buffer of {room} bytes is more than the {MOST_ROOM} of a script"
    );
    Ok(room as usize)
}

// The call of a line; none where the line has no word.
pub(crate) fn parse(line: &[u8]) -> Result<Option<Command<'_>>> {
    let code = line.split(|byte| *byte == b'#').next().unwrap_or_default();
    let text = str::from_utf8(code).context("the line is no text in UTF-8")?;
    let mut words = text.split_whitespace();
    let Some(call) = words.next() else {
        return Ok(None);
    };
    let command = match call {
        "load" => Command::Load(operand(call, &mut words)?),
        "inject" => Command::Inject(numbered(call, &mut words)?),
        "withdraw" => Command::Withdraw(numbered(call, &mut words)?),
        "restart" => Command::Restart(numbered(call, &mut words)?),
        "step" => Command::Step(routers(&mut words)?),
        "settle" => Command::Settle,
        "reopen" => Command::Reopen,
        "best" => Command::Ask(Question::Best(numbered(call, &mut words)?)),
        "metric" => Command::Ask(Question::Metric(numbered(call, &mut words)?)),
        "known" => Command::Ask(Question::Known(numbered(call, &mut words)?)),
        "advertised" => Command::Ask(Question::Advertised(numbered(call, &mut words)?)),
        "injected" => Command::Ask(Question::Injected),
        "settled" => Command::Ask(Question::Settled),
        "trace" => {
            let report = Report::Trace(numbered(call, &mut words)?);
            Command::Report(report, room(&mut words, TRACE_ROOM)?)
        }
        "list" => Command::Report(Report::List, room(&mut words, LIST_ROOM)?),
        _ => bail!("`{call}` is no call"),
    };
    if let Some(word) = words.next() {
        bail!("`{word}` is one word too many");
    }
    Ok(Some(command))
}
