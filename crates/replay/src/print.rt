use crate::script::Entry;
use calls::{Answer, Call, Outcome, Turn};
use faults::{Fault, Layer};
use sets::PathSet;
use std::io::{Result, Write};
use std::str;

// The layer as a line names it.
fn layer_name(layer: Layer) -> &'static str {
    match layer {
        Layer::Record => "record",
        Layer::Table => "table",
        Layer::Graph => "graph",
        Layer::Call => "call",
    }
}

// The routers that a packet meets.
fn met<W: Write>(out: &mut W, routers: &[u8]) -> Result<()> {
    for (k, router) in routers.iter().enumerate() {
        if k > 0 {
            write!(out, " ")?;
        }
        write!(out, "R{router}")?;
    }
    Ok(())
}

// The lines of a list.
fn listed<W: Write>(out: &mut W, list: &[u8]) -> Result<()> {
    if list.is_empty() {
        return write!(out, "no router");
    }
    let text = str::from_utf8(list).unwrap_or_default();
    for (k, line) in text.lines().enumerate() {
        if k > 0 {
            write!(out, ", ")?;
        }
        write!(out, "{line}")?;
    }
    Ok(())
}

// The members of a set, in braces.
fn members<W: Write>(out: &mut W, set: PathSet) -> Result<()> {
    write!(out, "{{")?;
    for (k, path) in set.iter().enumerate() {
        if k > 0 {
            write!(out, " ")?;
        }
        write!(out, "{path}")?;
    }
    write!(out, "}}")
}

// What a call answered, where its buffer has these bytes.
fn answered<W: Write>(out: &mut W, answer: &Answer, buffer: &[u8]) -> Result<()> {
    match answer {
        Answer::Done => write!(out, "done"),
        Answer::Best(None) | Answer::Metric(None) | Answer::Way(None) => write!(out, "none"),
        Answer::Best(Some(path)) => write!(out, "P{path}"),
        Answer::Metric(Some(metric)) => write!(out, "{metric}"),
        Answer::Paths(set) => members(out, *set),
        Answer::Settled(true) => write!(out, "yes"),
        Answer::Settled(false) => write!(out, "no"),
        Answer::Way(Some(way)) => {
            met(out, buffer.get(..way.count).unwrap_or_default())?;
            write!(out, ", leaves by P{}", way.path)
        }
        Answer::Written(count) => listed(out, buffer.get(..*count).unwrap_or_default()),
        Answer::Refused(fault) => {
            let layer = layer_name(fault.layer());
            let (number, place) = (fault.number(), fault.place());
            write!(
                out,
                "refused with {number} at {place} by the {layer} layer: {fault}"
            )
        }
    }
}

// The routers whose advertised set is another than before, with their new sets.
fn altered<W: Write>(out: &mut W, before: &[PathSet; 32], after: &[PathSet; 32]) -> Result<()> {
    let mut any = false;
    for router in 0..32usize {
        if before[router] != after[router] {
            if any {
                write!(out, ", ")?;
            }
            write!(out, "R{router} ")?;
            members(out, after[router])?;
            any = true;
        }
    }
    if !any {
        write!(out, "nothing altered")?;
    }
    Ok(())
}

// The buffer of a call; empty where it writes nothing.
fn buffer_of<'a>(call: &Call<'_>, bytes: &'a [u8]) -> &'a [u8] {
    match call {
        Call::Report(_, part) => {
            let behind = bytes.get(part.start..).unwrap_or_default();
            behind.get(..part.len).unwrap_or_default()
        }
        _ => &[],
    }
}

// The line of a call that was made, where these sets were advertised before.
fn line<W: Write>(
    out: &mut W,
    entry: &Entry,
    outcome: &Outcome,
    buffer: &[u8],
    before: &[PathSet; 32],
) -> Result<()> {
    let command = &entry.command;
    write!(out, "{command}: ")?;
    answered(out, &outcome.answer, buffer)?;
    write!(out, "; ")?;
    altered(out, before, &outcome.advertised)?;
    if outcome.settled {
        writeln!(out, "; settled")
    } else {
        writeln!(out, "; not settled")
    }
}

// A line for each call that was made, where the run left these bytes. Answers whether the network is settled at the end.
pub(crate) fn lines<W: Write>(
    out: &mut W,
    entries: &[Entry],
    turns: &[Turn],
    bytes: &[u8],
) -> Result<bool> {
    let mut before = [PathSet::empty(); 32];
    let mut settled = true;
    for (entry, turn) in entries.iter().zip(turns) {
        let Some(outcome) = turn.outcome else {
            break;
        };
        line(out, entry, &outcome, buffer_of(&turn.call, bytes), &before)?;
        before = outcome.advertised;
        settled = outcome.settled;
    }
    Ok(settled)
}
