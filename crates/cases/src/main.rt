// Plays tables written in hexadecimal, a line each, and prints what each comes to; of a line with a set
// of paths behind the table, what each rule keeps of the set, or which path each router takes; of a
// line with calls behind it, what each call answers on a network.
#![tactic(auto)]

ghost use Rattle.std.specs.Prelude.{◌≡◌, length, All};
ghost use Rattle.cases.specs.Worked.{Holds, worked};

mod runs;
mod script;
mod ways;

use crate::runs::runs;
use crate::ways::ways;
use anyhow::Context;
use faults::Fault;
use layout::{ExitPath, Pair};
use rules::{CompareAlways, FiveStage, Rule};
use sets::PathSet;
use std::alloc::{AllocError, Global};
use tables::Table;

// How many worked cases are proved: each of the list holds.
fn worked_cases() -> usize
    ensures hold { All Holds worked }
    ensures count { result ≡ length worked }
{
    26
}

// The value of a hexadecimal digit in upper case; `to_digit` would take lower case too.
fn digit(b: u8) -> Option<u8> {
    match b {
        b'0'..=b'9' => Some(b - b'0'),
        b'A'..=b'F' => Some(b - b'A' + 10),
        _ => None,
    }
}

// The bytes that a text spells, with any spaces and commas between digits; none where it spells no bytes.
fn spelled(heap: Global, text: &str) -> Result<Option<Vec<u8>>, AllocError> {
    let mut bytes = Vec::new(heap);
    let mut high = None;
    for b in text.bytes() {
        if b == b' ' || b == b',' {
            continue;
        }
        let Some(low) = digit(b) else {
            return Ok(None);
        };
        match high {
            None => high = Some(low),
            Some(h) => {
                bytes.push(low.wrapping_add(h.wrapping_mul(16)))?;
                high = None;
            }
        }
    }
    if high.is_some() {
        return Ok(None);
    }
    Ok(Some(bytes))
}

// The last router, link, session and path, field by field.
fn last_records(rt: &impl Print, table: &Table) -> anyhow::Result<()> {
    if let Some(router) = table.routers().last() {
        println!(rt; "  last router cluster {} {}", router.cluster, router.role)?;
    }
    if let Some(link) = table.links().last() {
        let Pair { a, b } = link.ends;
        println!(rt; "  last link {a} {b} metric {}", link.metric)?;
    }
    if let Some(session) = table.sessions().last() {
        let Pair { a, b } = session.ends;
        println!(rt; "  last session {a} {b}")?;
    }
    if let Some(path) = table.paths().last() {
        last_path(rt, *path)?;
    }
    Ok(())
}

fn last_path(rt: &impl Print, path: ExitPath) -> anyhow::Result<()> {
    println!(rt;
        "  last path exit point {} AS {} preference {} length {} MED {} cost {} speaker {}",
        path.exit_point,
        path.neighbour_as,
        path.local_pref,
        path.as_path_len,
        path.med,
        path.exit_cost,
        path.speaker
    )?;
    Ok(())
}

// What one rule keeps of a set.
fn keep<R: Rule>(
    rt: &impl Print,
    name: &str,
    rule: &R,
    paths: &[ExitPath],
    set: PathSet,
) -> anyhow::Result<()> {
    print!(rt; "  {name}")?;
    for p in rule.keep(paths, set) {
        print!(rt; " {p}")?;
    }
    println!(rt; "")?;
    Ok(())
}

// What is asked of a table.
#[derive(Clone, Copy)]
enum Asked<'a> {
    // What it declares.
    Records,
    // What each rule keeps of a set.
    Rules(PathSet),
    // Which path each router takes, of a set.
    Ways(PathSet),
    // What each of these calls answers on a network.
    Calls(&'a str),
}

// How many of each kind a table declares, and the last of each.
fn records(rt: &impl Print, name: &str, table: &Table) -> anyhow::Result<()> {
    println!(rt;
        "{name}: {} routers, {} links, {} sessions, {} paths",
        table.routers().len(),
        table.links().len(),
        table.sessions().len(),
        table.paths().len()
    )?;
    last_records(rt, table)
}

// What each rule keeps of a set.
fn keeps(rt: &impl Print, paths: &[ExitPath], set: PathSet) -> anyhow::Result<()> {
    keep(rt, "all", &rules::All, paths, set)?;
    keep(rt, "five-stage", &FiveStage, paths, set)?;
    keep(rt, "compare-always", &CompareAlways, paths, set)
}

fn play(rt: &HostRuntime, name: &str, bytes: &[u8], asked: Asked) -> anyhow::Result<()> {
    let table = match Table::read(bytes) {
        Ok(table) => table,
        Err(fault) => {
            println!(rt; "{name}: {} at {}", fault.number(), fault.place())?;
            return Ok(());
        }
    };
    // The name goes out with what follows on its line, in one write.
    match asked {
        Asked::Records => records(rt, name, &table),
        Asked::Rules(set) => {
            println!(rt; "{name}:")?;
            keeps(rt, table.paths(), set)
        }
        Asked::Ways(set) => {
            println!(rt; "{name}:")?;
            ways(rt, table, set)
        }
        Asked::Calls(calls) => {
            println!(rt; "{name}:")?;
            runs(rt, bytes, table.routers().len() as u32, calls)
        }
    }
}

// The set whose word a text spells in eight bytes, the highest first; none where it spells anything else.
fn set(heap: Global, text: &str) -> Result<Option<PathSet>, AllocError> {
    let Some(bytes) = spelled(heap, text)? else {
        return Ok(None);
    };
    let word = bytes.as_slice().as_array().copied();
    Ok(word.map(|word| PathSet::from(u64::from_be_bytes(word))))
}

// The set that a line asks about.
fn asked_set(heap: Global, text: &str) -> anyhow::Result<PathSet> {
    set(heap, text)?.context("a line whose set is not eight bytes")
}

// A line is a name, a colon and the bytes; where rules are asked, a semicolon and a set; where ways are asked, an
// angle and a set; and where a network is, an exclamation mark and calls with a comma between.
fn line(rt: &HostRuntime, text: &str) -> anyhow::Result<()> {
    let (name, rest) = text.split_once(':').context("a line without a colon")?;
    let (table, asked) = if let Some((table, word)) = rest.split_once(';') {
        (table, Asked::Rules(asked_set(rt.alloc(), word)?))
    } else if let Some((table, word)) = rest.split_once('>') {
        (table, Asked::Ways(asked_set(rt.alloc(), word)?))
    } else if let Some((table, calls)) = rest.split_once('!') {
        (table, Asked::Calls(calls))
    } else {
        (rest, Asked::Records)
    };
    let bytes = spelled(rt.alloc(), table)?.context("a line that spells no bytes")?;
    play(rt, name, bytes.as_slice(), asked)
}

fn run(rt: &HostRuntime) -> anyhow::Result<()> {
    let proved = worked_cases();
    println!(rt; "{proved} worked cases are proved")?;
    for text in rt.lines(rt.alloc()) {
        line(rt, text?.as_str())?;
    }
    Ok(())
}

fn main(rt: HostRuntime) -> anyhow::Result<()> {
    run(&rt)
}
