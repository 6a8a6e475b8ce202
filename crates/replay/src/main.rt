// Plays a script of calls from standard input on a network under the five-stage rule, and prints what each call answered and
// altered.
#![tactic(auto)]

ghost use Rattle.std.specs.Prelude.{◌≡◌};
ghost use Rattle.calls.specs.Follows.{Follows};
ghost use Rattle.calls.specs.Promise.{Plays, run_of, world_of};
ghost use Rattle.reflectors.specs.Reached.{world_in};
ghost use Rattle.selection.specs.Stages.{keep_five_stage};

mod command;
mod parse;
mod print;
mod script;

use crate::script::{Entry, Script, turns};
use anyhow::{Error, anyhow};
use calls::Turn;
use listing::MOST_BYTES;
use reflectors::{Played, Reached, play};
use rules::FiveStage;
use std::io;
use std::io::{BufWriter, Read, Write};
use std::process::ExitCode;

// Plays the calls in their order, on a network that begins empty, with these bytes for what they write.
fn played(turns: &mut [Turn], bytes: &mut [u8]) -> Played<FiveStage>
    ensures turns { turns.new ≡ (run_of keep_five_stage bytes.old turns.old).turns }
    ensures played { result.played ≡ (run_of keep_five_stage bytes.old turns.old).made }
    ensures world { world_in result.network bytes.new ≡ world_of keep_five_stage bytes.old turns.old }
    ensures plays { Plays keep_five_stage bytes.old turns.old }
    ensures follows { Follows keep_five_stage bytes.old turns.old }
{
    play(FiveStage, turns, bytes)
}

// Prints the list of a settled network.
fn list<W: Write>(out: &mut W, network: Reached<FiveStage>) -> anyhow::Result<()> {
    let network = match network {
        Reached::Running(running) => running.settle(),
        Reached::Settled(settled) => settled,
    };
    let mut buffer = [0; MOST_BYTES];
    let count = network.list(&mut buffer)?;
    out.write_all(buffer.get(..count).unwrap_or_default())?;
    Ok(())
}

// Why a call was not made.
fn misplaced(entry: &Entry, network: &Reached<FiveStage>) -> Error {
    let (line, command) = (entry.line, &entry.command);
    match network {
        Reached::Running(_) => {
            anyhow!(
                "line {line}: `{command}` is out of place: the network is running, and wants `settle` first"
            )
        }
        Reached::Settled(_) => {
            anyhow!(
                "line {line}: `{command}` is out of place: the network is settled, and wants `reopen` first"
            )
        }
    }
}

// Plays a script and prints what came of it. Answers why the run ended before the script did.
fn run(rt: &HostRuntime) -> anyhow::Result<Option<Error>> {
    let mut text = Vec::new(rt.alloc());
    rt.stdin().read_to_end(&mut text)?;
    let script = Script::read(rt, text.as_slice())?;
    let entries = script.entries.as_slice();
    let mut turns = turns(rt.alloc(), entries)?;
    let mut bytes = vec![in rt.alloc(); 0; script.room]?;
    let Played { network, played } = played(turns.as_mut_slice(), bytes.as_mut_slice());
    let mut out = BufWriter::new(rt.alloc(), io::writer(rt))?;
    let settled = print::lines(&mut out, entries, turns.as_slice(), bytes.as_slice())?;
    let ending = match entries.get(played) {
        Some(entry) => Some(misplaced(entry, &network)),
        None => script.ending,
    };
    if ending.is_none() && settled {
        list(&mut out, network)?;
    }
    out.flush()?;
    Ok(ending)
}

fn main(rt: HostRuntime) -> anyhow::Result<ExitCode> {
    match run(&rt)? {
        None => Ok(ExitCode::SUCCESS),
        Some(ending) => {
            eprintln!(rt; "replay: {ending:#}")?;
            Ok(ExitCode::FAILURE)
        }
    }
}
