// Reads a table from standard input, injects every path of it and settles the network, and prints which path each router
// takes then, or why the table is refused.
#![tactic(auto)]

ghost use Rattle.std.specs.Prelude.{◌≡◌, ◌≤◌, IfOk, MatchResult, Ok, Err};
ghost use Rattle.faults.specs.declared.call.CallFault.TheVariants.{Load};
ghost use Rattle.faults.specs.declared.load.LoadFault.{LoadFault};
ghost use Rattle.layout.specs.Reading.{table_in};
ghost use Rattle.layout.specs.Table.{Declared};
ghost use Rattle.network.specs.Running.{rule_of, state_of};
ghost use Rattle.network.specs.Settled.{rule_of as settled_rule, state_of as settled_state};
ghost use Rattle.settle.specs.Report.{AllInjected, report_length, report_bytes};

use faults::{CallFault, Fault};
use listing::MOST_BYTES;
use reflectors::{Running, Settled};
use rules::{FiveStage, Rule};
use std::io;
use std::io::{Read, Write};

// Injects every path: one number after another, up to the first that is not declared.
fn inject_all<R: Rule>(network: &mut Running<R>)
    requires none { (state_of network.old).injected ≡ 0 }
    ensures all { AllInjected (state_of network.old).table (state_of network.new) }
    ensures rule { rule_of network.new ≡ rule_of network.old }
{
    for path in 0..u64::BITS {
        if network.inject(path).is_err() {
            return;
        }
    }
}

// The settled network of a table, with every path injected, or why the table is refused.
fn settled_with_all<R: Rule + Drop>(rule: R, bytes: &[u8]) -> Result<Settled<R>, CallFault>
    ensures { MatchResult result
        (λ n. (t : Declared) × (table_in bytes.now ≡ Ok t) × AllInjected t (settled_state n)
        × (settled_rule n ≡ rule))
        (λ fault. (why : LoadFault) × (table_in bytes.now ≡ Err why) × (fault ≡ Load why)) }
{
    let mut network = Running::new(rule);
    network.load(bytes)?;
    inject_all(&mut network);
    Ok(network.settle())
}

// Writes which path each router takes when every path is injected, under the five-stage rule. Answers how many bytes
// that takes, or why the table is refused.
fn report(bytes: &[u8], buffer: &mut [u8; MOST_BYTES]) -> Result<usize, CallFault>
    ensures value { result ≡ report_length (table_in bytes.now) }
    ensures bytes { buffer.new ≡ report_bytes (table_in bytes.now) buffer.old }
    ensures short { IfOk result (λ n. n ≤ 512) }
{
    settled_with_all(FiveStage, bytes)?.list(buffer)
}

// The number and the place, and on standard error the reason in words.
fn refuse<R: Print + Eprint>(rt: &R, fault: CallFault) -> anyhow::Result<()> {
    println!(rt; "{} {}", fault.number(), fault.place())?;
    eprintln!(rt; "settle: refused at {fault}")?;
    Ok(())
}

fn run(rt: &HostRuntime) -> anyhow::Result<()> {
    let mut bytes = Vec::new(rt.alloc());
    rt.stdin().read_to_end(&mut bytes)?;
    let mut buffer = [0; MOST_BYTES];
    match report(bytes.as_slice(), &mut buffer) {
        Ok(count) => io::writer(rt).write_all(&buffer[..count])?,
        Err(fault) => refuse(rt, fault)?,
    }
    Ok(())
}

fn main(rt: HostRuntime) -> anyhow::Result<()> {
    run(&rt)
}
