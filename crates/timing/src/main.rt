// Reads a table from standard input and prints how long calls on its network take, in nanoseconds: a step of all routers, a step
// of one, settling, and the list. All paths are injected and the network is settled before, so that no call alters a set. Of no
// bytes it prints nothing.
#![tactic(auto)]

use listing::MOST_BYTES;
use reflectors::{Running, Settled};
use rules::FiveStage;
use sets::RouterSet;
use std::io::Read;
use std::time::{Clock, Duration, Instant};
use tables::Table;

// The least of so many batches counts, each of so many calls.
const BATCHES: u32 = 50;

const CALLS: u32 = 50;

// The least time of a batch so far, of each kind of call.
#[derive(Clone, Copy)]
struct Least {
    step_all: Duration,
    step_one: Duration,
    settle: Duration,
    list: Duration,
}

// A network of the table with all its paths injected.
fn settled(bytes: &[u8], paths: u32) -> anyhow::Result<Settled<FiveStage>> {
    let mut network = Running::new(FiveStage);
    network.load(bytes)?;
    for path in 0..paths {
        network.inject(path)?;
    }
    Ok(network.settle())
}

// A batch of steps of the same routers.
fn steps(
    rt: &impl Clock,
    network: &mut Running<FiveStage>,
    named: u32,
) -> anyhow::Result<Duration> {
    let start = Instant::now(rt)?;
    for _ in 0..CALLS {
        network.step(named)?;
    }
    Ok(start.elapsed(rt)?)
}

// A batch of steps of one router each, which take turns.
fn single_steps(
    rt: &impl Clock,
    network: &mut Running<FiveStage>,
    all: u32,
) -> anyhow::Result<Duration> {
    let start = Instant::now(rt)?;
    let mut named = 1;
    for _ in 0..CALLS {
        network.step(named)?;
        named <<= 1;
        if named & all == 0 {
            named = 1;
        }
    }
    Ok(start.elapsed(rt)?)
}

fn run(rt: &HostRuntime) -> anyhow::Result<()> {
    let mut bytes = Vec::new(rt.alloc());
    rt.stdin().read_to_end(&mut bytes)?;
    // without a byte there is nothing to time
    if bytes.as_slice().is_empty() {
        return Ok(());
    }
    let table = Table::read(bytes.as_slice())?;
    let all = u32::from(RouterSet::first(table.routers().len() as u32));
    let mut network = settled(bytes.as_slice(), table.paths().len() as u32)?;
    let mut buffer = [0; MOST_BYTES];
    let mut least = Least {
        step_all: Duration::MAX,
        step_one: Duration::MAX,
        settle: Duration::MAX,
        list: Duration::MAX,
    };
    for _ in 0..BATCHES {
        let mut running = network.reopen();
        least.step_all = least.step_all.min(steps(rt, &mut running, all)?);
        least.step_one = least.step_one.min(single_steps(rt, &mut running, all)?);
        let start = Instant::now(rt)?;
        for _ in 0..CALLS {
            running = running.settle().reopen();
        }
        least.settle = least.settle.min(start.elapsed(rt)?);
        network = running.settle();
        let start = Instant::now(rt)?;
        for _ in 0..CALLS {
            network.list(&mut buffer)?;
        }
        least.list = least.list.min(start.elapsed(rt)?);
    }
    for time in [least.step_all, least.step_one, least.settle, least.list] {
        println!(rt; "{}", time.as_nanos() / CALLS as u128)?;
    }
    Ok(())
}

fn main(rt: HostRuntime) -> anyhow::Result<()> {
    run(&rt)
}
