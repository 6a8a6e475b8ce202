// Plays which path each router takes, and the way of a packet from there.
use distances::Distances;
use faults::{CallFault, Fault};
use forwarding::{best, metric, next_hop, trace};
use sets::PathSet;
use tables::Table;

// What a buffer holds before a packet is traced; no router has this number.
pub(crate) const UNWRITTEN: u8 = 238;

// Says so where a byte of a buffer was written behind what was told.
pub(crate) fn untouched(rt: &impl Print, behind: &[u8]) -> anyhow::Result<()> {
    if behind.iter().any(|b| *b != UNWRITTEN) {
        println!(rt; "  a byte behind what was told was written")?;
    }
    Ok(())
}

// The routers that a packet meets, and the path by which it leaves.
pub(crate) fn leaves(rt: &impl Print, met: &[u8], path: u8) -> anyhow::Result<()> {
    print!(rt; " meets")?;
    for v in met {
        print!(rt; " {v}")?;
    }
    print!(rt; " leaves P{path}")?;
    Ok(())
}

// The routers that a packet from this router meets, and the path by which it leaves.
fn way(rt: &impl Print, distances: &Distances, router: u32, set: PathSet) -> anyhow::Result<()> {
    let mut met = [UNWRITTEN; 40];
    let count = match trace(distances, router, set, &mut met) {
        Ok(Some(way)) => {
            leaves(rt, met.get(..way.count).unwrap_or_default(), way.path)?;
            way.count
        }
        Ok(None) => {
            print!(rt; " goes nowhere")?;
            0
        }
        Err(fault) => {
            print!(rt; ", trace {} at {}", fault.number(), fault.place())?;
            0
        }
    };
    println!(rt; "")?;
    untouched(rt, met.get(count..).unwrap_or_default())
}

// The best path of a router and its metric, and the way of a packet; or why it is refused to tell.
fn router(rt: &impl Print, distances: &Distances, v: u32, set: PathSet) -> anyhow::Result<()> {
    match best(distances, v, set) {
        Ok(Some(path)) => {
            let cost = metric(distances, v, path as u32)?;
            print!(rt; "  R{v} P{path} {cost}")?;
        }
        Ok(None) => print!(rt; "  R{v} - -")?,
        Err(fault) => print!(rt; "  R{v} best {} at {}", fault.number(), fault.place())?,
    }
    way(rt, distances, v, set)
}

// What a call answered that is to be refused.
pub(crate) fn refused<T: Drop>(
    rt: &impl Print,
    call: &str,
    answer: Result<T, CallFault>,
) -> anyhow::Result<()> {
    match answer {
        Ok(_) => println!(rt; "  {call} is not refused")?,
        Err(fault) => println!(rt; "  {call} {} at {}", fault.number(), fault.place())?,
    }
    Ok(())
}

// What is refused about numbers past the last router and the last path, and about a buffer that is short.
fn refusals(rt: &impl Print, distances: &Distances, set: PathSet) -> anyhow::Result<()> {
    let v = distances.table().routers().len() as u32;
    let p = distances.table().paths().len() as u32;
    let mut met = [UNWRITTEN; 31];
    refused(rt, "best", best(distances, v, set))?;
    refused(
        rt,
        "metric of a path and at a router",
        metric(distances, v, p),
    )?;
    refused(rt, "metric at a router", metric(distances, v, 0))?;
    refused(rt, "next hop", next_hop(distances, u32::MAX, v))?;
    refused(
        rt,
        "trace from a router into 31 bytes",
        trace(distances, v, set, &mut met),
    )?;
    refused(
        rt,
        "trace into 31 bytes",
        trace(distances, 0, set, &mut met),
    )?;
    untouched(rt, &met)
}

// Of a table and a set of its paths, a line a router, and then what is refused.
pub(crate) fn ways(rt: &impl Print, table: Table, set: PathSet) -> anyhow::Result<()> {
    let distances = Distances::of(table);
    for v in 0..distances.table().routers().len() {
        router(rt, &distances, v as u32, set)?;
    }
    refusals(rt, &distances, set)
}
