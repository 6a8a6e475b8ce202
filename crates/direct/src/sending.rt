ghost use Rattle.std.specs.Prelude.{◌≡◌, length, Ok};
ghost use Rattle.distances.specs.Answered.{declared_by};
ghost use Rattle.direct.specs.Answers.{bytes_sent, direct_answer, direct_bytes};
ghost use Rattle.direct.specs.Promise.{Directs};
ghost use Rattle.direct.specs.Tells.{DirectTells};
ghost use Rattle.selection.specs.Laws.{AllDeclared};

use distances::Distances;
use faults::CallFault;
use forwarding::best;
use rules::{FiveStage, advertised};
use sets::PathSet;
use tables::Table;

// Room for a byte a router, whatever the table declares.
const MOST_ROUTERS: usize = 32;

// The byte of a router without a path.
const NO_PATH: u8 = 255;

// A byte for each router: its best path of a set of declared paths.
fn write(distances: &Distances, set: PathSet, routers: &mut [u8]) -> Result<(), CallFault>
    requires each { length routers.old ≡ length (declared_by distances.now).routers }
    requires all { AllDeclared (declared_by distances.now).paths set }
    ensures done { result ≡ Ok tt }
    ensures bytes { routers.new ≡ bytes_sent (declared_by distances.now) set }
{
    for (router, byte) in routers.iter_mut().enumerate() {
        *byte = best(distances, router as u32, set)?.unwrap_or(NO_PATH);
    }
    Ok(())
}

// Which path every router of a table takes, if these paths are injected: its best path of what the five-stage rule keeps
// of them goes into the buffer, one byte a router, and 255 where there is none. Bytes past them stay as they were.
pub fn direct(bytes: &[u8], injected: u64, buffer: &mut [u8]) -> Result<(), CallFault>
    ensures value { result ≡ direct_answer bytes.now injected (length buffer.old) }
    ensures bytes { buffer.new ≡ direct_bytes bytes.now injected buffer.old }
    ensures promise { Directs bytes.now injected buffer.old buffer.new result }
    ensures tells { DirectTells bytes.now injected buffer.old buffer.new result }
{
    let table = Table::read(bytes)?;
    let injected = PathSet::from(injected);
    if let Some(path) = injected.least_from(table.paths().len() as u32) {
        return Err(CallFault::UndeclaredPath(path));
    }
    if buffer.len() < MOST_ROUTERS {
        return Err(CallFault::ShortBuffer(MOST_ROUTERS));
    }
    let kept = advertised(&FiveStage, table.paths(), injected);
    let count = table.routers().len();
    write(&Distances::of(table), kept, &mut buffer[..count])
}
