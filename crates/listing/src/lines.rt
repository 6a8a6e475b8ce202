ghost use Rattle.std.specs.Prelude.{◌≡◌, ◌+◌, ◌<◌, ◌≤◌, ◌++◌, ◌↔◌, Ok, Err, IfOk, IfSome, OnErr, OnOk, length};
ghost use Rattle.arrayvec.specs.ArrayString.{array_string_len};
ghost use Rattle.costs.specs.Cost.{plain};
ghost use Rattle.distances.specs.Answered.{declared_by};
ghost use Rattle.faults.specs.declared.call.CallFault.{CallFault as Fault};
ghost use Rattle.listing.specs.Listing.{choice_text, line_of, list_answer, list_at, list_bytes, list_written, named_by};
ghost use Rattle.listing.specs.Refusals.{ListAsked, ListRefused, NoStray};
ghost use Rattle.packets.specs.Best.{best};
ghost use Rattle.selection.specs.Laws.{AllDeclared};

use arrayvec::ArrayString;
use distances::Distances;
use faults::CallFault;
use forwarding::{best, metric};
use itoa::Buffer;
use sets::PathSet;

// The most bytes that a list takes: 32 lines of 16.
pub const MOST_BYTES: usize = 512;

// Adds the best path of a router and its metric, or hyphens where there is none.
fn add_choice(
    distances: &Distances,
    router: u32,
    choice: Option<u8>,
    list: &mut ArrayString<MOST_BYTES>,
) -> Result<(), CallFault>
    requires declared { router < length (declared_by distances.now).routers }
    requires path { IfSome choice (λ p. p < length (declared_by distances.now).paths) }
    requires room { array_string_len list.old + 11 ≤ 512 }
    ensures done { result ≡ Ok tt }
    ensures text { list.new.bytes ≡ list.old.bytes ++ choice_text (declared_by distances.now) router choice }
    ensures short { array_string_len list.new ≤ array_string_len list.old + 11 }
{
    let mut digits = Buffer::new();
    let Some(path) = choice else {
        list.push_str("- -");
        return Ok(());
    };
    list.push('P');
    list.push_str(digits.format(path));
    list.push(' ');
    list.push_str(digits.format(metric(distances, router, path as u32)?));
    Ok(())
}

// The best path of a declared router of declared paths, which is not refused.
fn choice_of(distances: &Distances, router: u32, set: PathSet) -> Result<Option<u8>, CallFault>
    requires declared { router < length (declared_by distances.now).routers }
    requires all { AllDeclared (declared_by distances.now).paths set }
    ensures value { result ≡ Ok (best plain (declared_by distances.now) set router) }
    ensures path { IfOk result (λ choice.
        IfSome choice (λ p. p < length (declared_by distances.now).paths)) }
{
    best(distances, router, set)
}

// Adds the line of a router: its number, and its best path of the set.
fn add_line(
    distances: &Distances,
    router: u32,
    set: PathSet,
    list: &mut ArrayString<MOST_BYTES>,
) -> Result<(), CallFault>
    requires declared { router < length (declared_by distances.now).routers }
    requires all { AllDeclared (declared_by distances.now).paths set }
    requires room { array_string_len list.old + 16 ≤ 512 }
    ensures done { result ≡ Ok tt }
    ensures text { list.new.bytes ≡ list.old.bytes ++ line_of (declared_by distances.now) router set }
    ensures short { array_string_len list.new ≤ array_string_len list.old + 16 }
{
    let choice = choice_of(distances, router, set)?;
    list.push('R');
    list.push_str(Buffer::new().format(router));
    list.push(' ');
    add_choice(distances, router, choice, list)?;
    list.push('\n');
    Ok(())
}

// All paths that the first routers advertise.
fn named(advertised: &[PathSet; 32], count: usize) -> PathSet
    requires { count ≤ 32 }
    ensures { result ≡ named_by advertised.now count }
{
    let mut named = PathSet::default();
    for router in 0..count {
        named = named.union(advertised[router]);
    }
    named
}

// Writes a line for each router over what the buffer held; answers how many bytes they are.
fn write_lines(
    distances: &Distances,
    advertised: &[PathSet; 32],
    buffer: &mut [u8],
) -> Result<usize, CallFault>
    requires all { NoStray (declared_by distances.now) advertised.now }
    requires room { 512 ≤ length buffer.old }
    ensures value { result ≡ list_at (declared_by distances.now) advertised.now (length buffer.old) }
    ensures bytes { buffer.new ≡ list_bytes (declared_by distances.now) advertised.now buffer.old }
    ensures short { IfOk result (λ n. n ≤ 512) }
{
    let count = distances.table().routers().len();
    let mut list = ArrayString::new();
    for (router, set) in advertised[..count].iter().enumerate() {
        add_line(distances, router as u32, *set, &mut list)?;
    }
    let bytes = list.as_str().as_bytes();
    buffer[..bytes.len()].copy_from_slice(bytes);
    Ok(bytes.len())
}

// A line for each router, in the order of their numbers: its number, its best path of those that it advertises, and that path's
// metric. The lines go into the buffer, and bytes past them stay as they were; answers how many bytes they are.
pub fn list(
    distances: &Distances,
    advertised: &[PathSet; 32],
    buffer: &mut [u8],
) -> Result<usize, CallFault>
    ensures value { result
        ≡ list_answer (declared_by distances.now) advertised.now (length buffer.old) }
    ensures bytes { buffer.new
        ≡ list_written (declared_by distances.now) advertised.now buffer.old }
    ensures asked { OnOk result
        (ListAsked (declared_by distances.now) advertised.now (length buffer.old)) }
    ensures refuses { (fault : Fault) → (result ≡ Err fault)
        ↔ ListRefused (declared_by distances.now) advertised.now (length buffer.old) fault }
    ensures unchanged { OnErr result (buffer.new ≡ buffer.old) }
    ensures short { IfOk result (λ n. n ≤ 512) }
{
    let table = distances.table();
    let named = named(advertised, table.routers().len());
    if let Some(path) = named.least_from(table.paths().len() as u32) {
        return Err(CallFault::UndeclaredPath(path));
    }
    if buffer.len() < MOST_BYTES {
        return Err(CallFault::ShortBuffer(MOST_BYTES));
    }
    write_lines(distances, advertised, buffer)
}
