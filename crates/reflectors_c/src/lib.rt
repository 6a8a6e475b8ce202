// The direct answer for a host in C: numbers and slices of bytes only.
#![tactic(auto)]

ghost use Rattle.std.specs.Prelude.{◌≡◌, ◌≤◌, length, IfErr};
ghost use Rattle.direct.specs.Answers.{direct_answer, direct_bytes};
ghost use Rattle.faults.specs.Faults.{call_place_of};
ghost use Rattle.reflectors_c.specs.Coded.{coded, HostAnswer};
ghost use Rattle.reflectors_c.specs.Tells.{HostTells};

use direct::direct;
use faults::{CallFault, Fault};

// An answer as one number: 0, or the number of the refusal and 256 times its place.
fn code(answer: Result<(), CallFault>) -> u64
    requires near { IfErr answer (λ fault. call_place_of fault ≤ 2272) }
    ensures { result ≡ coded answer }
{
    match answer {
        Ok(()) => 0,
        Err(fault) => fault.number() as u64 + 256 * fault.place() as u64,
    }
}

// `direct`, with its answer as one number.
#[unsafe(no_mangle)]
pub extern "C" fn reflectors_direct(table: &[u8], injected: u64, buffer: &mut [u8]) -> u64
    ensures value { result ≡ coded (direct_answer table.now injected (length buffer.old)) }
    ensures bytes { buffer.new ≡ direct_bytes table.now injected buffer.old }
    ensures promise { HostAnswer table.now injected buffer.old buffer.new result }
    ensures tells { HostTells table.now injected buffer.old buffer.new result }
{
    code(direct(table, injected, buffer))
}
