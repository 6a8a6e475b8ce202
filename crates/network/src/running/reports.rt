ghost use Rattle.std.specs.Prelude.{◌≡◌, ◌≤◌, ◌&&◌, if◌then◌else◌, Ok, Err, IfOk, length, nat_le, nat_lt};
ghost use Rattle.costs.specs.Cost.{plain};
ghost use Rattle.distances.specs.Answered.{of_router};
ghost use Rattle.faults.specs.declared.call.CallFault.TheVariants.{ShortBuffer};
ghost use Rattle.forwarding.specs.Answers.{told, over_written};
ghost use Rattle.listing.specs.Listing.{list_at, list_bytes};
ghost use Rattle.packets.specs.Ways.{way};
ghost use Rattle.protocol.specs.Network.{set_of};
ghost use Rattle.network.specs.Running.{state_of};

use crate::running::Running;
use faults::CallFault;
use forwarding::{Way, trace};
use listing::{MOST_BYTES, list};
use rules::Rule;

// What a settled network offers: no user of a running one reaches these.
impl<R: Rule> Running<R> {
    // The way of a packet from a router, where every router chooses from what this one advertises.
    pub(crate) fn way_from(&self, router: u32, met: &mut [u8]) -> Result<Option<Way>, CallFault>
        ensures value { result ≡ of_router (state_of self.now).table router
            (if nat_le 32 (length met.old)
            then Ok (told (way plain (state_of self.now).table
            (set_of (state_of self.now).advertised router) router))
            else Err (ShortBuffer 32)) }
        ensures bytes { met.new ≡
            (if nat_lt router (length (state_of self.now).table.routers)
            && nat_le 32 (length met.old)
            then over_written (way plain (state_of self.now).table
            (set_of (state_of self.now).advertised router) router) met.old
            else met.old) }
    {
        let Some(peering) = &self.held.peering else {
            return Err(CallFault::UndeclaredRouter(router));
        };
        trace(peering.distances(), router, self.advertises(router), met)
    }

    // A line for each router.
    pub(crate) fn lines(&self, buffer: &mut [u8]) -> Result<usize, CallFault>
        ensures value { result ≡
            list_at (state_of self.now).table (state_of self.now).advertised (length buffer.old) }
        ensures bytes { buffer.new ≡
            list_bytes (state_of self.now).table (state_of self.now).advertised buffer.old }
        ensures short { IfOk result (λ n. n ≤ 512) }
    {
        match &self.held.peering {
            Some(peering) => list(peering.distances(), &self.held.sets.advertised, buffer),
            None if buffer.len() < MOST_BYTES => Err(CallFault::ShortBuffer(MOST_BYTES)),
            None => Ok(0),
        }
    }
}
