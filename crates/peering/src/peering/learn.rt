ghost use Rattle.std.specs.Prelude.{◌≡◌, ℕ, ◌<◌, ◌&&◌, not, length, nat_lt, Ok, IfOk};
ghost use Rattle.distances.specs.Answered.{declared_by, of_router};
ghost use Rattle.protocol.specs.Network.{own_of, learned};
ghost use Rattle.sets.specs.Members.{member};
ghost use Rattle.peering.specs.Seen.{its_distances};
ghost use Rattle.peering.specs.Peered.{exits_by, client_exits_by, peer_by, reflected_by, passed_by};

use crate::peering::Peering;
use faults::CallFault;
use layout::Role;
use sets::{PathSet, RouterSet};

impl Peering {
    // The exit paths of a router.
    fn exits_of(&self, v: usize) -> PathSet
        requires { v < length (declared_by self.now.distances).routers }
        ensures { (p : ℕ) → member result p ≡ exits_by (declared_by self.now.distances) v p }
    {
        self.exits[v]
    }

    // The exit paths of the clients of a router's cluster.
    fn client_exits_of(&self, v: usize) -> PathSet
        requires { v < length (declared_by self.now.distances).routers }
        ensures { (p : ℕ) → member result p ≡ client_exits_by (declared_by self.now.distances) v p }
    {
        self.client_exits[v]
    }

    // The peers of a router.
    fn peers_of(&self, v: usize) -> RouterSet
        requires { v < length (declared_by self.now.distances).routers }
        ensures { (w : ℕ) → member result w ≡ peer_by (declared_by self.now.distances) v w }
    {
        self.peers[v]
    }

    // The paths that do not leave at a router.
    fn exits_elsewhere(&self, v: usize) -> PathSet
        requires { v < length (declared_by self.now.distances).routers }
        ensures { (p : ℕ) → member result p ≡ (nat_lt p (length (declared_by self.now.distances).paths) && not (exits_by (declared_by self.now.distances) v p)) }
    {
        let all = PathSet::first(self.distances.table().paths().len() as u32);
        all.difference(self.exits_of(v))
    }

    // The paths that router w passes to its peer v though it is not their exit point.
    fn reflected(&self, w: usize, v: usize) -> PathSet
        requires from { w < length (declared_by self.now.distances).routers }
        requires to { v < length (declared_by self.now.distances).routers }
        ensures { (p : ℕ) → member result p ≡ reflected_by (declared_by self.now.distances) w v p }
    {
        let routers = self.distances.table().routers();
        let together = routers[w].cluster == routers[v].cluster;
        match (routers[w].role, routers[v].role) {
            (Role::Reflector, Role::Reflector) => {
                if !together {
                    return self.client_exits_of(w);
                }
            }
            (Role::Reflector, Role::Client) => {
                if together {
                    return self.exits_elsewhere(v);
                }
            }
            (Role::Client, _) => {}
        }
        PathSet::empty()
    }

    // The paths of a set that router w passes to its peer v.
    fn passed(&self, w: usize, v: usize, set: PathSet) -> PathSet
        requires from { w < length (declared_by self.now.distances).routers }
        requires to { v < length (declared_by self.now.distances).routers }
        ensures { (p : ℕ) → member result p ≡ (member set p && passed_by (declared_by self.now.distances) w v p) }
    {
        set.intersection(self.exits_of(w).union(self.reflected(w, v)))
    }

    // The index of a router, where it is declared.
    fn index_of(&self, router: u32) -> Result<usize, CallFault>
        ensures value { result ≡ of_router (declared_by self.now.distances) router (Ok router) }
        ensures below { IfOk result (λ v.
            (v ≡ router) × (v < length (declared_by self.now.distances).routers)) }
    {
        self.distances.table().index_of(router)
    }

    // The injected paths of a router.
    pub fn own(&self, injected: PathSet, router: u32) -> Result<PathSet, CallFault>
        ensures { result ≡ of_router (declared_by (its_distances self.now)) router
            (Ok (own_of (declared_by (its_distances self.now)) injected router)) }
    {
        let v = self.index_of(router)?;
        Ok(injected.intersection(self.exits_of(v)))
    }

    // What a router learns: of the injected paths its own, and what its peers pass of the sets that they advertise.
    pub fn learned(
        &self,
        injected: PathSet,
        advertised: &[PathSet; 32],
        router: u32,
    ) -> Result<PathSet, CallFault>
        ensures { result ≡ of_router (declared_by (its_distances self.now)) router
            (Ok (learned (declared_by (its_distances self.now)) injected advertised.now router)) }
    {
        let v = self.index_of(router)?;
        let mut known = injected.intersection(self.exits_of(v));
        for w in self.peers_of(v) {
            known = known.union(self.passed(w as usize, v, advertised[w as usize]));
        }
        Ok(known)
    }
}
