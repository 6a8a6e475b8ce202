ghost use Rattle.std.specs.Prelude.{◌≡◌, ◌&&◌, [], List, ◌∷◌, ◌++◌, length, map, IsTrue, OnOk, OnErr, nat_lt};
ghost use Rattle.layout.specs.Checks.{declaring, clients_of_one, repeats};
ghost use Rattle.layout.specs.Table.{nothing};
ghost use Rattle.layout.specs.WellFormed.{session_ends};
ghost use Rattle.layout.specs.declared.link.Pair.{Pair};
ghost use Rattle.records.specs.Readings.{kind_in, body_in};
ghost use Rattle.records.specs.declared.kind.Kind.TheVariants.{Router as router_kind, Link as link_kind, Session as session_kind, Path as path_kind};
ghost use Rattle.declarations.specs.Held.{declared_in, fitting, joining, outcome, Declares};
ghost use Rattle.declarations.specs.Joined.{PairFits, Recalls};

use crate::declarations::Declarations;
use crate::joined::Joined;
use crate::numbers::four_bytes;
use arrays::ArrayVec;
use faults::TableFault;
use layout::{ExitPath, Link, Pair, Role, Router, Session};
use records::{Placed, Record};

// Whether a list has room for the record at a place.
fn check_room<T: Copy, const N: usize>(
    list: &ArrayVec<T, N>,
    place: usize,
) -> Result<(), TableFault>
    ensures { result ≡ fitting N (length list.now) place }
{
    if list.is_full() {
        return Err(TableFault::TooMany(place));
    }
    Ok(())
}

// Adds what the record at a place declares to a list.
fn add<T: Copy, const N: usize>(
    list: &mut ArrayVec<T, N>,
    place: usize,
    x: T,
) -> Result<(), TableFault>
    ensures room { result ≡ fitting N (length list.old) place }
    ensures ok { OnOk result (list.new ≡ list.old ++ x ∷ []) }
    ensures err { OnErr result (list.new ≡ list.old) }
{
    list.try_push(x).map_err(|_| TableFault::TooMany(place))
}

impl Declarations {
    // Nothing declared.
    pub fn new() -> Declarations
        ensures { declared_in result ≡ nothing }
    {
        Declarations {
            routers: ArrayVec::new(Router::default()),
            links: ArrayVec::new(Link::default()),
            sessions: ArrayVec::new(Session::default()),
            paths: ArrayVec::new(ExitPath::default()),
            linked: Joined::new(),
            in_session: Joined::new(),
        }
    }

    // Whether both routers are declared.
    fn declares(&self, pair: Pair) -> bool
        ensures value { result ≡ (nat_lt pair.a (length (declared_in self.now).routers) && nat_lt pair.b (length (declared_in self.now).routers)) }
        ensures fits { IsTrue result → PairFits pair }
    {
        let count = self.routers.len();
        (pair.a as usize) < count && (pair.b as usize) < count
    }

    // Whether both are clients of one cluster.
    fn clients_of_one(&self, pair: Pair) -> bool
        ensures { result ≡ clients_of_one (declared_in self.now).routers pair }
    {
        let routers = self.routers.as_slice();
        let ends = (routers.get(pair.a as usize), routers.get(pair.b as usize));
        let (Some(one), Some(other)) = ends else {
            return false;
        };
        one.role.is_client() && other.role.is_client() && one.cluster == other.cluster
    }

    // Whether a record may join two routers: both are declared, they differ, and none of the earlier ones of its kind,
    // whose pairs `joined` holds, joins them.
    fn check_ends(&self, place: usize, ends: Pair, joined: &Joined) -> Result<(), TableFault>
        ensures value { (earlier : List Pair) → Recalls joined.now earlier → result ≡ joining (declared_in self.now) place ends earlier }
        ensures fits { OnOk result (PairFits ends) }
    {
        if !self.declares(ends) {
            return Err(TableFault::OutOfRange(place));
        }
        if ends.a == ends.b || joined.joins(ends) {
            return Err(TableFault::BadPair(place));
        }
        Ok(())
    }

    // A method for each kind. The place and the body come apart: the body's type says how long it is, and differs.
    fn router(&mut self, place: usize, body: &[u8; 2]) -> Result<(), TableFault>
        ensures { Declares (declared_in self.old) place router_kind body.now result (declared_in self.new) }
    {
        check_room(&self.routers, place)?;
        let cluster = body[0];
        if cluster >= 32 {
            return Err(TableFault::OutOfRange(place));
        }
        let role = Role::try_from(body[1]).map_err(|_| TableFault::OutOfRange(place))?;
        add(&mut self.routers, place, Router { cluster, role })
    }

    fn link(&mut self, place: usize, body: &[u8; 4]) -> Result<(), TableFault>
        ensures { Declares (declared_in self.old) place link_kind body.now result (declared_in self.new) }
    {
        check_room(&self.links, place)?;
        let [a, b, high, low] = *body;
        let ends = Pair { a, b };
        let metric = u16::from_be_bytes([high, low]);
        if metric == 0 {
            return Err(TableFault::OutOfRange(place));
        }
        self.check_ends(place, ends, &self.linked)?;
        add(&mut self.links, place, Link { ends, metric })?;
        self.linked.join(ends);
        Ok(())
    }

    fn session(&mut self, place: usize, body: &[u8; 2]) -> Result<(), TableFault>
        ensures { Declares (declared_in self.old) place session_kind body.now result (declared_in self.new) }
    {
        check_room(&self.sessions, place)?;
        let [a, b] = *body;
        let ends = Pair { a, b };
        self.check_ends(place, ends, &self.in_session)?;
        if !self.clients_of_one(ends) {
            return Err(TableFault::BadSession(place));
        }
        add(&mut self.sessions, place, Session { ends })?;
        self.in_session.join(ends);
        Ok(())
    }

    fn path(&mut self, place: usize, body: &[u8; 20]) -> Result<(), TableFault>
        ensures { Declares (declared_in self.old) place path_kind body.now result (declared_in self.new) }
    {
        check_room(&self.paths, place)?;
        let exit_point = body[0];
        let as_path_len = body[9];
        if exit_point as usize >= self.routers.len() || as_path_len == 0 {
            return Err(TableFault::OutOfRange(place));
        }
        let path = ExitPath {
            exit_point,
            neighbour_as: four_bytes(body, 1),
            local_pref: four_bytes(body, 5),
            as_path_len,
            med: four_bytes(body, 10),
            exit_cost: u16::from_be_bytes([body[14], body[15]]),
            speaker: four_bytes(body, 16),
        };
        add(&mut self.paths, place, path)
    }

    // One record more, or the first rule that it breaks.
    pub fn declare(&mut self, found: Placed) -> Result<(), TableFault>
        ensures value { outcome result (declared_in self.new) ≡ declaring (declared_in self.old) found.entry.place (kind_in found.entry.record) (body_in found.entry.record) }
        ensures kept { OnErr result (declared_in self.new ≡ declared_in self.old) }
    {
        match found.record {
            Record::Router(body) => self.router(found.place, body),
            Record::Link(body) => self.link(found.place, body),
            Record::Session(body) => self.session(found.place, body),
            Record::Path(body) => self.path(found.place, body),
        }
    }

    // Whether a session joins two routers, in either order.
    pub fn in_session(&self, pair: Pair) -> bool
        ensures { result ≡ (nat_lt pair.a 32 && (nat_lt pair.b 32 && repeats pair (map session_ends (declared_in self.now).sessions))) }
    {
        pair.a < 32 && pair.b < 32 && self.in_session.joins(pair)
    }
}
