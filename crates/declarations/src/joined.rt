ghost use Rattle.std.specs.Prelude.{◌≡◌, ℕ, ◌<◌, ◌&&◌, ◌||◌, ◌==◌, List, [], ◌∷◌, ◌++◌, slice_index};
ghost use Rattle.sets.specs.Members.{member};
ghost use Rattle.layout.specs.Checks.{repeats};
ghost use Rattle.layout.specs.declared.link.Pair.{Pair};
ghost use Rattle.declarations.specs.Joined.{PairFits, Recalls};

use layout::Pair;
use sets::RouterSet;

// Pairs of routers, for a look that takes the same time however many they are.
#[derive(Drop)]
pub(crate) struct Joined {
    // Those that some pair joins to router a, in place a: a `RouterSet` as its word of 32 bits, which is half as wide.
    to: [u32; 32],
}

impl Joined {
    // No pair.
    pub(crate) fn new() -> Joined
        ensures { Recalls result [] }
    {
        Joined { to: [0; 32] }
    }

    // Whether one of the pairs is these two routers, in either order.
    pub(crate) fn joins(&self, pair: Pair) -> bool
        requires { PairFits pair }
        ensures { (pairs : List Pair) → Recalls self.now pairs → result ≡ repeats pair pairs }
    {
        RouterSet::from(self.to[pair.a as usize]).contains(u32::from(pair.b))
    }

    // One pair more.
    pub(crate) fn join(&mut self, pair: Pair)
        requires { PairFits pair }
        ensures { (pairs : List Pair) → Recalls self.old pairs → Recalls self.new (pairs ++ pair ∷ []) }
    {
        self.join_one_way(pair.a, pair.b);
        self.join_one_way(pair.b, pair.a);
    }

    // Joins router b to router a.
    fn join_one_way(&mut self, a: u8, b: u8)
        requires { a < 32 }
        ensures { (x y : ℕ) → y < 32 → member (slice_index self.new.to x) y ≡ (member (slice_index self.old.to x) y || (x == a && y == b)) }
    {
        let joined = RouterSet::from(self.to[a as usize]);
        self.to[a as usize] = u32::from(joined.with(u32::from(b)));
    }
}
