ghost use Rattle.std.specs.Prelude.{◌≡◌};

// Two routers by their numbers, in no order.
#[derive(Clone, Copy, Debug, Default, PartialEq, Eq)]
pub struct Pair {
    pub a: u8,
    pub b: u8,
}

// A link between two routers; it works both ways.
#[derive(Clone, Copy, Debug, Default, PartialEq, Eq)]
pub struct Link {
    pub ends: Pair,
    pub metric: u16,
}

// A session between two clients of one cluster.
#[derive(Clone, Copy, Debug, Default, PartialEq, Eq)]
pub struct Session {
    pub ends: Pair,
}

impl Pair {
    ghost use Rattle.layout.specs.Checks.{same_pair};

    // Whether both are the same two routers, in either order.
    pub fn same(self, other: Pair) -> bool
        ensures { result ≡ same_pair self other }
    {
        let turned = Pair {
            a: other.b,
            b: other.a,
        };
        self == other || self == turned
    }
}
