ghost use Rattle.std.specs.Prelude.{◌≡◌};
ghost use Rattle.costs.specs.Cost.{CostLaws, plain};

// The metric of a router to which there is no way, or none that 32 bits can tell. A number and no `None`, since the
// laws of a cost want it in the order, as the largest, and joined as any other.
pub const UNREACHED: u32 = u32::MAX;

// The metric of one way and then another.
pub fn join(a: u32, b: u32) -> u32
    ensures value { result ≡ plain.join a b }
    ensures laws { CostLaws plain }
{
    a.saturating_add(b)
}
