ghost use Rattle.std.specs.Prelude.{◌≡◌};
ghost use Rattle.selection.specs.Laws.{AllDeclared};
ghost use Rattle.selection.specs.Stages.{keep_per_neighbour, through};
ghost use Rattle.selection.proofs.NeighbourLaws.{per_neighbour_laws};

use crate::declared::declared_of;
use crate::rule::Rule;
use layout::ExitPath;
use sets::PathSet;

// Keeps what the rule below keeps of the paths through each neighbour AS.
#[derive(Clone, Copy, Debug, PartialEq, Eq)]
pub struct PerNeighbour<R> {
    below: R,
}

impl<R> PerNeighbour<R> {
    pub fn new(below: R) -> Self
        ensures { result ≡ record { below = below } }
    {
        PerNeighbour { below }
    }
}

// The paths of a set through a neighbour AS. A loop, as `filter` on a set would take a closure, and each call would say
// again what that answers.
fn through(paths: &[ExitPath], set: PathSet, neighbour_as: u32) -> PathSet
    requires { AllDeclared paths.now set }
    ensures { result ≡ through paths.now set neighbour_as }
{
    let mut found = PathSet::empty();
    for p in set {
        if paths[p as usize].neighbour_as == neighbour_as {
            found = found.with(p);
        }
    }
    found
}

impl<R: Rule> Rule for PerNeighbour<R> {
    ghost kept = { λ rule. keep_per_neighbour (R.Rule.kept rule.below) };

    ghost laws = { λ rule. per_neighbour_laws (R.Rule.laws rule.below) };

    fn keep(&self, paths: &[ExitPath], set: PathSet) -> PathSet {
        let mut kept = PathSet::empty();
        let mut rest = declared_of(paths, set);
        // A whole part is taken out each time, so that the rule below is asked once for each neighbour AS.
        while let Some(p) = rest.least() {
            let part = through(paths, rest, paths[p as usize].neighbour_as);
            kept = kept.union(self.below.keep(paths, part));
            rest = rest.difference(part);
        }
        kept
    }
}
