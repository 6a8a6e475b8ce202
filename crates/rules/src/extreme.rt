ghost use Rattle.std.specs.Prelude.{◌≡◌};
ghost use Rattle.selection.specs.Laws.{AllDeclared};
ghost use Rattle.selection.specs.Stages.{extremes, keep_extreme};
ghost use Rattle.selection.proofs.ExtremeLaws.{extreme_laws};

use crate::declared::declared_of;
use crate::rule::Rule;
use layout::ExitPath;
use selection::Criterion;
use sets::PathSet;

// Keeps what the rule below keeps of the best paths by one criterion.
#[derive(Clone, Copy, Debug, PartialEq, Eq)]
pub struct Extreme<R> {
    criterion: Criterion,
    below: R,
}

impl<R> Extreme<R> {
    pub fn new(criterion: Criterion, below: R) -> Self
        ensures { result ≡ record { criterion = criterion; below = below } }
    {
        Extreme { criterion, below }
    }
}

// The paths of a set than which none of it is better, in one pass over the set.
fn extremes(criterion: Criterion, paths: &[ExitPath], set: PathSet) -> PathSet
    requires { AllDeclared paths.now set }
    ensures { result ≡ extremes criterion paths.now set }
{
    let mut picked = PathSet::empty();
    // One pass, which looks at each path once: the least rank by `min`, and then the paths that have it, would look twice.
    // No rank passes the largest number, so the first path needs no case of its own.
    let mut lowest = u32::MAX;
    for p in set {
        let rank = criterion.rank(paths[p as usize]);
        if rank < lowest {
            lowest = rank;
            picked = PathSet::empty().with(p);
        } else if rank == lowest {
            picked = picked.with(p);
        }
    }
    picked
}

impl<R: Rule> Rule for Extreme<R> {
    ghost kept = { λ rule. keep_extreme rule.criterion (R.Rule.kept rule.below) };

    ghost laws = { λ rule. extreme_laws rule.criterion (R.Rule.laws rule.below) };

    fn keep(&self, paths: &[ExitPath], set: PathSet) -> PathSet {
        let picked = extremes(self.criterion, paths, declared_of(paths, set));
        self.below.keep(paths, picked)
    }
}
