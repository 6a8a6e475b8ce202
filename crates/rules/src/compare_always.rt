ghost use Rattle.std.specs.Prelude.{◌≡◌, ℕ, Decides};
ghost use Rattle.selection.specs.Laws.{declared_of};
ghost use Rattle.selection.specs.Plain.{CompareAlwaysKeeps};
ghost use Rattle.selection.specs.Stages.{keep_compare_always};
ghost use Rattle.selection.proofs.RuleLaws.{compare_always_laws};
ghost use Rattle.sets.specs.Members.{member};

use crate::all::All;
use crate::extreme::Extreme;
use crate::rule::Rule;
use crate::shortest::keep_shortest;
use layout::ExitPath;
use selection::Criterion;
use sets::PathSet;

// The highest preference, then the shortest AS path, then the lowest MED, whatever the neighbour AS. A type of its own,
// as `FiveStage` is.
#[derive(Clone, Copy, Debug, PartialEq, Eq)]
pub struct CompareAlways;

impl Rule for CompareAlways {
    ghost kept = { λ _. keep_compare_always };

    ghost laws = { λ _. compare_always_laws };

    fn keep(&self, paths: &[ExitPath], set: PathSet) -> PathSet
        ensures value { result ≡ keep_compare_always paths.now (declared_of paths.now set) }
        ensures plain { (p : ℕ) → Decides (member result p) (CompareAlwaysKeeps paths.now set p) }
    {
        keep_shortest(Extreme::new(Criterion::LowestMed, All), paths, set)
    }
}
