ghost use Rattle.std.specs.Prelude.{◌≡◌, ℕ, Decides};
ghost use Rattle.selection.specs.Laws.{declared_of};
ghost use Rattle.selection.specs.Plain.{FiveStageKeeps};
ghost use Rattle.selection.specs.Stages.{keep_five_stage};
ghost use Rattle.selection.proofs.RuleLaws.{five_stage_laws};
ghost use Rattle.sets.specs.Members.{member};

use crate::all::All;
use crate::extreme::Extreme;
use crate::per_neighbour::PerNeighbour;
use crate::rule::Rule;
use crate::shortest::keep_shortest;
use layout::ExitPath;
use selection::Criterion;
use sets::PathSet;

// The highest preference, then the shortest AS path, then for each neighbour AS the lowest MED. A type of its own, as a
// value of `Extreme` has a type with other criteria too, whose `keep` could not promise the plain terms.
#[derive(Clone, Copy, Debug, PartialEq, Eq)]
pub struct FiveStage;

impl Rule for FiveStage {
    ghost kept = { λ _. keep_five_stage };

    ghost laws = { λ _. five_stage_laws };

    fn keep(&self, paths: &[ExitPath], set: PathSet) -> PathSet
        ensures value { result ≡ keep_five_stage paths.now (declared_of paths.now set) }
        ensures plain { (p : ℕ) → Decides (member result p) (FiveStageKeeps paths.now set p) }
    {
        let med = Extreme::new(Criterion::LowestMed, All);
        keep_shortest(PerNeighbour::new(med), paths, set)
    }
}
