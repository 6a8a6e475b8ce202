ghost use Rattle.std.specs.Prelude.{◌≡◌};
ghost use Rattle.selection.specs.Laws.{declared_of};
ghost use Rattle.selection.specs.Stages.{keep_extreme};
ghost use Rattle.selection.specs.declared.criterion.Criterion.TheVariants.{HighestPreference, ShortestAsPath};

use crate::extreme::Extreme;
use crate::rule::Rule;
use layout::ExitPath;
use selection::Criterion;
use sets::PathSet;

// The highest preference, then the shortest AS path, then what the rule below keeps.
pub fn keep_shortest<R: Rule + Copy>(below: R, paths: &[ExitPath], set: PathSet) -> PathSet
    ensures { result
        ≡ keep_extreme HighestPreference (keep_extreme ShortestAsPath (R.kept below)) paths.now (declared_of paths.now set) }
{
    let length = Extreme::new(Criterion::ShortestAsPath, below);
    Extreme::new(Criterion::HighestPreference, length).keep(paths, set)
}
