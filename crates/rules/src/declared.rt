ghost use Rattle.std.specs.Prelude.{◌≡◌};
ghost use Rattle.selection.specs.Laws.{AllDeclared, declared_of};

use layout::ExitPath;
use sets::PathSet;

// The declared paths of a set. The paths and the set stay two parameters, here and in the rules: each stage is handed
// another set of the same paths, for which a struct with this fact would be made anew.
pub fn declared_of(paths: &[ExitPath], set: PathSet) -> PathSet
    ensures value { result ≡ declared_of paths.now set }
    ensures declared { AllDeclared paths.now result }
{
    let count = paths.len().min(64) as u32;
    set.intersection(PathSet::first(count))
}
