ghost use Rattle.std.specs.Prelude.{◌≡◌};
ghost use Rattle.selection.specs.Laws.{Steady, declared_of};

use crate::rule::Rule;
use layout::ExitPath;
use sets::PathSet;

// What a router advertises of the paths that it knows. Not inlined: within the loops of its callers it would be slower.
#[inline(never)]
pub fn advertised<R: Rule>(rule: &R, paths: &[ExitPath], known: PathSet) -> PathSet
    ensures value { result ≡ R.kept rule.now paths.now (declared_of paths.now known) }
    ensures steady { Steady (R.kept rule.now) paths.now (declared_of paths.now known) }
{
    rule.keep(paths, known)
}
