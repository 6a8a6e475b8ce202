ghost use Rattle.selection.specs.Stages.{keep_all};
ghost use Rattle.selection.proofs.AllLaws.{all_laws};

use crate::declared::declared_of;
use crate::rule::Rule;
use layout::ExitPath;
use sets::PathSet;

// Keeps every path.
#[derive(Clone, Copy, Debug, PartialEq, Eq)]
pub struct All;

impl Rule for All {
    ghost kept = { λ _. keep_all };

    ghost laws = { λ _. all_laws };

    fn keep(&self, paths: &[ExitPath], set: PathSet) -> PathSet {
        declared_of(paths, set)
    }
}
