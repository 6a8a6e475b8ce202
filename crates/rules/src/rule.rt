ghost use Rattle.std.specs.Prelude.{◌≡◌};
ghost use Rattle.selection.specs.Laws.{Keeping, Laws, declared_of};

use layout::ExitPath;
use sets::PathSet;

// Which of a set of paths are kept. A type that does not show the laws is no rule.
pub trait Rule {
    // What the rule keeps of a set of declared paths.
    ghost kept: { Self → Keeping };

    // The laws of what it keeps.
    ghost laws: { (rule : Self) → Laws (kept rule) };

    // What is kept of the declared paths of a set; all other numbers are dropped first.
    fn keep(&self, paths: &[ExitPath], set: PathSet) -> PathSet
        ensures { result ≡ kept self.now paths.now (declared_of paths.now set) };
}
