ghost use Rattle.std.specs.Prelude.{◌≡◌, ℕ, ◌<◌, IsTrue, if◌then◌else◌, length};
ghost use Rattle.distances.specs.Answered.{declared_by};
ghost use Rattle.selection.specs.Laws.{declared_of};
ghost use Rattle.sets.specs.Members.{member};
ghost use Rattle.protocol.specs.Moves.{activated};
ghost use Rattle.protocol.specs.Network.{learned, set_of};
ghost use Rattle.network.specs.Held.{state_with};

use crate::held::Sets;
use layout::ExitPath;
use peering::Peering;
use rules::{Rule, advertised};
use sets::RouterSet;

impl Sets {
    // Each router of a set learns from its peers. What is advertised stays, so that each reads its peers as they stood before.
    fn learn(&mut self, peering: &Peering, named: RouterSet)
        requires { (v : ℕ) → IsTrue (member named v) →
            v < length (declared_by peering.now.distances).routers }
        ensures injected { self.new.injected ≡ self.old.injected }
        ensures known { (v : ℕ) → set_of self.new.known v ≡ (if member named v
            then learned (declared_by peering.now.distances) self.old.injected self.old.advertised v
            else set_of self.old.known v) }
        ensures all { length self.new.known ≡ 32 }
        ensures advertised { self.new.advertised ≡ self.old.advertised }
    {
        for v in named {
            let learned = peering.learned(self.injected, &self.advertised, v);
            self.known[v as usize] = learned.unwrap_or_default();
        }
    }

    // Each router of a set advertises what the rule keeps of what it knows.
    fn advertise<R: Rule>(&mut self, rule: &R, paths: &[ExitPath], named: RouterSet)
        ensures injected { self.new.injected ≡ self.old.injected }
        ensures known { self.new.known ≡ self.old.known }
        ensures advertised { (v : ℕ) → set_of self.new.advertised v ≡ (if member named v
            then R.kept rule.now paths.now (declared_of paths.now (set_of self.old.known v))
            else set_of self.old.advertised v) }
        ensures all { length self.new.advertised ≡ 32 }
    {
        for v in named {
            let router = v as usize;
            self.advertised[router] = advertised(rule, paths, self.known[router]);
        }
    }

    // Each router of a set is activated: it learns from its peers as they stood before.
    pub(crate) fn activate<R: Rule>(&mut self, rule: &R, peering: &Peering, named: RouterSet)
        requires { (v : ℕ) → IsTrue (member named v) →
            v < length (declared_by peering.now.distances).routers }
        ensures { state_with (declared_by peering.now.distances) self.new ≡
            activated (R.kept rule.now) (state_with (declared_by peering.now.distances) self.old) named }
    {
        self.learn(peering, named);
        self.advertise(rule, peering.distances().table().paths(), named);
    }
}
