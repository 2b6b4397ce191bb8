// What a state took last.
ghost use Rattle.std.specs.Prelude.{◌≡◌, ◌<◌, length, IfNone, IfSome};
ghost use Rattle.tib_lazy_lists.specs.AskingOf.{asking_of, state_at};
ghost use Rattle.tib_lazy_lists.specs.declared.asking.Stage.TheVariants.{Whole};

use crate::asking::{Asking, Stage};

impl Asking {
    // The candidate that a state took last; none if its list is complete.
    pub(crate) fn last(&self, state: u32) -> Option<u32>
        requires { state < length (asking_of self.now).states }
        ensures some { IfSome result (λ m. m ≡ (state_at (asking_of self.now) state).last) }
        ensures left { IfSome result (λ _. (state_at (asking_of self.now) state).stage ≡ Whole →
            ⊥) }
        ensures none { IfNone result ((state_at (asking_of self.now) state).stage ≡ Whole) }
    {
        let asked = &self.states[state as usize];
        match asked.stage {
            Stage::Whole => None,
            _ => Some(asked.last),
        }
    }
}
