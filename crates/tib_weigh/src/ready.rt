// Rules of one label and rank as they are tried by the state at one child place.
ghost use Rattle.std.specs.Prelude.{◌≡◌, ℕ, ◌<◌, length, get_or, IsTrue};
ghost use Rattle.tib_grammar.specs.declared.Item.TheVariants.{Label};
ghost use Rattle.tib_grammar.specs.Items.{state_in};

use tib_cost::Cost;
use tib_grammar::Item;

/// A rule with all that it takes to try it where the state at the child place has a cost. The
/// `rest` is the position of a rule that has the same states at all other places, mostly of the one
/// before, so that their product is taken once.
#[derive(Clone, Copy, Debug)]
pub(crate) struct Ready {
    pub position: u32,
    pub left: u32,
    pub state: u32,
    pub rest: u32,
    pub cost: Cost,
}

/// Whether the states of two rules of one rank agree at all child places but one. Worst case: a
/// step for each place.
pub(crate) fn agree_beside(first: &[Item<u32>], second: &[Item<u32>], place: usize) -> bool
    requires { length first.now ≡ length second.now }
    ensures { IsTrue result → (i : ℕ) → i < length first.now → (i ≡ place → ⊥) →
        state_in (get_or first.now i (Label 0 0)) ≡ state_in (get_or second.now i (Label 0 0)) }
{
    for i in 0..first.len() {
        if i != place && first[i].state() != second[i].state() {
            return false;
        }
    }
    true
}
