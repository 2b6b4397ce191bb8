//! What the states at the holes of a side cost in addition to a match.

ghost use Rattle.std.specs.Prelude.{◌≡◌, ◌∷◌, [], length, IsTrue, false};
ghost use Rattle.tib_grammar.specs.Items.{holes_in};
ghost use Rattle.tib_match.specs.Boxes.{cost_at};

use tib_cost::{Cost, Semiring};
use tib_grammar::Item;

/// What each state costs that may be at a hole.
#[derive(Drop)]
pub enum HoleCost {
    /// Nothing, so the product of nothing.
    Free,
    /// For each state what it costs; none for one that may not be there, and for one past the last.
    Table(Vec<Option<Cost>>),
}

impl HoleCost {
    /// What a state costs. It takes no memory and one step.
    pub fn of<S: Semiring>(&self, state: u32) -> Option<Cost>
        ensures { result ≡ cost_at self.now state }
    {
        match self {
            HoleCost::Free => Some(S::one()),
            HoleCost::Table(costs) => match costs.get(state as usize) {
                Some(cost) => *cost,
                None => None,
            },
        }
    }
}

// How many holes an item is.
fn holes_at<P>(item: &Item<P>) -> usize
    ensures { result ≡ length (holes_in (item.now ∷ [])) }
{
    match item {
        Item::Label { .. } => 0,
        Item::Hole(_) => 1,
    }
}

/// Whether there are as many costs as holes among some items. It takes no memory and one pass over
/// the items.
pub(crate) fn is_each_priced<P>(items: &[Item<P>], costs: &[HoleCost]) -> bool
    ensures yes { IsTrue result → length costs.now ≡ length (holes_in items.now) }
    ensures no { result ≡ false → length costs.now ≡ length (holes_in items.now) → ⊥ }
{
    let mut left = costs.len();
    for item in items {
        let own = holes_at(item);
        if own > left {
            return false;
        }
        left -= own;
    }
    left == 0
}
