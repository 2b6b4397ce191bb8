// What a rule costs with the states in its right side.
ghost use Rattle.std.specs.Prelude.{◌≡◌, ℕ, ◌<◌, ◌≤◌, List, [], ◌∷◌, length, None, Some, IfSome};
ghost use Rattle.tib_cost.specs.Semiring.{most};
ghost use Rattle.tib_cost.specs.Least.{times};
ghost use Rattle.tib_grammar.specs.Items.{holes_in};
ghost use Rattle.tib_grammar.specs.Sides.{holes_of};
ghost use Rattle.tib_grammar.specs.Range.{AllBelow};
ghost use Rattle.tib_inside.specs.Inside.{total};
ghost use Rattle.tib_inside.specs.Settling.{costs_in, rule_total};

use tib_cost::{Cost, Semiring};
use tib_grammar::{Item, Rule};

/// The product with the cost of an item's state, where it has one.
fn times_item<S: Semiring>(cost: Cost, item: &Item<u32>, costs: &[Option<Cost>]) -> Option<Cost>
    requires within { cost ≤ most }
    requires below { AllBelow (length costs.now) (holes_in (item.now ∷ [])) }
    ensures product { result ≡ times S.product (Some cost)
        (total S.product (costs_in costs.now) (holes_in (item.now ∷ []))) }
    ensures within { IfSome result (λ c. c ≤ most) }
{
    match item {
        Item::Label { .. } => Some(cost),
        Item::Hole(state) => match costs[*state as usize] {
            Some(more) => S::times(cost, more),
            None => None,
        },
    }
}

/// The product of the costs of the states among some items. It ends at the first state that has
/// none.
fn times_items<S: Semiring>(items: &[Item<u32>], costs: &[Option<Cost>]) -> Option<Cost>
    requires { AllBelow (length costs.now) (holes_in items.now) }
    ensures { result ≡ total S.product (costs_in costs.now) (holes_in items.now) }
{
    let mut cost = S::one();
    for item in items {
        let Some(more) = times_item::<S>(cost, item, costs) else {
            return None;
        };
        cost = more;
    }
    Some(cost)
}

/// The product of the cost of a rule and those of the states in its right side; none where a state
/// has none or the product is above the greatest cost. It takes no memory. Cost: one pass over the
/// right side.
pub fn rule_cost<S: Semiring>(rule: &Rule<u32>, costs: &[Option<Cost>]) -> Option<Cost>
    requires { AllBelow (length costs.now) (holes_of rule.now.right) }
    ensures { result ≡ rule_total S.product (costs_in costs.now) rule.now }
{
    let Some(states) = times_items::<S>(rule.right.items(), costs) else {
        return None;
    };
    S::times(rule.cost, states)
}
