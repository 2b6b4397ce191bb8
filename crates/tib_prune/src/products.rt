// Products of costs, none where one is missing or the product is above the greatest cost.
ghost use Rattle.std.specs.Prelude.{◌≡◌, ℕ, ◌<◌, ◌≤◌, length, map};
ghost use Rattle.tib_cost.specs.Least.{times};
ghost use Rattle.tib_grammar.specs.Items.{state_in};
ghost use Rattle.tib_grammar.specs.Range.{AllBelow};
ghost use Rattle.tib_grammar.specs.Forms.{IsNormalSide};
ghost use Rattle.tib_grammar.specs.Sides.{holes_of};
ghost use Rattle.tib_inside.specs.Inside.{total};
ghost use Rattle.tib_inside.specs.Settling.{costs_in, rule_total};

use tib_cost::{Cost, Semiring};
use tib_grammar::{Item, Rule};

/// The product of two costs.
pub fn times<S: Semiring>(a: &Option<Cost>, b: &Option<Cost>) -> Option<Cost>
    ensures { result ≡ times S.product a.now b.now }
{
    match (a, b) {
        (Some(x), Some(y)) => S::times(*x, *y),
        _ => None,
    }
}

/// The product of the costs of some states. One step for each state.
pub fn product_of<S: Semiring>(states: &[Item<u32>], costs: &[Option<Cost>]) -> Option<Cost>
    requires { AllBelow (length costs.now) (map state_in states.now) }
    ensures { result ≡ total S.product (costs_in costs.now) (map state_in states.now) }
{
    let mut product = Some(S::one());
    let mut n = states.len();
    while n > 0 {
        n -= 1;
        product = times::<S>(&costs[states[n].state() as usize], &product);
    }
    product
}

/// The product of the cost of a rule and those of the states in its right side.
pub fn rule_total<S: Semiring>(rule: &Rule<u32>, insides: &[Option<Cost>]) -> Option<Cost>
    requires normal { IsNormalSide rule.now.right }
    requires states { AllBelow (length insides.now) (holes_of rule.now.right) }
    ensures { result ≡ rule_total S.product (costs_in insides.now) rule.now }
{
    let states = product_of::<S>(rule.states_below(), insides);
    times::<S>(&Some(rule.cost), &states)
}
