// Products of costs, none where one is missing or the product is above the greatest cost.
ghost use Rattle.std.specs.Prelude.{◌≡◌, ℕ, ◌<◌, List, [], ◌∷◌, ◌++◌, length};
ghost use Rattle.tib_cost.specs.Least.{times};
ghost use Rattle.tib_grammar.specs.Items.{holes_in};
ghost use Rattle.tib_grammar.specs.Range.{AllBelow};
ghost use Rattle.tib_grammar.specs.Sides.{holes_of};
ghost use Rattle.tib_inside.specs.Inside.{total};
ghost use Rattle.tib_inside.specs.Settling.{costs_in};
ghost use Rattle.tib_prune.specs.Outside.{through};

use tib_cost::{Cost, Semiring};
use tib_grammar::{Item, Rule};

/// The product of two costs.
pub fn times<S: Semiring>(a: &Option<Cost>, b: &Option<Cost>) -> Option<Cost>
    ensures { result ≡ times S.product a.now b.now }
{
    match (a, b) {
        (Some(x), Some(y)) => S::times(*x, *y),
        _ => None,
    }
}

/// The product of the cost of an item's state, if it has one, and of the states after it.
fn times_item<S: Semiring>(
    item: &Item<u32>,
    costs: &[Option<Cost>],
    after: &Option<Cost>,
) -> Option<Cost>
    requires { AllBelow (length costs.now) (holes_in (item.now ∷ [])) }
    ensures { (qs : List ℕ) → after.now ≡ total S.product (costs_in costs.now) qs →
        result ≡ total S.product (costs_in costs.now) (holes_in (item.now ∷ []) ++ qs) }
{
    match item {
        Item::Label { .. } => *after,
        Item::Hole(state) => times::<S>(&costs[*state as usize], after),
    }
}

/// The product of the costs of the states among some items.
fn product_of<S: Semiring>(items: &[Item<u32>], costs: &[Option<Cost>]) -> Option<Cost>
    requires { AllBelow (length costs.now) (holes_in items.now) }
    ensures { result ≡ total S.product (costs_in costs.now) (holes_in items.now) }
{
    let mut product = Some(S::one());
    let mut n = items.len();
    while n > 0 {
        n -= 1;
        product = times_item::<S>(&items[n], costs, &product);
    }
    product
}

/// What the cheapest complete run costs in which a rule is, none where it is in none: the product
/// of the outside cost of its left state, of its own cost, and of the inside costs of the states in
/// its right side. It takes no memory. Cost: one pass over the right side.
pub fn through<S: Semiring>(
    rule: &Rule<u32>,
    insides: &[Option<Cost>],
    outsides: &[Option<Cost>],
) -> Option<Cost>
    requires left { rule.now.left < length outsides.now }
    requires states { AllBelow (length insides.now) (holes_of rule.now.right) }
    ensures { result ≡ through S.product (costs_in insides.now) (costs_in outsides.now) rule.now }
{
    let states = product_of::<S>(rule.right.items(), insides);
    let inner = times::<S>(&Some(rule.cost), &states);
    times::<S>(&outsides[rule.left as usize], &inner)
}
