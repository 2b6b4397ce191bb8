// How many runs there are from states: sums over their rules of products over the states in the
// right-hand sides.
ghost use Rattle.std.specs.Prelude.{◌≡◌, ℕ, ◌*◌, ◌<◌, ◌≤◌, List, [], ◌∷◌, length, IfOk};
ghost use Rattle.tib_lex.specs.Lists.{Has};
ghost use Rattle.tib_grammar.specs.Items.{holes_in};
ghost use Rattle.tib_grammar.specs.Sides.{holes_of};
ghost use Rattle.tib_grammar.specs.Range.{AllBelow, AreInRange};
ghost use Rattle.tib_grammar.specs.Run.{rule_at};
ghost use Rattle.tib_count.specs.Counts.{counted, IsCountOf};
ghost use Rattle.tib_count.specs.Counted.{IsRun};
ghost use Rattle.tib_count.specs.Products.{product_over, rule_number, sum_over};
ghost use Rattle.tib_count.specs.Edges.{Leads};
ghost use Rattle.tib_inside.specs.Links.{AreLinks};
ghost use Rattle.tib_count.specs.Order.{IsOrder};
ghost use Rattle.tib_count.specs.Sums.{lefts, HasTotal};

use crate::arithmetic::{plus, times};
use crate::count::Count;
use std::alloc::{AllocError, Global};
use tib_grammar::{Item, Rule};
use tib_inside::Links;

/// The left states of some rules.
fn left_states(alloc: Global, rules: &[Rule<u32>]) -> Result<Vec<u32>, AllocError>
    ensures { IfOk result (λ v. v.items ≡ lefts rules.now) }
{
    let mut states = Vec::with_capacity(alloc, rules.len())?;
    for rule in rules {
        states.push(rule.left)?;
    }
    Ok(states)
}

/// A product with the total of an item's state, if it has one.
fn with_item(product: Count, item: &Item<u32>, totals: &[Count]) -> Count
    requires below { AllBelow (length totals.now) (holes_in (item.now ∷ [])) }
    ensures { (m : ℕ) (number : ℕ → ℕ) → product ≡ counted m →
        ((q : ℕ) → Has (holes_in (item.now ∷ [])) q → HasTotal totals.now number q) →
        result ≡ counted (m * product_over number (holes_in (item.now ∷ []))) }
{
    match item {
        Item::Label { .. } => product,
        Item::Hole(state) => times(product, totals[*state as usize]),
    }
}

/// The product of the totals of the states among some items.
fn product_of(items: &[Item<u32>], totals: &[Count]) -> Count
    requires below { AllBelow (length totals.now) (holes_in items.now) }
    ensures { (number : ℕ → ℕ) →
        ((q : ℕ) → Has (holes_in items.now) q → HasTotal totals.now number q) →
        result ≡ counted (product_over number (holes_in items.now)) }
{
    let mut product = Count::Number(1);
    for item in items {
        product = with_item(product, item, totals);
    }
    product
}

/// The product of the totals of the states in the right-hand side of a rule.
fn rule_total(rule: &Rule<u32>, totals: &[Count]) -> Count
    requires below { AllBelow (length totals.now) (holes_of rule.now.right) }
    ensures { (number : ℕ → ℕ) →
        ((q : ℕ) → Has (holes_of rule.now.right) q → HasTotal totals.now number q) →
        result ≡ counted (product_over number (holes_of rule.now.right)) }
{
    product_of(rule.right.items(), totals)
}

/// The sum over the rules of a state.
fn state_total(rules: &[Rule<u32>], links: &Links, totals: &[Count], state: u32) -> Count
    requires links { AreLinks (lefts rules.now) (length totals.now) links.now }
    requires range { AreInRange (length totals.now) rules.now }
    requires state { state < length totals.now }
    ensures { (number : ℕ → ℕ) →
        ((p : ℕ) → Leads rules.now state p → HasTotal totals.now number p) →
        result ≡ counted (sum_over rules.now (rule_number rules.now number) state
        (length rules.now)) }
{
    let mut total = Count::Number(0);
    let mut n = links.first[state as usize];
    while n < rules.len() {
        total = plus(total, rule_total(&rules[n], totals));
        n = links.next[n];
    }
    total
}

/// How many runs there are from the start, by an order of the states in which each comes after
/// those that it leads to. Err only if memory is refused. Cost: one pass over the states and the
/// right-hand sides.
pub fn sum_runs(
    alloc: Global,
    rules: &[Rule<u32>],
    order: &[u32],
    count: usize,
) -> Result<Count, AllocError>
    requires start { 0 < count }
    requires range { AreInRange count rules.now }
    requires order { IsOrder (Leads rules.now) count order.now }
    ensures { IfOk result (IsCountOf (IsRun rules.now)) }
{
    let lefts = left_states(alloc, rules)?;
    let links = Links::new(alloc, &lefts, count)?;
    let mut totals = vec![in alloc; Count::Number(0); count]?;
    for state in order {
        totals[*state as usize] = state_total(rules, &links, &totals, *state);
    }
    Ok(totals[0])
}
