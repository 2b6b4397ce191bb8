// What rules tell the states in their right sides, whatever these are like: at each place the
// product of the outside cost of the left state, of the rule's cost, and of the inside costs at the
// other places. `tib_prune` does the same for rules in normal form, and its definitions serve.
ghost use Rattle.std.specs.Prelude.{◌≡◌, ℕ, ◌<◌, ◌≤◌, List, [], ◌∷◌, ◌++◌, length, OnOk, IfOk, Some};
ghost use Rattle.tib_cost.specs.Least.{times};
ghost use Rattle.tib_grammar.specs.Items.{holes_in};
ghost use Rattle.tib_grammar.specs.Range.{AllBelow, AreInRange};
ghost use Rattle.tib_grammar.specs.Sides.{holes_of};
ghost use Rattle.tib_inside.specs.Inside.{total};
ghost use Rattle.tib_inside.specs.Settling.{costs_in};
ghost use Rattle.tib_prune.specs.Telling.{rests_of, IsToldFrom, places_of, Adds};
ghost use Rattle.tib_trim.specs.Links.{AreLinks};
ghost use Rattle.tib_trim.specs.Telling.{GoesBack, GoesOn, IsToldAfter};

use crate::links::Links;
use crate::products::times;
use std::alloc::AllocError;
use tib_cost::{Cost, Semiring};
use tib_grammar::{Item, Rule};
use tib_normal::Agenda;

/// Lists the product of the costs of the states after an item, where it has a state, and returns
/// the product with the cost of that state.
fn list_rest<S: Semiring>(
    item: &Item<u32>,
    costs: &[Option<Cost>],
    rest: Option<Cost>,
    rests: &mut Vec<Option<Cost>>,
) -> Result<Option<Cost>, AllocError>
    requires { AllBelow (length costs.now) (holes_in (item.now ∷ [])) }
    ensures { IfOk result (λ whole. (qs : List ℕ) → rest ≡ total S.product (costs_in costs.now) qs →
        rests.old.items ≡ rests_of S.product (costs_in costs.now) qs →
        GoesBack S.product (costs_in costs.now) item.now whole rests.new.items qs) }
{
    match item {
        Item::Label { .. } => Ok(rest),
        Item::Hole(state) => {
            let whole = times::<S>(&costs[*state as usize], &rest);
            rests.push(rest)?;
            Ok(whole)
        }
    }
}

/// For each state among some items the product of the costs of those after it, the last state's
/// first.
fn list_rests<S: Semiring>(
    items: &[Item<u32>],
    costs: &[Option<Cost>],
    rests: &mut Vec<Option<Cost>>,
) -> Result<(), AllocError>
    requires { AllBelow (length costs.now) (holes_in items.now) }
    ensures { OnOk result (rests.new.items
        ≡ rests_of S.product (costs_in costs.now) (holes_in items.now)) }
{
    rests.clear();
    let mut rest = Some(S::one());
    let mut n = items.len();
    while n > 0 {
        n -= 1;
        rest = list_rest::<S>(&items[n], costs, rest, rests)?;
    }
    Ok(())
}

/// Queues a cost for a state that has none.
fn offer(
    told: Option<Cost>,
    state: u32,
    outsides: &[Option<Cost>],
    agenda: &mut Agenda,
) -> Result<(), AllocError>
    requires { state < length outsides.now }
    ensures { OnOk result (Adds (costs_in outsides.now) (λ e. (state ≡ e.1)
        × (told ≡ Some e.0)) 1 agenda.old agenda.new) }
{
    if outsides[state as usize].is_some() {
        return Ok(());
    }
    let Some(cost) = told else {
        return Ok(());
    };
    agenda.push(cost, state)?;
    Ok(())
}

/// Tells the state of an item, if it has one, the product of `front` and of the last of the rests,
/// which is taken. It returns the product with the inside cost of the state.
fn tell_item<S: Semiring>(
    item: &Item<u32>,
    front: Option<Cost>,
    insides: &[Option<Cost>],
    outsides: &[Option<Cost>],
    rests: &mut Vec<Option<Cost>>,
    agenda: &mut Agenda,
) -> Result<Option<Cost>, AllocError>
    requires insides { AllBelow (length insides.now) (holes_in (item.now ∷ [])) }
    requires outsides { AllBelow (length outsides.now) (holes_in (item.now ∷ [])) }
    requires rests { (qs : List ℕ) × (rests.old.items
        ≡ rests_of S.product (costs_in insides.now) (holes_in (item.now ∷ []) ++ qs)) }
    ensures { IfOk result (λ more. (qs : List ℕ) → rests.old.items
        ≡ rests_of S.product (costs_in insides.now) (holes_in (item.now ∷ []) ++ qs) →
        GoesOn S.product (costs_in insides.now) (costs_in outsides.now) item.now front agenda.old
        more rests.new.items agenda.new qs) }
{
    match item {
        Item::Label { .. } => Ok(front),
        Item::Hole(state) => {
            let Some(rest) = rests.pop() else {
                unreachable!()
            };
            offer(times::<S>(&front, &rest), *state, outsides, agenda)?;
            Ok(times::<S>(&front, &insides[*state as usize]))
        }
    }
}

/// Tells each of the states among some items the product of `start` and of the costs of the other
/// states, whose products after each are the rests.
fn tell_items<S: Semiring>(
    items: &[Item<u32>],
    start: Option<Cost>,
    insides: &[Option<Cost>],
    outsides: &[Option<Cost>],
    rests: &mut Vec<Option<Cost>>,
    agenda: &mut Agenda,
) -> Result<(), AllocError>
    requires insides { AllBelow (length insides.now) (holes_in items.now) }
    requires outsides { AllBelow (length outsides.now) (holes_in items.now) }
    requires rests { rests.old.items
        ≡ rests_of S.product (costs_in insides.now) (holes_in items.now) }
    ensures { OnOk result (Adds (costs_in outsides.now) (IsToldFrom S.product
        (costs_in insides.now) start (holes_in items.now)) (length (holes_in items.now))
        agenda.old agenda.new) }
{
    let mut front = start;
    for item in items {
        front = tell_item::<S>(item, front, insides, outsides, rests, agenda)?;
    }
    Ok(())
}

/// Tells the states in the right side of a rule, whose left state has the outside cost.
fn tell_rule<S: Semiring>(
    rule: &Rule<u32>,
    outside: Cost,
    insides: &[Option<Cost>],
    outsides: &[Option<Cost>],
    rests: &mut Vec<Option<Cost>>,
    agenda: &mut Agenda,
) -> Result<(), AllocError>
    requires insides { AllBelow (length insides.now) (holes_of rule.now.right) }
    requires outsides { AllBelow (length outsides.now) (holes_of rule.now.right) }
    ensures { OnOk result (Adds (costs_in outsides.now) (IsToldFrom S.product
        (costs_in insides.now) (times S.product (Some outside) (Some rule.now.cost))
        (holes_of rule.now.right)) (length (holes_of rule.now.right)) agenda.old agenda.new) }
{
    let items = rule.right.items();
    list_rests::<S>(items, insides, rests)?;
    tell_items::<S>(
        items,
        S::times(outside, rule.cost),
        insides,
        outsides,
        rests,
        agenda,
    )
}

/// Tells the states in the right sides of all rules of a state, of which the entry has the outside
/// cost. Err only if memory is refused, and then some of them may have been told.
pub fn tell<S: Semiring>(
    rules: &[Rule<u32>],
    links: &Links,
    entry: (Cost, u32),
    insides: &[Option<Cost>],
    outsides: &[Option<Cost>],
    rests: &mut Vec<Option<Cost>>,
    agenda: &mut Agenda,
) -> Result<(), AllocError>
    requires links { AreLinks rules.now (length outsides.now) links.now }
    requires state { entry.1 < length outsides.now }
    requires insides { AreInRange (length insides.now) rules.now }
    requires outsides { AreInRange (length outsides.now) rules.now }
    ensures { OnOk result (Adds (costs_in outsides.now) (IsToldAfter S.product
        (costs_in insides.now) rules.now entry.1 entry.0 0) (places_of rules.now)
        agenda.old agenda.new) }
{
    let (cost, state) = entry;
    let mut n = links.first[state as usize];
    while n < rules.len() {
        tell_rule::<S>(&rules[n], cost, insides, outsides, rests, agenda)?;
        n = links.next[n];
    }
    Ok(())
}
