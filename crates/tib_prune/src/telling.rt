// What the rules of a state tell the states in their right sides: at each place the product of the
// outside cost of the left state, of the rule's cost, and of the inside costs at the other places.
ghost use Rattle.std.specs.Prelude.{◌≡◌, ℕ, ◌+◌, ◌<◌, ◌≤◌, length, map, OnOk, Some};
ghost use Rattle.tib_cost.specs.Least.{times};
ghost use Rattle.tib_grammar.specs.Forms.{AreNormal, IsNormalSide};
ghost use Rattle.tib_grammar.specs.Items.{state_in};
ghost use Rattle.tib_grammar.specs.Range.{AllBelow, AreInRange};
ghost use Rattle.tib_grammar.specs.Sides.{holes_of};
ghost use Rattle.tib_inside.specs.Settling.{costs_in};
ghost use Rattle.tib_prune.specs.Telling.{rests_of, IsToldFrom, IsToldBy, places_of, Adds};

use crate::products::times;
use std::alloc::AllocError;
use tib_cost::{Cost, Semiring};
use tib_grammar::{Item, Rule};
use tib_normal::Agenda;

/// For each of some states the product of the costs of those after it, the last state's first.
fn list_rests<S: Semiring>(
    states: &[Item<u32>],
    costs: &[Option<Cost>],
    rests: &mut Vec<Option<Cost>>,
) -> Result<(), AllocError>
    requires { AllBelow (length costs.now) (map state_in states.now) }
    ensures { OnOk result (rests.new.items
        ≡ rests_of S.product (costs_in costs.now) (map state_in states.now)) }
{
    rests.clear();
    let mut rest = Some(S::one());
    let mut n = states.len();
    while n > 0 {
        n -= 1;
        let more = times::<S>(&costs[states[n].state() as usize], &rest);
        rests.push(rest)?;
        rest = more;
    }
    Ok(())
}

/// Queues a cost for a state that has none.
fn offer(
    told: Option<Cost>,
    state: u32,
    outsides: &[Option<Cost>],
    agenda: &mut Agenda,
) -> Result<(), AllocError>
    requires { state < length outsides.now }
    ensures { OnOk result (Adds (costs_in outsides.now) (λ e. (state ≡ e.1)
        × (told ≡ Some e.0)) 1 agenda.old agenda.new) }
{
    if outsides[state as usize].is_some() {
        return Ok(());
    }
    let Some(cost) = told else {
        return Ok(());
    };
    agenda.push(cost, state)?;
    Ok(())
}

/// Tells each of some states the product of `start` and of the costs of the other states, whose
/// products after each are the rests.
fn tell_states<S: Semiring>(
    states: &[Item<u32>],
    start: Option<Cost>,
    insides: &[Option<Cost>],
    outsides: &[Option<Cost>],
    rests: &mut Vec<Option<Cost>>,
    agenda: &mut Agenda,
) -> Result<(), AllocError>
    requires insides { AllBelow (length insides.now) (map state_in states.now) }
    requires outsides { AllBelow (length outsides.now) (map state_in states.now) }
    requires rests { rests.old.items
        ≡ rests_of S.product (costs_in insides.now) (map state_in states.now) }
    ensures { OnOk result (Adds (costs_in outsides.now) (IsToldFrom S.product
        (costs_in insides.now) start (map state_in states.now)) (length (map state_in states.now))
        agenda.old agenda.new) }
{
    let mut front = start;
    let mut n = 0;
    while let Some(rest) = rests.pop() {
        let state = states[n].state();
        offer(times::<S>(&front, &rest), state, outsides, agenda)?;
        front = times::<S>(&front, &insides[state as usize]);
        n += 1;
    }
    Ok(())
}

/// Tells the states in the right side of a rule, whose left state has the outside cost.
fn tell_rule<S: Semiring>(
    rule: &Rule<u32>,
    outside: Cost,
    insides: &[Option<Cost>],
    outsides: &[Option<Cost>],
    rests: &mut Vec<Option<Cost>>,
    agenda: &mut Agenda,
) -> Result<(), AllocError>
    requires normal { IsNormalSide rule.now.right }
    requires insides { AllBelow (length insides.now) (holes_of rule.now.right) }
    requires outsides { AllBelow (length outsides.now) (holes_of rule.now.right) }
    ensures { OnOk result (Adds (costs_in outsides.now) (IsToldFrom S.product
        (costs_in insides.now) (times S.product (Some outside) (Some rule.now.cost))
        (holes_of rule.now.right)) (length (holes_of rule.now.right)) agenda.old agenda.new) }
{
    let states = rule.states_below();
    list_rests::<S>(states, insides, rests)?;
    tell_states::<S>(
        states,
        S::times(outside, rule.cost),
        insides,
        outsides,
        rests,
        agenda,
    )
}

/// Tells the states in the right sides of some rules, whose left state has the outside cost. Err
/// only if memory is refused, and then some of them may have been told.
pub fn tell<S: Semiring>(
    rules: &[Rule<u32>],
    outside: Cost,
    insides: &[Option<Cost>],
    outsides: &[Option<Cost>],
    rests: &mut Vec<Option<Cost>>,
    agenda: &mut Agenda,
) -> Result<(), AllocError>
    requires normal { AreNormal rules.now }
    requires insides { AreInRange (length insides.now) rules.now }
    requires outsides { AreInRange (length outsides.now) rules.now }
    ensures { OnOk result (Adds (costs_in outsides.now) (IsToldBy S.product (costs_in insides.now)
        outside rules.now) (places_of rules.now) agenda.old agenda.new) }
{
    for rule in rules {
        tell_rule::<S>(rule, outside, insides, outsides, rests, agenda)?;
    }
    Ok(())
}
