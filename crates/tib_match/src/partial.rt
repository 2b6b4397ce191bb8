// What is found of a match along the front of a side, and what a rule or a hole makes of it.
ghost use Rattle.std.specs.Prelude.{◌≡◌, ◌++◌, ◌-◌, ◌<◌, length, reverse, take, IfOk, OnOk};
ghost use Rattle.tib_lex.specs.Lists.{Each};
ghost use Rattle.tib_grammar.specs.Items.{holes_in};
ghost use Rattle.tib_grammar.specs.Sides.{holes_of};
ghost use Rattle.tib_match.specs.Leading.{partial_of, partials_of, placed, all_placed, all_led, taken, all_taken};

use smallvec::SmallVec;
use std::alloc::{AllocError, Global};
use tib_cost::{Cost, Semiring};
use tib_grammar::{Item, Rule};

/// What was found along the front of a side.
#[derive(PartialEq, Eq, PartialOrd, Ord, Drop)]
pub(crate) struct Partial {
    /// The states that wait for the rest of the side, the next one last.
    pub waiting: Vec<u32>,
    /// The states at the holes so far.
    pub states: SmallVec<u32, 4>,
    /// The product of the costs of the rules so far.
    pub cost: Cost,
}

// Puts the states of some items after others, the first one last.
fn push_states(waiting: &mut Vec<u32>, items: &[Item<u32>]) -> Result<(), AllocError>
    ensures { OnOk result (waiting.new.items ≡ waiting.old.items ++ reverse (holes_in items.now)) }
{
    let mut i = items.len();
    while i > 0 {
        i -= 1;
        if let Item::Hole(state) = &items[i] {
            waiting.push(*state)?;
        }
    }
    Ok(())
}

// The partial match with a rule in place of the state that waits last, at this cost.
fn with_rule(
    alloc: Global,
    partial: &Partial,
    rule: &Rule<u32>,
    cost: Cost,
) -> Result<Partial, AllocError>
    requires { 0 < length partial.now.waiting.items }
    ensures cost { IfOk result (λ p. p.cost ≡ cost) }
    ensures states { IfOk result (λ p. p.states.items ≡ partial.now.states.items) }
    ensures waiting { IfOk result (λ p. p.waiting.items
        ≡ take (length partial.now.waiting.items - 1) partial.now.waiting.items
        ++ reverse (holes_of rule.now.right)) }
{
    let mut waiting = partial.waiting[..partial.waiting.len() - 1].to_vec(alloc)?;
    push_states(&mut waiting, rule.right.items())?;
    let states = SmallVec::from_slice(alloc, &partial.states)?;
    Ok(Partial {
        waiting,
        states,
        cost,
    })
}

/// Adds what a rule makes of a partial match, if it leads from the next state and the product of
/// the costs is a cost.
pub(crate) fn add_placed<S: Semiring>(
    alloc: Global,
    partial: &Partial,
    rule: &Rule<u32>,
    found: &mut Vec<Partial>,
) -> Result<(), AllocError>
    ensures { OnOk result (partials_of found.new.items ≡ partials_of found.old.items
        ++ placed S.product rule.now (partial_of partial.now)) }
{
    let Some(state) = partial.waiting.last().copied() else {
        return Ok(());
    };
    if state != rule.left {
        return Ok(());
    }
    let Some(cost) = S::times(partial.cost, rule.cost) else {
        return Ok(());
    };
    let next = with_rule(alloc, partial, rule, cost)?;
    found.push(next)?;
    Ok(())
}

/// Adds what the rules at some positions make of a partial match.
pub(crate) fn add_all_placed<S: Semiring>(
    alloc: Global,
    partial: &Partial,
    rules: &[Rule<u32>],
    positions: &[u32],
    found: &mut Vec<Partial>,
) -> Result<(), AllocError>
    requires { Each (λ p. p < length rules.now) positions.now }
    ensures { OnOk result (partials_of found.new.items ≡ partials_of found.old.items
        ++ all_placed S.product rules.now (partial_of partial.now) positions.now) }
{
    for position in positions {
        add_placed::<S>(alloc, partial, &rules[*position as usize], found)?;
    }
    Ok(())
}

/// Adds the partial match with its next state at a hole.
pub(crate) fn add_taken(partial: Partial, found: &mut Vec<Partial>) -> Result<(), AllocError>
    ensures { OnOk result (partials_of found.new.items ≡ partials_of found.old.items
        ++ taken (partial_of partial)) }
{
    let Partial {
        mut waiting,
        mut states,
        cost,
    } = partial;
    let Some(state) = waiting.pop() else {
        return Ok(());
    };
    states.push(state)?;
    found.push(Partial {
        waiting,
        states,
        cost,
    })?;
    Ok(())
}

/// What a hole makes of some partial matches.
pub(crate) fn take_all(alloc: Global, old: Vec<Partial>) -> Result<Vec<Partial>, AllocError>
    ensures { IfOk result (λ found. partials_of found.items ≡ all_taken (partials_of old.items)) }
{
    let mut found = Vec::with_capacity(alloc, old.len())?;
    for partial in old {
        add_taken(partial, &mut found)?;
    }
    Ok(found)
}
