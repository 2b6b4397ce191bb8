// Ways to the rules of a grammar, for what spreads from their right sides to their left states.
ghost use Rattle.std.specs.Prelude.{◌≡◌, ℕ, ◌+◌, ◌<◌, ◌≤◌, ◌^◌, length, IfOk, IfSome, IfNone};
ghost use Rattle.tib_grammar.specs.Sides.{Lone};
ghost use Rattle.tib_normal.specs.Ways.{IsEnd, AreEnds, AreWays};

use crate::links::Links;
use std::alloc::{AllocError, Global};
use tib_grammar::{Item, Rule};

/// Marks a rule that is no chain rule: it has no end.
const NO_END: u32 = u32::MAX;

/// The state of a chain rule's right side; none where the rule is no chain rule.
fn lone_state(rule: &Rule<u32>) -> Option<u32>
    ensures lone { IfSome result (λ q. rule.now.right ≡ Lone q) }
    ensures none { IfNone result ((q : ℕ) → rule.now.right ≡ Lone q → ⊥) }
{
    match &rule.right.items()[0] {
        Item::Label { .. } => None,
        Item::Hole(state) => Some(*state),
    }
}

/// The state of a chain rule's right side, or `NO_END`.
fn end_of(rule: &Rule<u32>) -> u32
    ensures { IsEnd rule.now result }
{
    match lone_state(rule) {
        Some(state) => state,
        None => NO_END,
    }
}

/// The ends of all rules.
fn ends_of(alloc: Global, rules: &[Rule<u32>]) -> Result<Vec<u32>, AllocError>
    ensures { IfOk result (λ ends. AreEnds rules.now ends.items) }
{
    let mut ends = Vec::with_capacity(alloc, rules.len())?;
    for rule in rules {
        ends.push(end_of(rule))?;
    }
    Ok(ends)
}

/// The chain rules by the states to which they lead, and the other rules by the numbers of their
/// sides.
#[derive(Drop)]
pub struct Ways {
    pub to_state: Links,
    pub with_side: Links,
}

impl Ways {
    /// The ways to some rules over this number of states, whose sides have these numbers below
    /// `sides`. Err only if memory is refused. Cost: one pass over the rules, the states and the
    /// sides.
    pub fn new(
        alloc: Global,
        rules: &[Rule<u32>],
        numbers: &[u32],
        sides: usize,
        states: usize,
    ) -> Result<Ways, AllocError>
        requires few { length rules.now < 2 ^ 32 }
        requires long { length numbers.now ≡ length rules.now }
        ensures { IfOk result (AreWays rules.now numbers.now sides states) }
    {
        let ends = ends_of(alloc, rules)?;
        let to_state = Links::new(alloc, &ends, states)?;
        let with_side = Links::new(alloc, numbers, sides)?;
        Ok(Ways {
            to_state,
            with_side,
        })
    }
}
