//! What a rule of the transducer does at each match of its left-hand side, found once for each
//! rule.

ghost use Rattle.std.specs.Prelude.{◌≡◌, ℕ, ◌<◌, length, map, nat_eq, false, IfOk};
ghost use Rattle.std.specs.List.{list_any};
ghost use Rattle.std.proofs.Common.{get_or};
ghost use Rattle.tib_lex.specs.Lists.{Each};
ghost use Rattle.tib_grammar.specs.Items.{holes_in};
ghost use Rattle.tib_transducer.specs.Range.{IsShaped, AreShaped};
ghost use Rattle.tib_apply.specs.Restrictions.{restriction};
ghost use Rattle.tib_apply.specs.ForwardPlans.{end_of, unmarked_of, IsPlan, ArePlans};

use crate::restrictions::Restrictions;
use std::alloc::{AllocError, Global};
use tib_grammar::Item;
use tib_transducer::{Pair, TransducerRule, Variable};

/// Where a pair of a right-hand side leads: to the state of the grammar at a variable, a state of
/// the transducer, and a restriction.
#[derive(Clone, Copy, Debug, Drop)]
pub(crate) struct PlannedEnd {
    /// The number of the variable.
    pub variable: u32,
    /// The state of the transducer.
    pub state: u32,
    /// The restriction of the variable.
    pub restriction: u32,
}

/// The ends of the pairs on the right of a rule, in preorder, and the variables that are in none of
/// them.
#[derive(Drop)]
pub(crate) struct Plan {
    /// Where the pairs lead.
    pub ends: Vec<PlannedEnd>,
    /// For each variable, by its number, whether the right-hand side has it.
    pub kept: Vec<bool>,
    /// The variables that the right-hand side leaves out.
    pub left_out: Vec<Variable>,
}

/// The restrictions of the variables among some items, in order.
fn restrictions_among(
    alloc: Global,
    restrictions: &Restrictions,
    items: &[Item<Variable>],
) -> Result<Vec<u32>, AllocError>
    ensures { IfOk result (λ v. v.items ≡ map (λ x. restriction restrictions.now x.label)
        (holes_in items.now)) }
{
    let mut numbers = Vec::new(alloc);
    for item in items {
        if let Item::Hole(variable) = item {
            numbers.push(restrictions.number(variable.label))?;
        }
    }
    Ok(numbers)
}

/// The ends of the pairs among some items, where the restrictions of the variables are listed by
/// their numbers.
fn ends_among(
    alloc: Global,
    restrictions: &[u32],
    items: &[Item<Pair<u32>>],
) -> Result<Vec<PlannedEnd>, AllocError>
    requires { Each (λ x. x.variable < length restrictions.now) (holes_in items.now) }
    ensures { IfOk result (λ v. v.items ≡ map (end_of restrictions.now) (holes_in items.now)) }
{
    let mut ends = Vec::new(alloc);
    for item in items {
        if let Item::Hole(pair) = item {
            ends.push(PlannedEnd {
                variable: pair.variable,
                state: pair.state,
                restriction: restrictions[pair.variable as usize],
            })?;
        }
    }
    Ok(ends)
}

/// For each number below the count whether it is that of a variable of some ends.
fn marks_of(alloc: Global, ends: &[PlannedEnd], count: usize) -> Result<Vec<bool>, AllocError>
    requires { Each (λ e. e.variable < count) ends.now }
    ensures long { IfOk result (λ v. length v.items ≡ count) }
    ensures marked { IfOk result (λ v. (i : ℕ) → i < count → get_or v.items i false
        ≡ list_any (nat_eq i) (map (λ e. e.variable) ends.now)) }
{
    let mut marks = vec![in alloc; false; count]?;
    for end in ends {
        marks[end.variable as usize] = true;
    }
    Ok(marks)
}

/// The variables among some items that are not marked.
fn unmarked(
    alloc: Global,
    marks: &[bool],
    items: &[Item<Variable>],
) -> Result<Vec<Variable>, AllocError>
    requires { Each (λ x. x.number < length marks.now) (holes_in items.now) }
    ensures { IfOk result (λ v. v.items ≡ unmarked_of marks.now (holes_in items.now)) }
{
    let mut variables = Vec::new(alloc);
    for item in items {
        if let Item::Hole(variable) = item {
            if !marks[variable.number as usize] {
                variables.push(Variable {
                    number: variable.number,
                    label: variable.label,
                })?;
            }
        }
    }
    Ok(variables)
}

impl Plan {
    /// What a rule does. Err only if memory is refused. Cost: a few passes over its two sides.
    pub(crate) fn new(
        alloc: Global,
        restrictions: &Restrictions,
        rule: &TransducerRule<u32>,
    ) -> Result<Plan, AllocError>
        requires { IsShaped rule.now }
        ensures { IfOk result (IsPlan restrictions.now rule.now) }
    {
        let left = rule.left.items();
        let numbers = restrictions_among(alloc, restrictions, left)?;
        let ends = ends_among(alloc, &numbers, rule.right.items())?;
        let kept = marks_of(alloc, &ends, numbers.len())?;
        let left_out = unmarked(alloc, &kept, left)?;
        Ok(Plan {
            ends,
            kept,
            left_out,
        })
    }
}

/// What each of some rules does.
pub(crate) fn plans_of(
    alloc: Global,
    restrictions: &Restrictions,
    rules: &[TransducerRule<u32>],
) -> Result<Vec<Plan>, AllocError>
    requires { AreShaped rules.now }
    ensures { IfOk result (λ plans. ArePlans restrictions.now rules.now plans.items) }
{
    let mut plans = Vec::with_capacity(alloc, rules.len())?;
    for rule in rules {
        plans.push(Plan::new(alloc, restrictions, rule)?)?;
    }
    Ok(plans)
}
