//! Least costs by state at the nodes of a side, each found from those of its children.

ghost use Rattle.std.specs.Prelude.{◌≡◌, ℕ, ◌<◌, ◌+◌, ◌++◌, ◌∷◌, [], List, length, map, replicate, IfOk, OnOk, Some, None};
ghost use Rattle.std.proofs.Common.{get_or};
ghost use Rattle.tib_cost.specs.Least.{times, lesser};
ghost use Rattle.tib_grammar.specs.Forms.{IsNormalSide};
ghost use Rattle.tib_grammar.specs.Items.{state_in};
ghost use Rattle.tib_normal.specs.Rules.{positions_with};
ghost use Rattle.tib_match.specs.Boxes.{cost_along, cost_at, spanned, column_of, stack_of, IsColumn, IsLowered};

use crate::hole_cost::HoleCost;
use crate::spans::Span;
use std::alloc::{AllocError, Global};
use std::marker::Model;
use tib_cost::{Cost, Semiring};
use tib_grammar::{Item, Rule};
use tib_normal::Normal;
use tib_tree::Label;

/// The least cost of each state at a node, none where there is none.
#[derive(Drop)]
pub(crate) struct Column {
    costs: Vec<Option<Cost>>,
}

impl Model for Column {
    ghost use Rattle.std.specs.Prelude.{ℕ, List, Option};

    ghost Value = { List (Option ℕ) };

    ghost view = { λ c. c.costs.items };
}

/// The product of two costs, none where one of them is none or it is above the greatest cost.
pub(crate) fn product_of<S: Semiring>(one: Option<Cost>, two: Option<Cost>) -> Option<Cost>
    ensures { result ≡ times S.product one two }
{
    let Some(one) = one else {
        return None;
    };
    let Some(two) = two else {
        return None;
    };
    S::times(one, two)
}

// The lesser of a cost that may be none and another one.
fn lesser_of(one: Option<Cost>, two: Cost) -> Cost
    ensures { Some result ≡ lesser one (Some two) }
{
    let Some(one) = one else {
        return two;
    };
    if one.get() < two.get() { one } else { two }
}

impl Column {
    /// The cost of a state, none past the last one.
    pub(crate) fn at(&self, state: u32) -> Option<Cost>
        ensures { result ≡ column_of self.now state }
    {
        match self.costs.get(state as usize) {
            Some(cost) => *cost,
            None => None,
        }
    }
}

/// The product of the costs of some states in as many columns, the first state in the last column.
pub(crate) fn product_along<S: Semiring>(columns: &[Column], states: &[Item<u32>]) -> Option<Cost>
    ensures { result ≡ cost_along S.product (stack_of columns.now) (map state_in states.now) }
{
    if columns.len() != states.len() {
        return None;
    }
    let mut total = Some(S::one());
    let mut i = 0;
    while i < columns.len() {
        let state = states[states.len() - 1 - i].state();
        total = product_of::<S>(columns[i].at(state), total);
        i += 1;
    }
    total
}

// Lowers the cost of a rule's state to what the rule gives, if that is less.
fn lower<S: Semiring>(column: &mut Vec<Option<Cost>>, rule: &Rule<u32>, below: &[Column])
    requires normal { IsNormalSide rule.now.right }
    requires within { rule.now.left < length column.old.items }
    ensures { IsLowered S.product rule.now (stack_of below.now) column.old.items column.new.items }
{
    let below = product_along::<S>(below, rule.states_below());
    let Some(cost) = product_of::<S>(Some(rule.cost), below) else {
        return;
    };
    let left = rule.left as usize;
    let least = lesser_of(column[left], cost);
    column[left] = Some(least);
}

// No cost for any state.
fn no_costs(alloc: Global, states: u32) -> Result<Vec<Option<Cost>>, AllocError>
    ensures { IfOk result (λ v. v.items ≡ replicate states None) }
{
    let mut costs = Vec::with_capacity(alloc, states as usize)?;
    for _state in 0..states {
        costs.push(None)?;
    }
    Ok(costs)
}

/// The column of a label, over those of its children, the first child's last. Cost: one pass over
/// the states, and one over the rules of the label.
pub(crate) fn label_column<S: Semiring>(
    alloc: Global,
    normal: &Normal<S>,
    label: Label,
    rank: u32,
    below: &[Column],
) -> Result<Column, AllocError>
    ensures { IfOk result (λ column. IsColumn S.product normal.now.rules
        (positions_with label rank normal.now.rules) (stack_of below.now) (column_of column)) }
{
    let grammar = normal.grammar();
    grammar.is_sound();
    let rules = grammar.rule_list();
    let mut costs = no_costs(alloc, grammar.states())?;
    for position in normal.rules_with(label, rank) {
        lower::<S>(&mut costs, &rules[*position as usize], below);
    }
    Ok(Column { costs })
}

// The cost of a state at a hole, none for one outside the span.
fn cost_in<S: Semiring>(cost: &HoleCost, span: &Span, state: u32) -> Option<Cost>
    ensures { result ≡ spanned span.now (cost_at cost.now) state }
{
    if state < span.low {
        return None;
    }
    if state >= span.high {
        return None;
    }
    cost.of::<S>(state)
}

/// The column of a hole, whose state is one of a span.
pub(crate) fn hole_column<S: Semiring>(
    alloc: Global,
    cost: &HoleCost,
    span: &Span,
) -> Result<Column, AllocError>
    ensures { IfOk result (λ column. (q : ℕ) → column_of column q
        ≡ spanned span.now (cost_at cost.now) q) }
{
    let mut costs = Vec::with_capacity(alloc, span.high as usize)?;
    for state in 0..span.high {
        costs.push(cost_in::<S>(cost, span, state))?;
    }
    Ok(Column { costs })
}
