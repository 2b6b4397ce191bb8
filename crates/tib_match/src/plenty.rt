//! Lower bounds on how many lists of states match, from one for each state at the nodes of a side.

ghost use Rattle.std.specs.Prelude.{◌≡◌, ℕ, ◌<◌, ◌≤◌, ◌+◌, ◌*◌, List, length, map, take, replicate, IfOk, IfSome, IsTrue, Some, None};
ghost use Rattle.std.proofs.Common.{get_or};
ghost use Rattle.tib_lex.specs.Lists.{Has};
ghost use Rattle.tib_grammar.specs.Forms.{AreNormal};
ghost use Rattle.tib_grammar.specs.Items.{state_in};
ghost use Rattle.tib_grammar.specs.Run.{rule_at};
ghost use Rattle.tib_grammar.specs.Sides.{holes};
ghost use Rattle.tib_normal.specs.Rules.{positions_with};
ghost use Rattle.tib_match.specs.Counting.{AreChained, ComesFirst, HasAlong, IsMerged, IsOneAt, plenties_of, plenty_at};
ghost use Rattle.tib_match.specs.Boxes.{cost_at};
ghost use Rattle.tib_match.specs.declared.plenty.Plenty.{Plenty};

use crate::hole_cost::HoleCost;
use std::alloc::{AllocError, Global};
use tib_cost::{Cost, Semiring};
use tib_grammar::{Item, Rule};
use tib_normal::Normal;
use tib_tree::Label;

/// At least so many lists of states, each with a run from a state to it of at most a cost.
#[derive(Clone, Copy, Drop)]
pub(crate) struct Plenty {
    /// How many.
    pub count: u64,
    /// The cost.
    pub worst: Cost,
    /// At a label: the position of the rule that was counted last.
    pub last: u32,
}

/// What each state has at a node, none where nothing was found.
#[derive(Drop)]
pub(crate) struct Plenties {
    pub states: Vec<Option<Plenty>>,
}

// What two parts have together, where each list of the one goes with each of the other: the
// product.
fn both<S: Semiring>(one: &Plenty, two: &Plenty) -> Option<Plenty>
    ensures worst { IfSome result (λ p. S.product one.now.worst two.now.worst ≡ p.worst) }
    ensures count { IfSome result (λ p. p.count ≤ one.now.count * two.now.count) }
{
    let Some(worst) = S::times(one.worst, two.worst) else {
        return None;
    };
    Some(Plenty {
        count: one.count.saturating_mul(two.count),
        worst,
        last: 0,
    })
}

impl Plenties {
    // What a state has, none past the last one.
    fn at(&self, state: u32) -> Option<Plenty>
        ensures { result ≡ plenty_at self.now state }
    {
        match self.states.get(state as usize) {
            Some(plenty) => *plenty,
            None => None,
        }
    }
}

/// What some states have together in as many columns, the first state in the last column; none
/// where one of them has nothing, or the costs are together above the greatest.
pub(crate) fn plenty_along<S: Semiring>(
    columns: &[Plenties],
    states: &[Item<u32>],
) -> Option<Plenty>
    ensures { IfSome result (λ p. HasAlong S.product (plenties_of columns.now)
        (map state_in states.now) p.count p.worst) }
{
    if columns.len() != states.len() {
        return None;
    }
    let mut total = Plenty {
        count: 1,
        worst: S::one(),
        last: 0,
    };
    let mut i = 0;
    while i < columns.len() {
        let state = states[states.len() - 1 - i].state();
        let Some(own) = columns[i].at(state) else {
            return None;
        };
        let Some(next) = both::<S>(&own, &total) else {
            return None;
        };
        total = next;
        i += 1;
    }
    Some(total)
}

// Whether of the first so many of some states those of the one list come before those of the other.
fn comes_first(one: &[Item<u32>], two: &[Item<u32>], front: usize) -> bool
    ensures { IsTrue result → ComesFirst (take front (map state_in one.now))
        (take front (map state_in two.now)) }
{
    let mut i = 0;
    while i < front && i < one.len() && i < two.len() {
        let here = one[i].state();
        let there = two[i].state();
        if here < there {
            return true;
        }
        if here > there {
            return false;
        }
        i += 1;
    }
    false
}

// What two rules of a state have: both together where the first states below the one come before
// those below the other, and else the one that has more.
fn merged(rules: &[Rule<u32>], one: &Plenty, two: &Plenty, front: usize) -> Plenty
    requires normal { AreNormal rules.now }
    requires first { one.now.last < length rules.now }
    requires second { two.now.last < length rules.now }
    ensures { IsMerged (ComesFirst (take front (holes (rule_at rules.now one.now.last).right.kids))
        (take front (holes (rule_at rules.now two.now.last).right.kids))) one.now two.now result }
{
    let first = &rules[one.last as usize];
    let second = &rules[two.last as usize];
    if comes_first(first.states_below(), second.states_below(), front) {
        let worst = if one.worst.get() < two.worst.get() {
            two.worst
        } else {
            one.worst
        };
        return Plenty {
            count: one.count.saturating_add(two.count),
            worst,
            last: two.last,
        };
    }
    if one.count < two.count { *two } else { *one }
}

// What the rule at a position has for its state: the states below it along the columns, with the
// cost of the rule.
fn of_rule<S: Semiring>(rules: &[Rule<u32>], position: u32, below: &[Plenties]) -> Option<Plenty>
    requires normal { AreNormal rules.now }
    requires within { position < length rules.now }
    ensures last { IfSome result (λ p. p.last ≡ position) }
    ensures along { IfSome result (λ p. (inner : ℕ) × HasAlong S.product (plenties_of below.now)
        (holes (rule_at rules.now position).right.kids) p.count inner
        × (S.product (rule_at rules.now position).cost inner ≤ p.worst)) }
{
    let rule = &rules[position as usize];
    let Some(inner) = plenty_along::<S>(below, rule.states_below()) else {
        return None;
    };
    let Some(worst) = S::times(rule.cost, inner.worst) else {
        return None;
    };
    Some(Plenty {
        count: inner.count,
        worst,
        last: position,
    })
}

// Counts what the rule at a position has for its state.
fn count_rule<S: Semiring>(
    column: &mut Vec<Option<Plenty>>,
    rules: &[Rule<u32>],
    position: u32,
    below: &[Plenties],
    front: usize,
)
    requires normal { AreNormal rules.now }
    requires within { position < length rules.now }
    requires left { (rule_at rules.now position).left < length column.old.items }
    requires lasts { (q : ℕ) (p : Plenty) → get_or column.old.items q None ≡ Some p →
        p.last < length rules.now }
    ensures long { length column.new.items ≡ length column.old.items }
    ensures chained { (positions : List ℕ) → Has positions position →
        AreChained S.product rules.now positions (plenties_of below.now) front
        (λ q. get_or column.old.items q None) →
        AreChained S.product rules.now positions (plenties_of below.now) front
        (λ q. get_or column.new.items q None) }
{
    let Some(own) = of_rule::<S>(rules, position, below) else {
        return;
    };
    let left = rules[position as usize].left as usize;
    let Some(old) = column[left] else {
        column[left] = Some(own);
        return;
    };
    let next = merged(rules, &old, &own, front);
    column[left] = Some(next);
}

// Nothing for any state.
fn nothing(alloc: Global, states: u32) -> Result<Vec<Option<Plenty>>, AllocError>
    ensures { IfOk result (λ v. v.items ≡ replicate states None) }
{
    let mut column = Vec::with_capacity(alloc, states as usize)?;
    for _state in 0..states {
        column.push(None)?;
    }
    Ok(column)
}

/// The column of a label, over those of its children, the first child's last; the first `front`
/// children are holes. Cost: one pass over the states, and one over the
/// rules of the label.
pub(crate) fn label_plenties<S: Semiring>(
    alloc: Global,
    normal: &Normal<S>,
    label: Label,
    rank: u32,
    front: usize,
    below: &[Plenties],
) -> Result<Plenties, AllocError>
    ensures { IfOk result (λ column. AreChained S.product normal.now.rules
        (positions_with label rank normal.now.rules) (plenties_of below.now) front
        (plenty_at column)) }
{
    let grammar = normal.grammar();
    grammar.is_sound();
    let rules = grammar.rule_list();
    let mut states = nothing(alloc, grammar.states())?;
    for position in normal.rules_with(label, rank) {
        count_rule::<S>(&mut states, rules, *position, below, front);
    }
    Ok(Plenties { states })
}

// What a state has at a hole: one list, at its cost there.
fn one_at<S: Semiring>(cost: &HoleCost, state: u32) -> Option<Plenty>
    ensures { (p : Plenty) → result ≡ Some p → (p.count ≡ 1) × (cost_at cost.now state
        ≡ Some p.worst) }
{
    let Some(worst) = cost.of::<S>(state) else {
        return None;
    };
    Some(Plenty {
        count: 1,
        worst,
        last: 0,
    })
}

/// The column of a hole. Cost: one pass over the states.
pub(crate) fn hole_plenties<S: Semiring>(
    alloc: Global,
    normal: &Normal<S>,
    cost: &HoleCost,
) -> Result<Plenties, AllocError>
    ensures { IfOk result (λ column. IsOneAt cost.now (plenty_at column)) }
{
    let many = normal.grammar().states();
    let mut states = Vec::with_capacity(alloc, many as usize)?;
    for state in 0..many {
        states.push(one_at::<S>(cost, state))?;
    }
    Ok(Plenties { states })
}
