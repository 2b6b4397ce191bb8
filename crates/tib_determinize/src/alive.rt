//! The rules that are alive on a walk over child places, with the products of their residuals.

ghost use Rattle.std.specs.Prelude.{◌≡◌, ℕ, ◌<◌, ◌≤◌, Some, length, IfOk, IsTrue};
ghost use Rattle.tib_lex.specs.Lists.{Each};
ghost use Rattle.tib_grammar.specs.Forms.{AreNormal};
ghost use Rattle.std.proofs.Common.{get_or};
ghost use Rattle.tib_determinize.specs.Alive.{GoesOn, HasPlace, HasState, Stands, begun, cost_with, costs_of, narrowed, states_of, weight_with};
ghost use Rattle.tib_determinize.specs.Lookup.{residual_in};
ghost use Rattle.tib_determinize.specs.Occurrences.{BeginAll, IsBegun, fresh};
ghost use Rattle.tib_determinize.specs.Holders.{AreHolders};
ghost use Rattle.tib_determinize.specs.Vectors.{Rises, vector_at};

use crate::holders::is_marked;
use crate::occurrences::Occurrence;
use crate::vector::Vector;
use crate::walk::Walk;
use std::alloc::{AllocError, Global};
use tib_cost::{Cost, Semiring};
use tib_grammar::Rule;

/// A rule whose states after a place are in the vectors there, with the product of their residuals.
#[derive(Drop)]
pub(crate) struct Alive {
    pub rule: u32,
    pub weight: Cost,
}

/// Each of these rules, with the product of nothing.
pub(crate) fn begin<S: Semiring>(alloc: Global, positions: &[u32]) -> Result<Vec<Alive>, AllocError>
    ensures { IfOk result (λ alive. alive.items ≡ begun positions.now) }
{
    let mut alive = Vec::with_capacity(alloc, positions.len())?;
    for rule in positions {
        alive.push(Alive {
            rule: *rule,
            weight: S::one(),
        })?;
    }
    Ok(alive)
}

/// The state of a rule at a place.
pub(crate) fn state_at(rules: &[Rule<u32>], place: usize, rule: u32) -> u32
    requires normal { AreNormal rules.now }
    requires place { HasState rules.now place rule }
    ensures { result ≡ get_or (states_of rules.now rule) place 0 }
{
    let states = rules[rule as usize].states_below();
    states[place].state()
}

// The residual of the state of a rule at a place, if that is in a vector.
fn residual_at(rules: &[Rule<u32>], place: usize, vector: &Vector, rule: u32) -> Option<Cost>
    requires normal { AreNormal rules.now }
    requires place { HasState rules.now place rule }
    requires rise { Rises vector.now }
    ensures { result ≡ residual_in (get_or (states_of rules.now rule) place 0) vector.now }
{
    vector.residual_ascending(state_at(rules, place, rule))
}

// Whether a place is the last one of a walk, of a rule that has its label and its rank.
fn is_last_place(walk: &Walk<'_>, one: &Occurrence) -> bool
    requires normal { AreNormal walk.now.rules.now }
    ensures sound { IsTrue result → IsBegun walk.now.rules.now walk.now.label walk.now.rank
        (fresh one.now.rule) }
    ensures whole { one.now.place ≡ walk.now.last → IsBegun walk.now.rules.now walk.now.label
        walk.now.rank (fresh one.now.rule) → IsTrue result }
{
    if one.place != walk.last {
        return false;
    }
    let rules = walk.rules;
    if one.rule as usize >= rules.len() {
        return false;
    }
    let (own, many) = rules[one.rule as usize].root();
    let label = walk.label;
    own == label && many == walk.rank
}

// Whether a vector up to a walk's position may have the state of a rule at a place.
fn is_held(walk: &Walk<'_>, place: u32, rule: u32) -> bool
    requires normal { AreNormal walk.now.rules.now }
    requires place { HasState walk.now.rules.now place rule }
    requires holders { AreHolders walk.now.wide.now walk.now.order.now
        walk.now.holders.now.lists.items }
    ensures { (p : ℕ) → p ≤ walk.now.position →
        Stands walk.now.rules.now place (vector_at walk.now.order.now p) rule → IsTrue result }
{
    if place == walk.last {
        return true;
    }
    let state = state_at(walk.rules, place as usize, rule);
    if !is_marked(walk.wide, state) {
        return true;
    }
    walk.holders.has_below(state, walk.position as usize + 1)
}

// Whether vectors up to a walk's position may have the states of a rule at all places but the last
// one of the walk.
fn goes_on(walk: &Walk<'_>, rule: u32) -> bool
    requires normal { AreNormal walk.now.rules.now }
    requires rule { IsBegun walk.now.rules.now walk.now.label walk.now.rank (fresh rule) }
    requires holders { AreHolders walk.now.wide.now walk.now.order.now
        walk.now.holders.now.lists.items }
    ensures { GoesOn walk.now.rules.now walk.now.order.now walk.now.position walk.now.last
        walk.now.rank rule → IsTrue result }
{
    for place in 0..walk.rank {
        if !is_held(walk, place, rule) {
            return false;
        }
    }
    true
}

// Whether a walk begins with the rule of a place: it has its label and its rank, the place is its
// last one, and vectors up to its position may have the states at the others.
fn is_begun(walk: &Walk<'_>, one: &Occurrence) -> bool
    requires normal { AreNormal walk.now.rules.now }
    requires holders { AreHolders walk.now.wide.now walk.now.order.now
        walk.now.holders.now.lists.items }
    ensures sound { IsTrue result → IsBegun walk.now.rules.now walk.now.label walk.now.rank
        (fresh one.now.rule) }
    ensures whole { one.now.place ≡ walk.now.last → IsBegun walk.now.rules.now walk.now.label
        walk.now.rank (fresh one.now.rule) → GoesOn walk.now.rules.now walk.now.order.now
        walk.now.position walk.now.last walk.now.rank one.now.rule → IsTrue result }
{
    if !is_last_place(walk, one) {
        return false;
    }
    goes_on(walk, one.rule)
}

/// Of some places of rules the rules of a walk's label and rank whose place is its last one, each
/// with the product of nothing; those that have a state at another place that no vector up to the
/// walk's position has are left out. Err only if memory is refused. Cost: one step for each place,
/// and as many as its rank for each of these rules.
pub(crate) fn begin_at<S: Semiring>(
    alloc: Global,
    walk: &Walk<'_>,
    places: &[Occurrence],
) -> Result<Vec<Alive>, AllocError>
    requires normal { AreNormal walk.now.rules.now }
    requires holders { AreHolders walk.now.wide.now walk.now.order.now
        walk.now.holders.now.lists.items }
    ensures sound { IfOk result (λ alive. Each (IsBegun walk.now.rules.now walk.now.label
        walk.now.rank) alive.items) }
    ensures whole { IfOk result (λ alive. BeginAll walk.now.rules.now walk.now.order.now
        walk.now.position walk.now.label walk.now.rank walk.now.last places.now alive.items) }
{
    let mut alive = Vec::with_capacity(alloc, places.len())?;
    for one in places {
        if is_begun(walk, one) {
            alive.push(Alive {
                rule: one.rule,
                weight: S::one(),
            })?;
        }
    }
    Ok(alive)
}

// The weight of a rule that is alive, where a vector is at the place before.
fn weight<S: Semiring>(
    rules: &[Rule<u32>],
    place: usize,
    vector: &Vector,
    alive: &Alive,
) -> Option<Cost>
    requires normal { AreNormal rules.now }
    requires place { HasPlace rules.now place alive.now }
    requires rise { Rises vector.now }
    ensures { result ≡ weight_with S.product rules.now place vector.now alive.now }
{
    match residual_at(rules, place, vector, alive.rule) {
        Some(residual) => S::times(residual, alive.weight),
        None => None,
    }
}

/// The rules that are still alive, where a vector is at the place before.
pub(crate) fn narrow<S: Semiring>(
    alloc: Global,
    rules: &[Rule<u32>],
    place: usize,
    vector: &Vector,
    alive: &[Alive],
) -> Result<Vec<Alive>, AllocError>
    requires normal { AreNormal rules.now }
    requires place { Each (HasPlace rules.now place) alive.now }
    requires rise { Rises vector.now }
    ensures { IfOk result (λ left. left.items ≡ narrowed S.product rules.now place vector.now
        alive.now) }
{
    let mut left = Vec::with_capacity(alloc, alive.len())?;
    for one in alive {
        if let Some(weight) = weight::<S>(rules, place, vector, one) {
            left.push(Alive {
                rule: one.rule,
                weight,
            })?;
        }
    }
    Ok(left)
}

// The left state of a rule that is alive at its cost, none where that is above the greatest.
fn cost<S: Semiring>(rules: &[Rule<u32>], alive: &Alive) -> Option<(u32, Cost)>
    requires { alive.now.rule < length rules.now }
    ensures { result ≡ cost_with S.product rules.now alive.now }
{
    let rule = &rules[alive.rule as usize];
    match S::times(rule.cost, alive.weight) {
        Some(cost) => Some((rule.left, cost)),
        None => None,
    }
}

/// The left states of the rules that are alive, at their costs.
pub(crate) fn costs<S: Semiring>(
    alloc: Global,
    rules: &[Rule<u32>],
    alive: &[Alive],
) -> Result<Vec<(u32, Cost)>, AllocError>
    requires { Each (λ a. a.rule < length rules.now) alive.now }
    ensures { IfOk result (λ costs. costs.items ≡ costs_of S.product rules.now alive.now) }
{
    let mut costs = Vec::with_capacity(alloc, alive.len())?;
    for one in alive {
        if let Some(cost) = cost::<S>(rules, one) {
            costs.push(cost)?;
        }
    }
    Ok(costs)
}
