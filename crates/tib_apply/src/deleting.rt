//! The least costs of what a right-hand side leaves out: of runs of the grammar from the states
//! there.

ghost use Rattle.std.specs.Prelude.{◌≡◌, ◌<◌, length, map, None, Some, IfOk, OnOk};
ghost use Rattle.std.proofs.Common.{get_or};
ghost use Rattle.tib_lex.specs.Lists.{Each};
ghost use Rattle.tib_cost.specs.Least.{times, lesser};
ghost use Rattle.tib_grammar.specs.Forms.{AreNormal, IsNormalSide};
ghost use Rattle.tib_grammar.specs.Items.{state_in, holes_in};
ghost use Rattle.tib_apply.specs.ForwardPlans.{asked_at};
ghost use Rattle.tib_apply.specs.LeastRuns.{inside_total, AreBegun, Lowers, AreLeastRuns, asked_in, deleted_in};
ghost use Rattle.tib_apply.specs.BesideMatches.{CostsAsAsked, IsHoleCost, AreHoleCosts};

use std::alloc::{AllocError, Global};
use std::collections::HashMap;
use tib_cost::{Cost, Semiring};
use tib_grammar::{Item, Rule};
use tib_inside::inside;
use tib_match::HoleCost;
use tib_normal::Normal;
use tib_transducer::Variable;
use tib_tree::Label;

/// The least cost of a run from each state of a grammar, and of one that begins with a rule of each
/// state and label.
#[derive(Drop)]
pub(crate) struct LeastRuns {
    insides: Vec<Option<Cost>>,
    begun: HashMap<(u32, Label), Cost>,
}

/// The product of two costs, none where one of them is none or it is above the greatest cost.
pub(crate) fn product_of<S: Semiring>(one: Option<Cost>, two: Option<Cost>) -> Option<Cost>
    ensures { result ≡ times S.product one two }
{
    let Some(one) = one else {
        return None;
    };
    let Some(two) = two else {
        return None;
    };
    S::times(one, two)
}

/// The lesser of a cost that may be none and another one.
fn lesser_of(one: Option<Cost>, two: Cost) -> Cost
    ensures { Some result ≡ lesser one (Some two) }
{
    let Some(one) = one else {
        return two;
    };
    if one.get() < two.get() { one } else { two }
}

/// The cost of a state, none past the last one.
fn cost_at(insides: &[Option<Cost>], state: u32) -> Option<Cost>
    ensures { result ≡ get_or insides.now state None }
{
    match insides.get(state as usize) {
        Some(cost) => *cost,
        None => None,
    }
}

/// The product of the inside costs of some states.
fn total_of<S: Semiring>(insides: &[Option<Cost>], states: &[Item<u32>]) -> Option<Cost>
    ensures { result ≡ inside_total S.product insides.now (map state_in states.now) }
{
    let mut total = Some(S::one());
    let mut i = states.len();
    while i > 0 {
        i -= 1;
        total = product_of::<S>(cost_at(insides, states[i].state()), total);
    }
    total
}

/// Counts a rule at its state and label.
fn add_begun<S: Semiring>(
    begun: &mut HashMap<(u32, Label), Cost>,
    rule: &Rule<u32>,
    insides: &[Option<Cost>],
) -> Result<(), AllocError>
    requires { IsNormalSide rule.now.right }
    ensures { OnOk result (Lowers S.product insides.now rule.now begun.old begun.new) }
{
    let below = total_of::<S>(insides, rule.states_below());
    let Some(cost) = product_of::<S>(Some(rule.cost), below) else {
        return Ok(());
    };
    let (label, _rank) = rule.root();
    let start = (rule.left, label);
    let least = lesser_of(begun.get(&start).copied(), cost);
    begun.insert(start, least)?;
    Ok(())
}

/// The least cost of a run that begins with a rule of each state and label.
fn begun_costs<S: Semiring>(
    alloc: Global,
    rules: &[Rule<u32>],
    insides: &[Option<Cost>],
) -> Result<HashMap<(u32, Label), Cost>, AllocError>
    requires { AreNormal rules.now }
    ensures { IfOk result (AreBegun S.product insides.now rules.now (length rules.now)) }
{
    let mut begun = HashMap::new(alloc);
    for rule in rules {
        add_begun::<S>(&mut begun, rule, insides)?;
    }
    Ok(begun)
}

impl LeastRuns {
    /// The least costs of runs of a grammar. Err only if memory is refused. Cost: that of the
    /// inside costs, and one look-up by hash for each rule.
    pub(crate) fn new<S: Semiring>(
        alloc: Global,
        grammar: &Normal<S>,
    ) -> Result<LeastRuns, AllocError>
        ensures { IfOk result (AreLeastRuns S.product grammar.now.rules) }
    {
        grammar.grammar().is_sound();
        let insides = inside::<S>(alloc, grammar.grammar())?;
        let begun = begun_costs::<S>(alloc, grammar.grammar().rule_list(), &insides)?;
        Ok(LeastRuns { insides, begun })
    }

    /// The least cost of a run from a state, where a label is asked for of one that begins with a
    /// rule of that label. Cost: one look-up, by hash where there is a label.
    fn asked(&self, label: Option<Label>, state: u32) -> Option<Cost>
        ensures { result ≡ asked_in self.now label state }
    {
        match label {
            Some(label) => self.begun.get(&(state, label)).copied(),
            None => cost_at(&self.insides, state),
        }
    }

    /// The least cost of runs at some variables, each with its label, where the variables are at
    /// these states.
    pub(crate) fn total<S: Semiring>(&self, left_out: &[Variable], states: &[u32]) -> Option<Cost>
        requires { Each (λ x. x.number < length states.now) left_out.now }
        ensures { result ≡ deleted_in S.product self.now (map (asked_at states.now) left_out.now) }
    {
        let mut total = Some(S::one());
        let mut i = left_out.len();
        while i > 0 {
            i -= 1;
            let variable = &left_out[i];
            let own = self.asked(variable.label, states[variable.number as usize]);
            total = product_of::<S>(own, total);
        }
        total
    }

    /// What the states below a number cost at a variable that is left out, where a label is asked
    /// for or none. Cost: that of `asked` for each state.
    fn asked_costs(
        &self,
        alloc: Global,
        states: u32,
        label: Option<Label>,
    ) -> Result<HoleCost, AllocError>
        ensures { IfOk result (CostsAsAsked self.now states label) }
    {
        let mut costs = Vec::with_capacity(alloc, states as usize)?;
        for state in 0..states {
            costs.push(self.asked(label, state))?;
        }
        Ok(HoleCost::Table(costs))
    }

    /// What the states below a number cost at a variable beside a match: nothing where the variable
    /// is kept.
    fn hole_cost(
        &self,
        alloc: Global,
        states: u32,
        kept: &[bool],
        variable: &Variable,
    ) -> Result<HoleCost, AllocError>
        requires { variable.now.number < length kept.now }
        ensures { IfOk result (IsHoleCost self.now states kept.now variable.now) }
    {
        if kept[variable.number as usize] {
            return Ok(HoleCost::Free);
        }
        self.asked_costs(alloc, states, variable.label)
    }

    /// What the states below a number cost beside a match at the variables among some items, where
    /// it is known of each variable whether it is kept. Err only if memory is refused. Cost: for
    /// each variable that is left out one look-up for each state.
    pub(crate) fn hole_costs(
        &self,
        alloc: Global,
        states: u32,
        kept: &[bool],
        items: &[Item<Variable>],
    ) -> Result<Vec<HoleCost>, AllocError>
        requires { Each (λ x. x.number < length kept.now) (holes_in items.now) }
        ensures { IfOk result (λ v. AreHoleCosts self.now states kept.now (holes_in items.now)
            v.items) }
    {
        let mut costs = Vec::new(alloc);
        for item in items {
            if let Item::Hole(variable) = item {
                let cost = self.hole_cost(alloc, states, kept, variable)?;
                costs.push(cost)?;
            }
        }
        Ok(costs)
    }
}
