// Inside costs, state by state.
ghost use Rattle.std.specs.Prelude.{◌≡◌, ℕ, ◌+◌, ◌<◌, ◌≤◌, ◌^◌, [], length, OnOk, IfOk, None, replicate};
ghost use Rattle.tib_grammar.specs.Range.{AreInRange};
ghost use Rattle.tib_inside.specs.Inside.{AreInsides};
ghost use Rattle.tib_inside.specs.Uses.{AreUsesOf};
ghost use Rattle.tib_inside.specs.Settling.{costs_in, IsSettling, IsTaken, left_over};

use crate::holes::Holes;
use crate::pending::{Pending, begin, spread};
use crate::uses::Uses;
use std::alloc::{AllocError, Global};
use tib_cost::{Cost, Semiring};
use tib_grammar::{Grammar, Rule};
use tib_normal::Agenda;

/// Settles a state: gives it its cost, where it has none yet, and fills its holes in the rules in
/// whose right sides it occurs.
fn settle<S: Semiring>(
    rules: &[Rule<u32>],
    uses: &Uses,
    entry: (Cost, u32),
    costs: &mut Vec<Option<Cost>>,
    pending: &mut Vec<Pending>,
    agenda: &mut Agenda,
) -> Result<(), AllocError>
    requires uses { AreUsesOf rules.now (length costs.old.items) uses.now }
    requires range { AreInRange (length costs.old.items) rules.now }
    requires state { entry.1 < length costs.old.items }
    requires taken { IsTaken S.product rules.now (costs_in costs.old.items) pending.old.items entry
        agenda.old }
    ensures long { length costs.new.items ≡ length costs.old.items }
    ensures settling { OnOk result (IsSettling S.product rules.now (costs_in costs.new.items) 0 []
        pending.new.items agenda.new) }
    ensures less { OnOk result (left_over (length uses.now.rules.items) costs.new.items agenda.new
        ≤ left_over (length uses.now.rules.items) costs.old.items agenda.old) }
{
    let (cost, state) = entry;
    if costs[state as usize].is_some() {
        return Ok(());
    }
    costs[state as usize] = Some(cost);
    spread::<S>(rules, uses.of(state), cost, costs, pending, agenda)?;
    Ok(())
}

/// A list of this number of states without a cost.
fn no_costs(alloc: Global, count: usize) -> Result<Vec<Option<Cost>>, AllocError>
    ensures { IfOk result (λ v. v.items ≡ replicate count None) }
{
    let mut costs = Vec::with_capacity(alloc, count)?;
    for _ in 0..count {
        costs.push(None)?;
    }
    Ok(costs)
}

/// The inside costs of this number of states by some rules.
pub(crate) fn inside_costs<S: Semiring>(
    alloc: Global,
    rules: &[Rule<u32>],
    count: usize,
) -> Result<Vec<Option<Cost>>, AllocError>
    requires few { length rules.now < 2 ^ 32 }
    requires range { AreInRange count rules.now }
    ensures length { IfOk result (λ costs. length costs.items ≡ count) }
    ensures insides { IfOk result (λ costs. AreInsides S.product rules.now costs.items) }
{
    let holes = Holes::new(alloc, rules)?;
    let uses = Uses::new(alloc, &holes.states, &holes.owners, count)?;
    let mut costs = no_costs(alloc, count)?;
    let mut agenda = Agenda::new(alloc);
    let mut pending = begin::<S>(alloc, rules, &holes, &costs, &mut agenda)?;
    while let Some(entry) = agenda.pop() {
        settle::<S>(rules, &uses, entry, &mut costs, &mut pending, &mut agenda)?;
    }
    Ok(costs)
}

/// Each state's least cost of a run, none where no run costs at most the greatest cost. The states
/// get their costs in ascending order of cost (Knuth 1977). Each rule counts the states in its
/// right side that have none yet (as Dowling and Gallier 1984 do for Horn clauses), so what is kept
/// of it is looked at once for each of them.
///
/// Err only if memory is refused. Worst case: with s states, r rules and h states in their right
/// sides, O(s + h + r log r) steps, besides one pass over the labels of the right sides.
pub fn inside<S: Semiring>(
    alloc: Global,
    grammar: &Grammar<S>,
) -> Result<Vec<Option<Cost>>, AllocError>
    ensures length { IfOk result (λ costs. length costs.items ≡ length grammar.now.names) }
    ensures insides { IfOk result (λ costs. AreInsides S.product grammar.now.rules costs.items) }
{
    grammar.is_sound();
    inside_costs::<S>(alloc, grammar.rule_list(), grammar.states() as usize)
}
