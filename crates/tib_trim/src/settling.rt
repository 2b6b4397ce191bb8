// Outside costs of the states of any rules, state by state. `tib_prune` has them for a grammar in
// normal form, whose rules lie side by side by their left states; a file's rules may be in any
// order, and their right sides of any depth.
ghost use Rattle.std.specs.Prelude.{◌≡◌, ℕ, ◌+◌, ◌<◌, ◌≤◌, ◌^◌, length, OnOk, IfOk, None, replicate};
ghost use Rattle.tib_grammar.specs.Range.{AreInRange};
ghost use Rattle.tib_inside.specs.Settling.{costs_in, left_over};
ghost use Rattle.tib_prune.specs.Settling.{AreSettling};
ghost use Rattle.tib_prune.specs.Loop.{AreInsidesOfAll, AreOutsides, IsTaken};
ghost use Rattle.tib_prune.specs.Telling.{places_of};
ghost use Rattle.tib_trim.specs.Links.{AreLinks};

use crate::links::Links;
use crate::telling::tell;
use std::alloc::{AllocError, Global};
use tib_cost::{Cost, Semiring};
use tib_grammar::{Grammar, Rule};
use tib_inside::inside;
use tib_normal::Agenda;

/// Settles a state: gives it its cost, where it has none yet, and has its rules tell theirs.
fn settle<S: Semiring>(
    rules: &[Rule<u32>],
    links: &Links,
    entry: (Cost, u32),
    insides: &[Option<Cost>],
    outsides: &mut Vec<Option<Cost>>,
    rests: &mut Vec<Option<Cost>>,
    agenda: &mut Agenda,
) -> Result<(), AllocError>
    requires links { AreLinks rules.now (length insides.now) links.now }
    requires range { AreInRange (length insides.now) rules.now }
    requires as_many { length outsides.old.items ≡ length insides.now }
    requires insides { AreInsidesOfAll S.product rules.now insides.now }
    requires state { entry.1 < length insides.now }
    requires taken { IsTaken S.product rules.now insides.now outsides.old.items entry agenda.old }
    ensures long { length outsides.new.items ≡ length outsides.old.items }
    ensures settling { OnOk result (AreSettling S.product rules.now (costs_in insides.now)
        (costs_in outsides.new.items) agenda.new) }
    ensures less { OnOk result (left_over (places_of rules.now) outsides.new.items agenda.new
        ≤ left_over (places_of rules.now) outsides.old.items agenda.old) }
{
    let (cost, state) = entry;
    if outsides[state as usize].is_some() {
        return Ok(());
    }
    outsides[state as usize] = Some(cost);
    tell::<S>(
        rules,
        links,
        (cost, state),
        insides,
        outsides,
        rests,
        agenda,
    )?;
    Ok(())
}

/// A list of this number of states without a cost.
fn no_costs(alloc: Global, count: usize) -> Result<Vec<Option<Cost>>, AllocError>
    ensures { IfOk result (λ v. v.items ≡ replicate count None) }
{
    let mut costs = Vec::with_capacity(alloc, count)?;
    for _ in 0..count {
        costs.push(None)?;
    }
    Ok(costs)
}

/// Each state's outside cost, by the inside costs: the least cost of a run from the start in which
/// one sub-run from the state is left out, none where no such run costs at most the greatest cost.
/// The states get their costs in ascending order (Dijkstra 1959).
///
/// Err only if memory is refused. Worst case: with s states, r rules and h states in their right
/// sides, O(s + r + h log h) steps, besides two passes over the labels of the right sides.
pub fn outside_costs<S: Semiring>(
    alloc: Global,
    rules: &[Rule<u32>],
    insides: &[Option<Cost>],
) -> Result<Vec<Option<Cost>>, AllocError>
    requires some { 0 < length insides.now }
    requires range { AreInRange (length insides.now) rules.now }
    requires insides { AreInsidesOfAll S.product rules.now insides.now }
    ensures length { IfOk result (λ costs. length costs.items ≡ length insides.now) }
    ensures outsides { IfOk result (λ costs. AreOutsides S.product rules.now costs.items) }
{
    let links = Links::new(alloc, rules, insides.len())?;
    let mut outsides = no_costs(alloc, insides.len())?;
    let mut rests = Vec::new(alloc);
    let mut agenda = Agenda::new(alloc);
    agenda.push(S::one(), 0)?;
    while let Some(entry) = agenda.pop() {
        settle::<S>(
            rules,
            &links,
            entry,
            insides,
            &mut outsides,
            &mut rests,
            &mut agenda,
        )?;
    }
    Ok(outsides)
}

/// The inside costs of the states. Err only if memory is refused.
pub fn inside_costs<S: Semiring>(
    alloc: Global,
    grammar: &Grammar<S>,
) -> Result<Vec<Option<Cost>>, AllocError>
    ensures length { IfOk result (λ costs. length costs.items ≡ length grammar.now.names) }
    ensures insides { IfOk result (λ costs.
        AreInsidesOfAll S.product grammar.now.rules costs.items) }
{
    grammar.is_sound();
    inside::<S>(alloc, grammar)
}
