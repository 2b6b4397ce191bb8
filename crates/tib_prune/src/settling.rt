// Outside costs, state by state.
ghost use Rattle.std.specs.Prelude.{◌≡◌, ℕ, ◌+◌, ◌<◌, ◌≤◌, [], length, OnOk, IfOk, None, replicate};
ghost use Rattle.tib_grammar.specs.Forms.{AreNormal};
ghost use Rattle.tib_grammar.specs.Range.{AreInRange};
ghost use Rattle.tib_inside.specs.Settling.{costs_in, left_over};
ghost use Rattle.tib_prune.specs.Settling.{AreSettling};
ghost use Rattle.tib_prune.specs.Loop.{AreInsidesOfAll, AreOutsides, IsTaken};
ghost use Rattle.tib_prune.specs.Telling.{places_of};

use crate::telling::tell;
use std::alloc::{AllocError, Global};
use tib_cost::{Cost, Semiring};
use tib_inside::inside;
use tib_normal::{Agenda, Normal};

/// Settles a state: gives it its cost, where it has none yet, and has its rules tell theirs.
fn settle<S: Semiring>(
    normal: &Normal<S>,
    entry: (Cost, u32),
    insides: &[Option<Cost>],
    outsides: &mut Vec<Option<Cost>>,
    rests: &mut Vec<Option<Cost>>,
    agenda: &mut Agenda,
) -> Result<(), AllocError>
    requires normal { AreNormal normal.now.rules }
    requires range { AreInRange (length normal.now.names) normal.now.rules }
    requires states { length insides.now ≡ length normal.now.names }
    requires as_many { length outsides.old.items ≡ length normal.now.names }
    requires insides { AreInsidesOfAll S.product normal.now.rules insides.now }
    requires state { entry.1 < length normal.now.names }
    requires taken { IsTaken S.product normal.now.rules insides.now outsides.old.items entry
        agenda.old }
    ensures long { length outsides.new.items ≡ length outsides.old.items }
    ensures settling { OnOk result (AreSettling S.product normal.now.rules (costs_in insides.now)
        (costs_in outsides.new.items) agenda.new) }
    ensures less { OnOk result (left_over (places_of normal.now.rules) outsides.new.items
        agenda.new ≤ left_over (places_of normal.now.rules) outsides.old.items agenda.old) }
{
    let (cost, state) = entry;
    if outsides[state as usize].is_some() {
        return Ok(());
    }
    outsides[state as usize] = Some(cost);
    tell::<S>(
        normal.rules_of(state),
        cost,
        insides,
        outsides,
        rests,
        agenda,
    )?;
    Ok(())
}

/// A list of this number of states without a cost.
fn no_costs(alloc: Global, count: usize) -> Result<Vec<Option<Cost>>, AllocError>
    ensures { IfOk result (λ v. v.items ≡ replicate count None) }
{
    let mut costs = Vec::with_capacity(alloc, count)?;
    for _ in 0..count {
        costs.push(None)?;
    }
    Ok(costs)
}

/// The outside costs of the states, by their inside costs. Err only if memory is refused.
pub fn outside_costs<S: Semiring>(
    alloc: Global,
    normal: &Normal<S>,
    insides: &[Option<Cost>],
) -> Result<Vec<Option<Cost>>, AllocError>
    requires states { length insides.now ≡ length normal.now.names }
    requires insides { AreInsidesOfAll S.product normal.now.rules insides.now }
    ensures length { IfOk result (λ costs. length costs.items ≡ length normal.now.names) }
    ensures outsides { IfOk result (λ costs. AreOutsides S.product normal.now.rules costs.items) }
{
    normal.grammar().is_sound();
    let mut outsides = no_costs(alloc, insides.len())?;
    let mut rests = Vec::new(alloc);
    let mut agenda = Agenda::new(alloc);
    agenda.push(S::one(), 0)?;
    while let Some(entry) = agenda.pop() {
        settle::<S>(
            normal,
            entry,
            insides,
            &mut outsides,
            &mut rests,
            &mut agenda,
        )?;
    }
    Ok(outsides)
}

/// The inside costs of the states. Err only if memory is refused.
pub fn inside_costs<S: Semiring>(
    alloc: Global,
    normal: &Normal<S>,
) -> Result<Vec<Option<Cost>>, AllocError>
    ensures length { IfOk result (λ costs. length costs.items ≡ length normal.now.names) }
    ensures insides { IfOk result (λ costs.
        AreInsidesOfAll S.product normal.now.rules costs.items) }
{
    normal.grammar().is_sound();
    inside::<S>(alloc, normal.grammar())
}

/// Each state's outside cost: the least cost of a run from the start in which one sub-run from the
/// state is left out, none where no such run costs at most the greatest cost. The states get their
/// costs in ascending order (Dijkstra 1959), once their inside costs are known; each rule is looked
/// at once, and once more for each state in its right side.
///
/// Err only if memory is refused. Worst case: that of `inside`, and with s states and h states in
/// right sides O(s + h log h) steps.
pub fn outside<S: Semiring>(
    alloc: Global,
    normal: &Normal<S>,
) -> Result<Vec<Option<Cost>>, AllocError>
    ensures length { IfOk result (λ costs. length costs.items ≡ length normal.now.names) }
    ensures outsides { IfOk result (λ costs. AreOutsides S.product normal.now.rules costs.items) }
{
    let insides = inside_costs::<S>(alloc, normal)?;
    outside_costs::<S>(alloc, normal, &insides)
}
