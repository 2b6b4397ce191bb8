// Rules that wait for the costs of the states in their right sides.
ghost use Rattle.std.specs.Prelude.{◌≡◌, ℕ, ◌+◌, ◌<◌, ◌≤◌, List, [], length, OnOk, IfOk, None, Some};
ghost use Rattle.std.proofs.Common.{get_or};
ghost use Rattle.tib_cost.specs.Least.{times};
ghost use Rattle.tib_grammar.specs.Run.{rule_at};
ghost use Rattle.tib_grammar.specs.Range.{AllBelow, AreInRange};
ghost use Rattle.tib_inside.specs.Holes.{AreHolesOf};
ghost use Rattle.tib_inside.specs.Settling.{costs_in, no_pending, Offers, Touches, IsSettling};

use crate::holes::Holes;
use std::alloc::{AllocError, Global};
use tib_cost::{Cost, Semiring};
use tib_grammar::Rule;
use tib_normal::Agenda;

/// What is needed of a rule while its states get their costs: its left state, how many holes of its
/// right side are missing, which means that their states have no cost, and the product of its cost
/// and those of the other holes.
#[derive(Clone, Copy, Debug)]
pub struct Pending {
    pub product: Option<Cost>,
    pub missing: usize,
    pub left: u32,
}

/// If no hole is missing and the left state is unsettled, queues the rule's cost for it.
fn offer(rule: &Pending, costs: &[Option<Cost>], agenda: &mut Agenda) -> Result<(), AllocError>
    requires left { rule.now.left < length costs.now }
    ensures { OnOk result (Offers (costs_in costs.now) rule.now agenda.old agenda.new) }
{
    if rule.missing > 0 {
        return Ok(());
    }
    if costs[rule.left as usize].is_some() {
        return Ok(());
    }
    let Some(cost) = rule.product else {
        return Ok(());
    };
    agenda.push(cost, rule.left)?;
    Ok(())
}

/// Fills one hole of a rule, whose state has just got this cost.
fn fill<S: Semiring>(rule: &Pending, cost: Cost) -> Pending
    requires missing { 0 < rule.now.missing }
    ensures left { result.left ≡ rule.now.left }
    ensures missing { result.missing + 1 ≡ rule.now.missing }
    ensures product { result.product ≡ times S.product rule.now.product (Some cost) }
{
    let product = match rule.product {
        Some(so_far) => S::times(so_far, cost),
        None => None,
    };
    Pending {
        product,
        missing: rule.missing - 1,
        left: rule.left,
    }
}

/// Fills one hole of rule n, whose state has just got this cost, and queues the rule where it was
/// the last.
fn touch<S: Semiring>(
    n: usize,
    cost: Cost,
    costs: &[Option<Cost>],
    pending: &mut Vec<Pending>,
    agenda: &mut Agenda,
) -> Result<(), AllocError>
    requires rule { n < length pending.old.items }
    requires missing { 0 < (get_or pending.old.items n no_pending).missing }
    requires left { (get_or pending.old.items n no_pending).left < length costs.now }
    ensures { OnOk result (Touches S.product (costs_in costs.now) cost n pending.old.items
        pending.new.items agenda.old agenda.new) }
{
    pending[n] = fill::<S>(&pending[n], cost);
    offer(&pending[n], costs, agenda)
}

/// Fills a hole of each of some rules, whose state has just got this cost, and queues those that
/// miss no other. Err only if memory is refused, and then some of the holes may be filled.
pub fn spread<S: Semiring>(
    rules: &[Rule<u32>],
    uses: &[u32],
    cost: Cost,
    costs: &[Option<Cost>],
    pending: &mut Vec<Pending>,
    agenda: &mut Agenda,
) -> Result<(), AllocError>
    requires range { AreInRange (length costs.now) rules.now }
    requires below { AllBelow (length rules.now) uses.now }
    requires settling { IsSettling S.product rules.now (costs_in costs.now) cost uses.now
        pending.old.items agenda.old }
    ensures settling { OnOk result (IsSettling S.product rules.now (costs_in costs.now) 0 []
        pending.new.items agenda.new) }
    ensures more { OnOk result (length agenda.new ≤ length agenda.old + length uses.now) }
{
    for n in uses {
        touch::<S>(*n as usize, cost, costs, pending, agenda)?;
    }
    Ok(())
}

/// Begins while no state has a cost: queues the costs of the rules without states on their right.
/// Err only if memory is refused, and then some of these costs may be queued.
pub fn begin<S: Semiring>(
    alloc: Global,
    rules: &[Rule<u32>],
    holes: &Holes,
    costs: &[Option<Cost>],
    agenda: &mut Agenda,
) -> Result<Vec<Pending>, AllocError>
    requires holes { AreHolesOf rules.now holes.now }
    requires range { AreInRange (length costs.now) rules.now }
    requires none { (q : ℕ) → costs_in costs.now q ≡ None }
    requires empty { agenda.old ≡ [] }
    ensures { IfOk result (λ pending. IsSettling S.product rules.now (costs_in costs.now) 0 []
        pending.items agenda.new) }
{
    let mut pending = Vec::with_capacity(alloc, rules.len())?;
    for (n, rule) in rules.iter().enumerate() {
        let waiting = Pending {
            product: S::times(rule.cost, S::one()),
            missing: holes.counts[n],
            left: rule.left,
        };
        offer(&waiting, costs, agenda)?;
        pending.push(waiting)?;
    }
    Ok(pending)
}
