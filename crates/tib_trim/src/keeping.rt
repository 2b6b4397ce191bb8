// The rules that are in complete runs, and their through costs.
ghost use Rattle.std.specs.Prelude.{◌≡◌, ℕ, ◌<◌, ◌≤◌, length, IfOk};
ghost use Rattle.tib_grammar.specs.Range.{AreInRange};
ghost use Rattle.tib_grammar.specs.Series.{HaveSameSeries};
ghost use Rattle.tib_prune.specs.Loop.{AreInsidesOfAll};
ghost use Rattle.tib_trim.specs.Complete.{AreAllInCompleteRuns};
ghost use Rattle.tib_trim.specs.Keeping.{AreFiltered, AreKept, AreClosed};

use crate::products::through;
use crate::settling::outside_costs;
use std::alloc::{AllocError, Global};
use tib_cost::{Cost, Semiring};
use tib_grammar::Rule;

/// Some rules, and for each its through cost in the grammar from which they are.
#[derive(Drop)]
pub struct Kept {
    pub rules: Vec<Rule<u32>>,
    pub costs: Vec<Cost>,
}

/// The rules that have through costs, in order, and these costs, by the inside and outside costs.
fn filter_rules<S: Semiring>(
    alloc: Global,
    rules: Vec<Rule<u32>>,
    insides: &[Option<Cost>],
    outsides: &[Option<Cost>],
) -> Result<Kept, AllocError>
    requires insides { AreInRange (length insides.now) rules.items }
    requires outsides { AreInRange (length outsides.now) rules.items }
    ensures { IfOk result (λ kept. AreFiltered S.product insides.now outsides.now rules.items
        kept.rules.items kept.costs.items) }
{
    let mut kept = Vec::new(alloc);
    let mut costs = Vec::new(alloc);
    for rule in rules {
        if let Some(cost) = through::<S>(&rule, insides, outsides) {
            kept.push(rule)?;
            costs.push(cost)?;
        }
    }
    Ok(Kept { rules: kept, costs })
}

/// The rules that are in complete runs, in order, and their through costs, by the inside costs. The
/// rules are moved. Err only if memory is refused, and then they are gone. Worst case: that of
/// `outside_costs`, and one pass over the right sides.
pub fn kept_rules<S: Semiring>(
    alloc: Global,
    rules: Vec<Rule<u32>>,
    insides: &[Option<Cost>],
) -> Result<Kept, AllocError>
    requires some { 0 < length insides.now }
    requires range { AreInRange (length insides.now) rules.items }
    requires insides { AreInsidesOfAll S.product rules.items insides.now }
    ensures kept { IfOk result (λ kept. AreKept S.product rules.items kept.rules.items
        kept.costs.items) }
    ensures series { IfOk result (λ kept. HaveSameSeries S.product rules.items kept.rules.items) }
    ensures runs { IfOk result (λ kept. AreAllInCompleteRuns S.product kept.rules.items) }
    ensures closed { IfOk result (λ kept. AreClosed kept.rules.items) }
    ensures few { IfOk result (λ kept. length kept.rules.items ≤ length rules.items) }
    ensures range { IfOk result (λ kept. AreInRange (length insides.now) kept.rules.items) }
{
    let outsides = outside_costs::<S>(alloc, &rules, insides)?;
    filter_rules::<S>(alloc, rules, insides, &outsides)
}
