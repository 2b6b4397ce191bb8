// The rules of a grammar that occur in runs within a beam of the cheapest one.
ghost use Rattle.std.specs.Prelude.{◌≡◌, ℕ, ◌+◌, ◌<◌, ◌≤◌, ◌^◌, length, filter, IfOk};
ghost use Rattle.tib_grammar.specs.Forms.{AreNormal, IsNormalSide};
ghost use Rattle.tib_grammar.specs.Range.{AllBelow, AreInRange};
ghost use Rattle.tib_grammar.specs.Sides.{holes_of};
ghost use Rattle.tib_inside.specs.Settling.{costs_in};
ghost use Rattle.tib_prune.specs.Counted.{KeepsCount, IsLeastBeam, AreThroughCosts, IsBeamFor};
ghost use Rattle.tib_prune.specs.Loop.{AreInsidesOfAll, AreOutsides};
ghost use Rattle.tib_prune.specs.Outside.{through};
ghost use Rattle.tib_prune.specs.Pruned.{is_at_most, ArePruned, IsPruned, KeepsCheapTrees, HadNoGreaterCosts, StandInCheapRuns};

use crate::products::{rule_total, times};
use crate::settling::{inside_costs, outside_costs};
use std::alloc::{AllocError, Global};
use tib_cost::{Cost, Semiring};
use tib_grammar::{Grammar, Rule};
use tib_normal::Normal;

/// What the cheapest run costs in which a rule occurs, none where that is above the greatest cost.
fn through<S: Semiring>(
    rule: &Rule<u32>,
    insides: &[Option<Cost>],
    outsides: &[Option<Cost>],
) -> Option<Cost>
    requires normal { IsNormalSide rule.now.right }
    requires left { rule.now.left < length outsides.now }
    requires states { AllBelow (length insides.now) (holes_of rule.now.right) }
    ensures { result ≡ through S.product (costs_in insides.now) (costs_in outsides.now) rule.now }
{
    let inner = rule_total::<S>(rule, insides);
    times::<S>(&outsides[rule.left as usize], &inner)
}

/// Whether a rule occurs in a run whose cost is not above the bound.
fn is_kept<S: Semiring>(
    rule: &Rule<u32>,
    insides: &[Option<Cost>],
    outsides: &[Option<Cost>],
    bound: u64,
) -> bool
    requires normal { IsNormalSide rule.now.right }
    requires left { rule.now.left < length outsides.now }
    requires states { AllBelow (length insides.now) (holes_of rule.now.right) }
    ensures { result ≡ is_at_most (through S.product (costs_in insides.now) (costs_in outsides.now)
        rule.now) bound }
{
    match through::<S>(rule, insides, outsides) {
        Some(cost) => cost.get() <= bound,
        None => false,
    }
}

/// The rules that occur in runs whose costs are not above the bound, in order. They are moved.
fn keep_rules<S: Semiring>(
    alloc: Global,
    rules: Vec<Rule<u32>>,
    insides: &[Option<Cost>],
    outsides: &[Option<Cost>],
    bound: u64,
) -> Result<Vec<Rule<u32>>, AllocError>
    requires normal { AreNormal rules.items }
    requires insides { AreInRange (length insides.now) rules.items }
    requires outsides { AreInRange (length outsides.now) rules.items }
    ensures { IfOk result (λ kept. kept.items ≡ filter (λ r. is_at_most (through S.product
        (costs_in insides.now) (costs_in outsides.now) r) bound) rules.items) }
{
    let mut kept = Vec::new(alloc);
    for rule in rules {
        if is_kept::<S>(&rule, insides, outsides, bound) {
            kept.push(rule)?;
        }
    }
    Ok(kept)
}

/// The rules that occur in runs within the beam of the cheapest one, in order, by the inside and
/// outside costs. They are moved.
fn prune_rules<S: Semiring>(
    alloc: Global,
    rules: Vec<Rule<u32>>,
    insides: &[Option<Cost>],
    outsides: &[Option<Cost>],
    beam: Cost,
) -> Result<Vec<Rule<u32>>, AllocError>
    requires some { 0 < length insides.now }
    requires normal { AreNormal rules.items }
    requires range { AreInRange (length insides.now) rules.items }
    requires as_many { length outsides.now ≡ length insides.now }
    requires insides { AreInsidesOfAll S.product rules.items insides.now }
    requires outsides { AreOutsides S.product rules.items outsides.now }
    ensures pruned { IfOk result (λ kept. ArePruned S.product rules.items beam kept.items) }
    ensures few { IfOk result (λ kept. length kept.items ≤ length rules.items) }
    ensures cheap { IfOk result (λ kept.
        KeepsCheapTrees S.product rules.items beam kept.items) }
    ensures runs { IfOk result (λ kept. StandInCheapRuns S.product rules.items beam kept.items) }
{
    let Some(best) = insides[0] else {
        return Ok(Vec::new(alloc));
    };
    keep_rules::<S>(alloc, rules, insides, outsides, best.get() + beam.get())
}

/// The grammar of the rules that occur in runs within the beam of the cheapest one, by the inside
/// and outside costs.
fn prune_by_costs<S: Semiring>(
    alloc: Global,
    normal: Normal<S>,
    insides: &[Option<Cost>],
    outsides: &[Option<Cost>],
    beam: Cost,
) -> Result<Grammar<S>, AllocError>
    requires states { length insides.now ≡ length normal.names }
    requires as_many { length outsides.now ≡ length insides.now }
    requires insides { AreInsidesOfAll S.product normal.rules insides.now }
    requires outsides { AreOutsides S.product normal.rules outsides.now }
    ensures pruned { IfOk result (λ g. IsPruned S.product beam normal g) }
    ensures cheap { IfOk result (λ g. KeepsCheapTrees S.product normal.rules beam g.rules) }
    ensures costs { IfOk result (λ g. HadNoGreaterCosts S.product normal.rules g.rules) }
    ensures runs { IfOk result (λ g. StandInCheapRuns S.product normal.rules beam g.rules) }
{
    normal.grammar().is_sound();
    let (names, rules) = normal.into_grammar().into_parts();
    let kept = prune_rules::<S>(alloc, rules, insides, outsides, beam)?;
    match Grammar::new(names, kept) {
        Some(grammar) => Ok(grammar),
        None => unreachable!(),
    }
}

/// The same as `prune`, but the inside costs of the states are given, and the grammar is returned
/// without its index. Err only if memory is refused, and then the grammar is gone. Worst case: that
/// of `outside` without that of `inside`, and one pass over the rules.
pub fn prune_by_insides<S: Semiring>(
    alloc: Global,
    normal: Normal<S>,
    insides: &[Option<Cost>],
    beam: Cost,
) -> Result<Grammar<S>, AllocError>
    requires states { length insides.now ≡ length normal.names }
    requires insides { AreInsidesOfAll S.product normal.rules insides.now }
    ensures pruned { IfOk result (λ g. IsPruned S.product beam normal g) }
    ensures cheap { IfOk result (λ g. KeepsCheapTrees S.product normal.rules beam g.rules) }
    ensures costs { IfOk result (λ g. HadNoGreaterCosts S.product normal.rules g.rules) }
    ensures runs { IfOk result (λ g. StandInCheapRuns S.product normal.rules beam g.rules) }
{
    let outsides = outside_costs::<S>(alloc, &normal, insides)?;
    prune_by_costs::<S>(alloc, normal, insides, &outsides, beam)
}

/// What the cheapest runs cost in which the rules occur, ascending.
fn through_costs<S: Semiring>(
    alloc: Global,
    rules: &[Rule<u32>],
    insides: &[Option<Cost>],
    outsides: &[Option<Cost>],
) -> Result<Vec<Cost>, AllocError>
    requires normal { AreNormal rules.now }
    requires insides { AreInRange (length insides.now) rules.now }
    requires outsides { AreInRange (length outsides.now) rules.now }
    ensures { IfOk result (λ costs. AreThroughCosts (through S.product (costs_in insides.now)
        (costs_in outsides.now)) rules.now costs.items) }
{
    let mut costs = Vec::new(alloc);
    for rule in rules {
        if let Some(cost) = through::<S>(rule, insides, outsides) {
            costs.push(cost)?;
        }
    }
    costs.sort()?;
    Ok(costs)
}

/// The least beam within which this many rules stay, or all that occur in runs.
fn beam_for<S: Semiring>(
    alloc: Global,
    rules: &[Rule<u32>],
    insides: &[Option<Cost>],
    outsides: &[Option<Cost>],
    count: usize,
) -> Result<Cost, AllocError>
    requires some { 0 < length insides.now }
    requires normal { AreNormal rules.now }
    requires insides { AreInRange (length insides.now) rules.now }
    requires outsides { AreInRange (length outsides.now) rules.now }
    ensures { IfOk result (λ beam. IsBeamFor (through S.product (costs_in insides.now)
        (costs_in outsides.now)) rules.now count (costs_in insides.now 0) beam) }
{
    let Some(best) = insides[0] else {
        return Ok(S::one());
    };
    let costs = through_costs::<S>(alloc, rules, insides, outsides)?;
    let last = costs.len().min(count);
    if last == 0 {
        return Ok(S::one());
    }
    match Cost::new(costs[last - 1].get().saturating_sub(best.get())) {
        Some(beam) => Ok(beam),
        None => Ok(S::one()),
    }
}

/// The same as `prune_by_insides` with the least beam that keeps at least `count` rules, or, where
/// none keeps so many, that keeps all rules that any beam keeps: those that occur in some run whose
/// cost is at most the greatest cost. It returns this beam too. More rules than `count` may stay,
/// where several have one through cost. Err only if memory is refused, and then the grammar is
/// gone. Worst case: that of `prune_by_insides`, and O(r log r) steps for r rules.
pub fn prune_to_count<S: Semiring>(
    alloc: Global,
    normal: Normal<S>,
    insides: &[Option<Cost>],
    count: usize,
) -> Result<(Grammar<S>, Cost), AllocError>
    requires states { length insides.now ≡ length normal.names }
    requires insides { AreInsidesOfAll S.product normal.rules insides.now }
    ensures pruned { IfOk result (λ p. IsPruned S.product p.1 normal p.0) }
    ensures cheap { IfOk result (λ p. KeepsCheapTrees S.product normal.rules p.1 p.0.rules) }
    ensures costs { IfOk result (λ p. HadNoGreaterCosts S.product normal.rules p.0.rules) }
    ensures runs { IfOk result (λ p. StandInCheapRuns S.product normal.rules p.1 p.0.rules) }
    ensures many { IfOk result (λ p. KeepsCount S.product normal.rules count p.0.rules) }
    ensures least { IfOk result (λ p. IsLeastBeam S.product normal.rules count p.1 p.0.rules) }
{
    normal.grammar().is_sound();
    let outsides = outside_costs::<S>(alloc, &normal, insides)?;
    let rules = normal.grammar().rule_list();
    let beam = beam_for::<S>(alloc, rules, insides, &outsides, count)?;
    let kept = prune_by_costs::<S>(alloc, normal, insides, &outsides, beam)?;
    Ok((kept, beam))
}

/// The part of a grammar that stays within a beam of its cheapest tree: all states, and in order
/// the rules whose through cost is not above the bound. The bound is the plain sum of the inside
/// cost of the start and the beam, in every semiring; where the start has no inside cost no rule is
/// kept. The rules are moved.
///
/// Each tree whose cost is not above the bound keeps it, each tree that has a cost afterwards had
/// one that is not greater, and each kept rule occurs in a run of kept rules from the start whose
/// cost is not above the bound. Err only if memory is refused, and then the grammar is gone. Worst
/// case: that of `outside` and of `Normal::new`, and one pass over the rules.
pub fn prune<S: Semiring + Drop>(
    alloc: Global,
    normal: Normal<S>,
    beam: Cost,
) -> Result<Normal<S>, AllocError>
    ensures pruned { IfOk result (λ n. IsPruned S.product beam normal n) }
    ensures cheap { IfOk result (λ n. KeepsCheapTrees S.product normal.rules beam n.rules) }
    ensures costs { IfOk result (λ n. HadNoGreaterCosts S.product normal.rules n.rules) }
    ensures runs { IfOk result (λ n. StandInCheapRuns S.product normal.rules beam n.rules) }
{
    normal.grammar();
    let insides = inside_costs::<S>(alloc, &normal)?;
    let grammar = prune_by_insides::<S>(alloc, normal, &insides, beam)?;
    match Normal::new(alloc, grammar)? {
        Some(normal) => Ok(normal),
        None => unreachable!(),
    }
}
