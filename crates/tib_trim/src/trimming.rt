// The grammar of the rules that are in complete runs, and the same with through costs.
ghost use Rattle.std.specs.Prelude.{◌≡◌, ℕ, ◌<◌, ◌^◌, length, IfOk};
ghost use Rattle.tib_grammar.specs.Series.{HasSameSeries};
ghost use Rattle.tib_trim.specs.Complete.{AreAllInCompleteRuns};
ghost use Rattle.tib_trim.specs.Keeping.{IsTrimmedWith};
ghost use Rattle.tib_trim.specs.TrimmedFile.{IsTrimmedFile, HaveCosts, HasThroughCosts};

use crate::keeping::{Kept, kept_rules};
use crate::seen::{grammar_from, grammar_of};
use crate::settling::inside_costs;
use std::alloc::{AllocError, Global};
use tib_cost::{Cost, Semiring};
use tib_grammar::{Grammar, Rule};

/// The grammar of the rules that are in complete runs, and their through costs.
fn trim_with_costs<S: Semiring>(
    alloc: Global,
    grammar: Grammar<S>,
) -> Result<(Grammar<S>, Vec<Cost>), AllocError>
    ensures trimmed { IfOk result (λ t. IsTrimmedWith S.product grammar t.0 t.1.items) }
    ensures series { IfOk result (λ t. HasSameSeries S.product grammar t.0) }
    ensures runs { IfOk result (λ t. AreAllInCompleteRuns S.product t.0.rules) }
{
    grammar.is_sound();
    let insides = inside_costs::<S>(alloc, &grammar)?;
    let (names, rules) = grammar.into_parts();
    let Kept { rules, costs } = kept_rules::<S>(alloc, rules, &insides)?;
    let trimmed = grammar_of::<S>(alloc, names, rules)?;
    Ok((trimmed, costs))
}

/// The grammar of the rules that are in complete runs, which are runs from the start whose cost is
/// at most the greatest cost. The rules are in their order, equal ones all kept, each with its
/// sides and its cost. The states are the start, which is first, and the left states of these
/// rules, in the order in which they first are there, under their names. No normal form is made.
///
/// Each tree has the cost that it had, and each rule that is kept is in a complete run of the rules
/// that are kept. Err only if memory is refused, and then the grammar is gone. Worst case: with s
/// states, r rules, h states in their right sides and l labels there, O(s + l + (r + h) log (r +
/// h)) steps, besides a look-up by hash for each name that stays.
pub fn trimmed<S: Semiring>(alloc: Global, grammar: Grammar<S>) -> Result<Grammar<S>, AllocError>
    ensures trimmed { IfOk result (λ g. IsTrimmedFile S.product grammar g) }
    ensures series { IfOk result (λ g. HasSameSeries S.product grammar g) }
    ensures runs { IfOk result (λ g. AreAllInCompleteRuns S.product g.rules) }
{
    let (trimmed, _) = trim_with_costs::<S>(alloc, grammar)?;
    Ok(trimmed)
}

/// Gives each rule the cost at its place in a list.
fn set_costs(rules: &mut [Rule<u32>], costs: &[Cost])
    requires { length costs.now ≡ length rules.old }
    ensures { HaveCosts rules.old costs.now rules.new }
{
    let mut n = 0;
    for rule in rules.iter_mut() {
        rule.cost = costs[n];
        n += 1;
    }
}

/// Some rules at the costs of a list.
fn with_costs(mut rules: Vec<Rule<u32>>, costs: &[Cost]) -> Vec<Rule<u32>>
    requires { length costs.now ≡ length rules.items }
    ensures { HaveCosts rules.items costs.now result.items }
{
    set_costs(&mut rules, costs);
    rules
}

/// The same grammar as `trimmed` returns, with the through cost of each rule in place of its cost:
/// the least cost of a complete run of the given grammar in which the rule is (its max-marginal).
/// As a grammar the result has no meaning; it is a table of rules. Err only if memory is refused,
/// and then the grammar is gone. Worst case: that of `trimmed`.
pub fn through_costs<S: Semiring>(
    alloc: Global,
    grammar: Grammar<S>,
) -> Result<Grammar<S>, AllocError>
    ensures { IfOk result (λ g. HasThroughCosts S.product grammar g) }
{
    let (trimmed, costs) = trim_with_costs::<S>(alloc, grammar)?;
    trimmed.is_sound();
    let (names, rules) = trimmed.into_parts();
    Ok(grammar_from(names, with_costs(rules, &costs)))
}
