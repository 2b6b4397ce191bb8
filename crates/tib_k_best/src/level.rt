// The best trees of rules that are trimmed first, as those of a level are.
ghost use Rattle.std.specs.Prelude.{◌<◌, ◌≤◌, ◌^◌, length, IfErr, IfOk};
ghost use Rattle.tib_cost.specs.Semiring.{most};
ghost use Rattle.tib_grammar.specs.Forms.{AreNormal};
ghost use Rattle.tib_grammar.specs.Range.{AreInRange};
ghost use Rattle.tib_grammar_file.specs.Printed.{AreLabelled};
ghost use Rattle.tib_ranked_trees.specs.Ranked.{AreRanksOf};
ghost use Rattle.tib_ranked_trees.specs.Best.{IsKBest};
ghost use Rattle.tib_ranked_trees.specs.Levels.{level, IsOrderly};
ghost use Rattle.tib_k_best.specs.Causes.{IsUsefulCause};
ghost use Rattle.tib_k_best.specs.Levels.{AreKept, IsRenamed, NamesBelow};

use crate::best::list_of_rules;
use crate::error::KBestError;
use crate::laws::trimmed_has_trees;
use crate::levels::{copied_rules, level_rules};
use crate::listed::List;
use std::alloc::{AllocError, Global};
use tib_cost::{Cost, Semiring};
use tib_grammar::Rule;
use tib_inside::{TrimmedRules, trim_rules};
use tib_tree::Labels;

// Rules, trimmed.
pub(crate) fn trimmed_rules<S: Semiring>(
    alloc: Global,
    rules: Vec<Rule<u32>>,
    states: u32,
) -> Result<TrimmedRules, AllocError>
    requires start { 0 < states }
    requires few { length rules.items < 2 ^ 32 }
    requires range { AreInRange states rules.items }
    ensures kept { IfOk result (λ t. AreKept S.product rules.items states t.states.items
        t.rules.items) }
    ensures few { IfOk result (λ t. length t.rules.items < 2 ^ 32) }
{
    rules.len();
    let trimmed = trim_rules::<S>(alloc, rules, states)?;
    Ok(trimmed)
}

// The same error, with the number that the state had before.
pub(crate) fn renamed(error: KBestError, states: &[u32]) -> KBestError
    requires { NamesBelow (length states.now) error }
    ensures { IsRenamed states.now error result }
{
    match error {
        KBestError::TreeTooLarge { state } => KBestError::TreeTooLarge {
            state: states[state as usize],
        },
        KBestError::OutOfMemory => KBestError::OutOfMemory,
    }
}

// The k best trees of rules in normal form, which are trimmed first.
pub(crate) fn best_of_useful<S: Semiring>(
    alloc: Global,
    rules: Vec<Rule<u32>>,
    states: u32,
    labels: &Labels,
    ranks: &[u32],
    k: u32,
) -> Result<List, KBestError>
    requires some { 0 < k }
    requires few { length rules.items < 2 ^ 32 }
    requires start { 0 < states }
    requires normal { AreNormal rules.items }
    requires range { AreInRange states rules.items }
    requires labelled { AreLabelled (length labels.now) rules.items }
    requires ranks { AreRanksOf labels.now ranks.now }
    requires orderly { IsOrderly S.product rules.items }
    ensures best { IfOk result (λ xs. IsKBest S.product rules.items labels.now k xs) }
    ensures cause { IfErr result (IsUsefulCause S.product labels.now rules.items k) }
{
    let Ok(trimmed) = trimmed_rules::<S>(alloc, rules, states) else {
        return Err(KBestError::OutOfMemory);
    };
    trimmed_has_trees::<S>();
    let kept = trimmed.states.len();
    match list_of_rules::<S>(alloc, &trimmed.rules, kept, labels, ranks, k) {
        Ok(Some(list)) => Ok(list),
        Ok(None) => unreachable!(),
        Err(error) => Err(renamed(error, &trimmed.states)),
    }
}

// The k best trees of rules in normal form, which are copied and trimmed first.
pub(crate) fn best_of_copy<S: Semiring>(
    alloc: Global,
    rules: &[Rule<u32>],
    states: u32,
    labels: &Labels,
    ranks: &[u32],
    k: u32,
) -> Result<List, KBestError>
    requires some { 0 < k }
    requires few { length rules.now < 2 ^ 32 }
    requires start { 0 < states }
    requires normal { AreNormal rules.now }
    requires range { AreInRange states rules.now }
    requires labelled { AreLabelled (length labels.now) rules.now }
    requires ranks { AreRanksOf labels.now ranks.now }
    requires orderly { IsOrderly S.product rules.now }
    ensures best { IfOk result (λ xs. IsKBest S.product rules.now labels.now k xs) }
    ensures cause { IfErr result (IsUsefulCause S.product labels.now rules.now k) }
{
    let Ok(copy) = copied_rules(alloc, rules) else {
        return Err(KBestError::OutOfMemory);
    };
    best_of_useful::<S>(alloc, copy, states, labels, ranks, k)
}

// The list of the k best trees of a level, each at no cost.
pub(crate) fn best_of_level<S: Semiring>(
    alloc: Global,
    rules: &[Rule<u32>],
    cost: Cost,
    states: u32,
    labels: &Labels,
    ranks: &[u32],
    k: u32,
) -> Result<List, KBestError>
    requires some { 0 < k }
    requires few { length rules.now < 2 ^ 32 }
    requires start { 0 < states }
    requires normal { AreNormal rules.now }
    requires range { AreInRange states rules.now }
    requires labelled { AreLabelled (length labels.now) rules.now }
    requires ranks { AreRanksOf labels.now ranks.now }
    ensures best { IfOk result (λ xs. IsKBest S.product (level cost rules.now) labels.now k xs) }
    ensures within { cost ≤ most }
    ensures cause { IfErr result (IsUsefulCause S.product labels.now (level cost rules.now) k) }
{
    let Ok(level) = level_rules::<S>(alloc, rules, cost) else {
        return Err(KBestError::OutOfMemory);
    };
    best_of_useful::<S>(alloc, level, states, labels, ranks, k)
}
