// The best trees of rules.
ghost use Rattle.std.specs.Prelude.{◌<◌, ◌^◌, length, IfErr, IfNone, IfOk, IfSome};
ghost use Rattle.tib_grammar.specs.Forms.{AreNormal};
ghost use Rattle.tib_grammar.specs.Range.{AreInRange};
ghost use Rattle.tib_grammar_file.specs.Printed.{AreLabelled};
ghost use Rattle.tib_ranked_trees.specs.Ranked.{AreRanksOf};
ghost use Rattle.tib_ranked_trees.specs.Best.{IsKBest};
ghost use Rattle.tib_ranked_trees.specs.Levels.{IsOrderly};
ghost use Rattle.tib_k_best.specs.Causes.{IsCause, IsUsefulCause};
ghost use Rattle.tib_k_best.specs.Trimmed.{HaveTreesBelow};

use crate::asking::{Form, lists_of_rules};
use crate::error::KBestError;
use crate::level::best_of_copy;
use crate::listed::List;
use std::alloc::Global;
use tib_cost::Semiring;
use tib_grammar::Rule;
use tib_tree::Labels;

// The list of the k best trees of rules in normal form. None only if k is above 1 and some state
// below a rule has no tree. An error may name any state.
pub(crate) fn list_of_rules<S: Semiring>(
    alloc: Global,
    rules: &[Rule<u32>],
    states: usize,
    labels: &Labels,
    ranks: &[u32],
    k: u32,
) -> Result<Option<List>, KBestError>
    requires few { length rules.now < 2 ^ 32 }
    requires start { 0 < states }
    requires normal { AreNormal rules.now }
    requires range { AreInRange states rules.now }
    requires labelled { AreLabelled (length labels.now) rules.now }
    requires ranks { AreRanksOf labels.now ranks.now }
    requires orderly { IsOrderly S.product rules.now }
    requires some { 0 < k }
    ensures best { IfOk result (λ found. IfSome found (λ xs. IsKBest S.product rules.now labels.now
        k xs)) }
    ensures none { IfOk result (λ found. IfNone found (HaveTreesBelow S.product rules.now → ⊥)) }
    ensures cause { IfErr result (IsCause S.product labels.now rules.now k) }
{
    match lists_of_rules::<S>(alloc, rules, states, labels, ranks, k, Form::Any) {
        Ok(Some(lists)) => Ok(Some(List::of_state(lists, 0))),
        Ok(None) => Ok(None),
        Err(error) => Err(error),
    }
}

/// The list of the k best trees of rules in normal form, over this number of states, where the
/// product is strict or each rule costs 0. `ranks` has the place of each label's text in order.
/// `TreeTooLarge` names a useful state that has among its k best trees one of more than 10,000
/// nodes; `OutOfMemory` comes if memory is refused or 32-bit numbers run out. Worst case: O(r log
/// r) comparisons of trees for r rules, and that of `ask_best`; twice that, and one of
/// `trim_rules`, if some state has a large tree, or if k is above 1 and some state below a rule has
/// no tree.
pub fn best_of_rules<S: Semiring>(
    alloc: Global,
    rules: &[Rule<u32>],
    states: usize,
    labels: &Labels,
    ranks: &[u32],
    k: u32,
) -> Result<List, KBestError>
    requires few { length rules.now < 2 ^ 32 }
    requires start { 0 < states }
    requires normal { AreNormal rules.now }
    requires range { AreInRange states rules.now }
    requires labelled { AreLabelled (length labels.now) rules.now }
    requires ranks { AreRanksOf labels.now ranks.now }
    requires orderly { IsOrderly S.product rules.now }
    requires some { 0 < k }
    ensures best { IfOk result (λ xs. IsKBest S.product rules.now labels.now k xs) }
    ensures cause { IfErr result (IsUsefulCause S.product labels.now rules.now k) }
{
    match list_of_rules::<S>(alloc, rules, states, labels, ranks, k) {
        Ok(Some(list)) => return Ok(list),
        Err(KBestError::OutOfMemory) => return Err(KBestError::OutOfMemory),
        Ok(None) => {}
        Err(KBestError::TreeTooLarge { .. }) => {}
    }
    if states > u32::MAX as usize {
        return Err(KBestError::OutOfMemory);
    }
    best_of_copy::<S>(alloc, rules, states as u32, labels, ranks, k)
}
