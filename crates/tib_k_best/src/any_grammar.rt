// The k best trees in every semiring.
ghost use Rattle.std.specs.Prelude.{◌≡◌, ℕ, ◌<◌, List as ListFor, [], false, length, IfErr, IfOk, IfSome};
ghost use Rattle.tib_grammar.specs.Run.{rule_at};
ghost use Rattle.tib_grammar_file.specs.Printed.{AreLabelled};
ghost use Rattle.tib_ranked_trees.specs.Best.{Costed, IsKBest};
ghost use Rattle.tib_ranked_trees.specs.Levels.{IsOrderly};
ghost use Rattle.tib_k_best.specs.Causes.{IsCause, IsLevelCause, IsUsefulCause};
ghost use Rattle.tib_ranked_trees.specs.Ranked.{AreRanksOf};
ghost use Rattle.tib_k_best.specs.RankedOf.{ranked_of, AreRanked};

use crate::best::list_of_rules;
use crate::error::KBestError;
use crate::form::is_deterministic_below;
use crate::lazy_list::lazy_of_rules;
use crate::level::best_of_copy;
use crate::level_best::k_best_by_levels;
use crate::listed::List;
use crate::ranked::Ranked;
use crate::search::Split;
use crate::weights::{costs_of, numbered};
use std::alloc::{AllocError, Global};
use tib_cost::{Cost, Semiring};
use tib_normal::Normal;
use tib_ranked_trees::label_ranks;
use tib_tree::Labels;

// Whether the product is the greater factor.
fn is_levelled<S: Semiring>() -> bool
    ensures { result ≡ S.LEVELLED }
{
    S::LEVELLED
}

// The cost of each tree of a list with its place, in order.
fn in_order(alloc: Global, list: &List) -> Result<Vec<(Cost, u32)>, AllocError>
    ensures ranked { IfOk result (λ v. (at : ListFor Costed) → AreRanked list.now at v.items []) }
    ensures same { IfOk result (λ v. (at : ListFor Costed) (c : ℕ) →
        ranked_of list.now at c v.items [] ≡ list.now) }
{
    list.len();
    let costs = costs_of(alloc, list)?;
    let first = numbered(alloc, &costs)?;
    Ok(first)
}

// All trees below a cost, and none at it.
fn all_below<S: Semiring>(alloc: Global, list: List) -> Split
    ensures { result.below ≡ list }
{
    Split {
        below: list,
        at: List::new(alloc),
        cost: S::one(),
    }
}

// The trees of a list, in order.
fn flat<S: Semiring>(alloc: Global, list: List) -> Result<Ranked, AllocError>
    ensures { IfOk result (λ xs. xs ≡ list) }
{
    let first = in_order(alloc, &list)?;
    let split = all_below::<S>(alloc, list);
    Ok(Ranked::new(split, first, Vec::new(alloc)))
}

// The k best trees of a grammar, with few entries if it is deterministic below the root. None only
// if some state below a rule has no tree. The product is not the greater factor, or each rule costs
// 0.
fn best_flat<S: Semiring>(
    alloc: Global,
    normal: &Normal<S>,
    labels: &Labels,
    ranks: &[u32],
    k: u32,
) -> Result<Option<List>, KBestError>
    requires orderly { IsOrderly S.product normal.now.rules }
    requires labelled { AreLabelled (length labels.now) normal.now.rules }
    requires ranks { AreRanksOf labels.now ranks.now }
    requires some { 0 < k }
    ensures best { IfOk result (λ found. IfSome found (λ xs. IsKBest S.product normal.now.rules
        labels.now k xs)) }
    ensures cause { IfErr result (IsCause S.product labels.now normal.now.rules k) }
{
    let grammar = normal.grammar();
    grammar.is_sound();
    let states = grammar.states();
    let rules = grammar.rule_list();
    if !is_deterministic_below(alloc, grammar) {
        return list_of_rules::<S>(alloc, rules, states as usize, labels, ranks, k);
    }
    match lazy_of_rules::<S>(alloc, rules, states, labels, ranks, k) {
        Ok(Some(lists)) => Ok(Some(lists.into_list())),
        Ok(None) => Ok(None),
        Err(error) => Err(error),
    }
}

// The k best trees of a grammar, which is copied and trimmed. The product is not the greater
// factor, or each rule costs 0.
fn best_trimmed<S: Semiring>(
    alloc: Global,
    normal: &Normal<S>,
    labels: &Labels,
    ranks: &[u32],
    k: u32,
) -> Result<List, KBestError>
    requires orderly { IsOrderly S.product normal.now.rules }
    requires labelled { AreLabelled (length labels.now) normal.now.rules }
    requires ranks { AreRanksOf labels.now ranks.now }
    requires some { 0 < k }
    ensures best { IfOk result (λ xs. IsKBest S.product normal.now.rules labels.now k xs) }
    ensures cause { IfErr result (IsUsefulCause S.product labels.now normal.now.rules k) }
{
    let grammar = normal.grammar();
    grammar.is_sound();
    best_of_copy::<S>(
        alloc,
        grammar.rule_list(),
        grammar.states(),
        labels,
        ranks,
        k,
    )
}

// The same by `best_flat`. If some state below a rule has no tree, or some state has a large tree,
// the grammar is copied and trimmed.
fn best_useful<S: Semiring>(
    alloc: Global,
    normal: &Normal<S>,
    labels: &Labels,
    ranks: &[u32],
    k: u32,
) -> Result<List, KBestError>
    requires orderly { IsOrderly S.product normal.now.rules }
    requires labelled { AreLabelled (length labels.now) normal.now.rules }
    requires ranks { AreRanksOf labels.now ranks.now }
    requires some { 0 < k }
    ensures best { IfOk result (λ xs. IsKBest S.product normal.now.rules labels.now k xs) }
    ensures cause { IfErr result (IsUsefulCause S.product labels.now normal.now.rules k) }
{
    match best_flat::<S>(alloc, normal, labels, ranks, k) {
        Ok(Some(list)) => Ok(list),
        Ok(None) => best_trimmed::<S>(alloc, normal, labels, ranks, k),
        Err(KBestError::TreeTooLarge { .. }) => {
            best_trimmed::<S>(alloc, normal, labels, ranks, k)
        }
        Err(KBestError::OutOfMemory) => Err(KBestError::OutOfMemory),
    }
}

/// The k best trees of a grammar, or all if it has fewer, by cost and then in the order of trees,
/// in any semiring. `TreeTooLarge` names a useful state that has among its k best trees one of more
/// than 10,000 nodes; if the product is the greater factor, both hold in some level. `OutOfMemory`
/// comes if memory is refused or 32-bit numbers run out. Worst case: if the product is the greater
/// factor, that of `k_best_by_levels`; otherwise that of `trim_rules` and of `best_of_rules`, a
/// copy of the rules, and O(n log n) comparisons of texts for n labels.
pub fn k_best<S: Semiring>(
    alloc: Global,
    normal: &Normal<S>,
    labels: &Labels,
    k: u32,
) -> Result<Ranked, KBestError>
    requires free { S.WEIGHTED ≡ false → (n : ℕ) → n < length normal.now.rules →
        (rule_at normal.now.rules n).cost ≡ 0 }
    requires labelled { AreLabelled (length labels.now) normal.now.rules }
    requires some { 0 < k }
    ensures best { IfOk result (λ xs. IsKBest S.product normal.now.rules labels.now k xs) }
    ensures cause { IfErr result (IsLevelCause S.LEVELLED S.product labels.now normal.now.rules k) }
{
    if is_levelled::<S>() {
        return k_best_by_levels::<S>(alloc, normal, labels, k);
    }
    let Ok(ranks) = label_ranks(alloc, labels) else {
        return Err(KBestError::OutOfMemory);
    };
    let list = match best_trimmed::<S>(alloc, normal, labels, &ranks, k) {
        Ok(list) => list,
        Err(error) => return Err(error),
    };
    match flat::<S>(alloc, list) {
        Ok(best) => Ok(best),
        Err(_) => Err(KBestError::OutOfMemory),
    }
}

/// The same list, with the same errors, without trimming if each state below a rule has a tree, as
/// in a trimmed grammar. Few entries are placed if `is_deterministic_below` returns true. Worst
/// case: if the product is the greater factor, that of `k_best_by_levels`. Otherwise that of
/// `lazy_k_best` without trimming if it returns true, and of `best_of_rules` if it does not, and in
/// addition that of `k_best` if some state has a large tree, or some state below a rule has none.
pub fn best_trees<S: Semiring>(
    alloc: Global,
    normal: &Normal<S>,
    labels: &Labels,
    k: u32,
) -> Result<Ranked, KBestError>
    requires free { S.WEIGHTED ≡ false → (n : ℕ) → n < length normal.now.rules →
        (rule_at normal.now.rules n).cost ≡ 0 }
    requires labelled { AreLabelled (length labels.now) normal.now.rules }
    requires some { 0 < k }
    ensures best { IfOk result (λ xs. IsKBest S.product normal.now.rules labels.now k xs) }
    ensures cause { IfErr result (IsLevelCause S.LEVELLED S.product labels.now normal.now.rules k) }
{
    if is_levelled::<S>() {
        return k_best_by_levels::<S>(alloc, normal, labels, k);
    }
    let Ok(ranks) = label_ranks(alloc, labels) else {
        return Err(KBestError::OutOfMemory);
    };
    let list = match best_useful::<S>(alloc, normal, labels, &ranks, k) {
        Ok(list) => list,
        Err(error) => return Err(error),
    };
    match flat::<S>(alloc, list) {
        Ok(best) => Ok(best),
        Err(_) => Err(KBestError::OutOfMemory),
    }
}
