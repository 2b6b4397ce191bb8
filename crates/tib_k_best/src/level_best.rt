// The k best trees by levels.
ghost use Rattle.std.specs.Prelude.{◌≡◌, ◌<◌, ℕ, List as ListFor, true, length, take, IfErr, IfOk};
ghost use Rattle.tib_grammar_file.specs.Printed.{AreLabelled};
ghost use Rattle.tib_grammar.specs.Forms.{AreNormal};
ghost use Rattle.tib_ranked_trees.specs.Best.{IsKBest};
ghost use Rattle.tib_k_best.specs.Causes.{IsLevelCause};
ghost use Rattle.tib_k_best.specs.RankedOf.{ranked_of, AreRanked};
ghost use Rattle.tib_k_best.specs.Splits.{IsSplit};
ghost use Rattle.tib_k_best.specs.Weights.{places_from, AreByCost, AreWeights, HaveCosts};

use crate::error::KBestError;
use crate::listed::List;
use crate::ranked::Ranked;
use crate::search::{Split, split_levels};
use crate::weights::{by_cost, first_places, weights_of};
use std::alloc::{AllocError, Global};
use tib_cost::{Cost, Semiring};
use tib_normal::Normal;
use tib_ranked_trees::label_ranks;
use tib_tree::Labels;

// The cost in the whole grammar of each tree of a list, with its place, by cost.
fn first_of<S: Semiring>(
    alloc: Global,
    normal: &Normal<S>,
    below: &List,
) -> Result<Vec<(Cost, u32)>, AllocError>
    requires { HaveCosts S.product normal.now.rules below.now }
    ensures { IfOk result (λ v. (ws : ListFor ℕ)
        × AreWeights S.product normal.now.rules below.now ws × AreByCost ws v.items) }
{
    below.len();
    let weights = weights_of::<S>(alloc, normal, below)?;
    let first = by_cost(alloc, &weights)?;
    Ok(first)
}

// The first places of trees with this cost in the whole grammar, or all of them.
fn rest_of<S: Semiring>(
    alloc: Global,
    normal: &Normal<S>,
    at: &List,
    cost: Cost,
    most: usize,
) -> Result<Vec<u32>, AllocError>
    requires { HaveCosts S.product normal.now.rules at.now }
    ensures { IfOk result (λ v. (ws : ListFor ℕ)
        × AreWeights S.product normal.now.rules at.now ws
        × (v.items ≡ take most (places_from cost 0 ws))) }
{
    at.len();
    let weights = weights_of::<S>(alloc, normal, at)?;
    let rest = first_places(alloc, &weights, cost, most)?;
    Ok(rest)
}

// The places of the trees below the cost, by their costs, and of those that cost as much, k in
// total.
fn places<S: Semiring>(
    alloc: Global,
    normal: &Normal<S>,
    split: &Split,
    labels: &Labels,
    k: u32,
) -> Result<(Vec<(Cost, u32)>, Vec<u32>), AllocError>
    requires levelled { S.LEVELLED ≡ true }
    requires normal { AreNormal normal.now.rules }
    requires split { IsSplit S.product labels.now normal.now.rules k split.now.cost
        split.now.below split.now.at }
    ensures ranked { IfOk result (λ p. AreRanked split.now.below split.now.at p.0.items
        p.1.items) }
    ensures best { IfOk result (λ p. IsKBest S.product normal.now.rules labels.now k
        (ranked_of split.now.below split.now.at split.now.cost p.0.items p.1.items)) }
{
    let first = first_of::<S>(alloc, normal, &split.below)?;
    let count = first.len();
    let rest = rest_of::<S>(alloc, normal, &split.at, split.cost, k as usize - count)?;
    Ok((first, rest))
}

// The trees below the cost, by their costs, and then those that cost as much, k in total.
fn rank<S: Semiring>(
    alloc: Global,
    normal: &Normal<S>,
    split: Split,
    labels: &Labels,
    k: u32,
) -> Result<Ranked, AllocError>
    requires levelled { S.LEVELLED ≡ true }
    requires normal { AreNormal normal.now.rules }
    requires split { IsSplit S.product labels.now normal.now.rules k split.cost split.below
        split.at }
    ensures { IfOk result (λ xs. IsKBest S.product normal.now.rules labels.now k xs) }
{
    let (first, rest) = places::<S>(alloc, normal, &split, labels, k)?;
    Ok(Ranked::new(split, first, rest))
}

/// The k best trees of a grammar, or all if it has fewer, by cost and then in the order of trees,
/// in a semiring whose product is the greater factor: the trees below the least level with k, and
/// the first of that level that cost as much. `TreeTooLarge` names a state that is useful in some
/// level and has there among its k best trees one of more than 10,000 nodes; `OutOfMemory` comes if
/// memory is refused or 32-bit numbers run out. Worst case: that of `best_of_rules` for O(log r)
/// levels of r rules, which are copied and trimmed, and of `weigh` for 2k trees.
pub fn k_best_by_levels<S: Semiring>(
    alloc: Global,
    normal: &Normal<S>,
    labels: &Labels,
    k: u32,
) -> Result<Ranked, KBestError>
    requires levelled { S.LEVELLED ≡ true }
    requires labelled { AreLabelled (length labels.now) normal.now.rules }
    requires some { 0 < k }
    ensures best { IfOk result (λ xs. IsKBest S.product normal.now.rules labels.now k xs) }
    ensures cause { IfErr result (IsLevelCause S.LEVELLED S.product labels.now normal.now.rules k) }
{
    let Ok(ranks) = label_ranks(alloc, labels) else {
        return Err(KBestError::OutOfMemory);
    };
    let grammar = normal.grammar();
    grammar.is_sound();
    let states = grammar.states();
    let split = match split_levels::<S>(alloc, grammar.rule_list(), states, labels, &ranks, k) {
        Ok(split) => split,
        Err(error) => return Err(error),
    };
    match rank::<S>(alloc, normal, split, labels, k) {
        Ok(best) => Ok(best),
        Err(_) => Err(KBestError::OutOfMemory),
    }
}
