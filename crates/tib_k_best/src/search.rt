// Binary search for the least level with k trees.
ghost use Rattle.std.specs.Prelude.{◌≡◌, ◌<◌, ◌^◌, true, length, IfErr, IfOk};
ghost use Rattle.tib_grammar.specs.Forms.{AreNormal};
ghost use Rattle.tib_grammar.specs.Range.{AreInRange};
ghost use Rattle.tib_grammar_file.specs.Printed.{AreLabelled};
ghost use Rattle.tib_ranked_trees.specs.Ranked.{AreRanksOf};
ghost use Rattle.tib_k_best.specs.Causes.{IsLevelCause};
ghost use Rattle.tib_k_best.specs.Splits.{IsSplit};

use crate::error::KBestError;
use crate::level::best_of_level;
use crate::levels::sorted_costs;
use crate::listed::List;
use std::alloc::Global;
use tib_cost::{Cost, Semiring};
use tib_grammar::Rule;
use tib_tree::Labels;

/// The trees below a cost, and the k best of its level, or none if the grammar has fewer than k.
#[derive(Drop)]
pub(crate) struct Split {
    pub(crate) below: List,
    pub(crate) at: List,
    pub(crate) cost: Cost,
}

// The trees below the least level that has k, and the k best of that level.
pub(crate) fn split_levels<S: Semiring>(
    alloc: Global,
    rules: &[Rule<u32>],
    states: u32,
    labels: &Labels,
    ranks: &[u32],
    k: u32,
) -> Result<Split, KBestError>
    requires levelled { S.LEVELLED ≡ true }
    requires some { 0 < k }
    requires few { length rules.now < 2 ^ 32 }
    requires start { 0 < states }
    requires normal { AreNormal rules.now }
    requires range { AreInRange states rules.now }
    requires labelled { AreLabelled (length labels.now) rules.now }
    requires ranks { AreRanksOf labels.now ranks.now }
    ensures split { IfOk result (λ s. IsSplit S.product labels.now rules.now k s.cost s.below
        s.at) }
    ensures cause { IfErr result (IsLevelCause S.LEVELLED S.product labels.now rules.now k) }
{
    let Ok(costs) = sorted_costs(alloc, rules) else {
        return Err(KBestError::OutOfMemory);
    };
    let mut below = List::new(alloc);
    let mut at = List::new(alloc);
    let mut low = 0;
    let mut high = costs.len();
    while low < high {
        let middle = low + (high - low) / 2;
        let cost = costs[middle];
        let list = match best_of_level::<S>(alloc, rules, cost, states, labels, ranks, k) {
            Ok(list) => list,
            Err(error) => return Err(error),
        };
        if list.len() < k {
            below = list;
            low = middle + 1;
            continue;
        }
        at = list;
        high = middle;
    }
    if high < costs.len() {
        let cost = costs[high];
        return Ok(Split { below, at, cost });
    }
    let cost = S::one();
    Ok(Split { below, at, cost })
}
