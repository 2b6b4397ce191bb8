// The list that is returned: trees below a cost, sorted, and trees at it.
ghost use Rattle.std.specs.Prelude.{◌≡◌, ℕ, ◌<◌, ◌≤◌, length, IfOk};
ghost use Rattle.std.proofs.Common.{get_or};
ghost use Rattle.tib_tree.specs.Trees.{most_nodes, size};
ghost use Rattle.tib_ranked_trees.specs.Pass.{no_entry};
ghost use Rattle.tib_k_best.specs.RankedOf.{ranked_of, AreRanked};

use crate::listed::List;
use crate::search::Split;
use std::alloc::{AllocError, Global};
use std::marker::Model;
use tib_cost::Cost;
use tib_tree::Tree;

/// Trees with their costs, the best first, each of at most 10,000 nodes.
#[derive(Drop)]
pub struct Ranked {
    below: List,
    at: List,
    cost: Cost,
    // What a tree of `below` costs, and its place there.
    first: Vec<(Cost, u32)>,
    // The places of trees in `at`.
    rest: Vec<u32>,
}

impl Model for Ranked {
    ghost use Rattle.std.specs.Prelude.{List as ListFor};
    ghost use Rattle.tib_ranked_trees.specs.Best.{Costed};
    ghost use Rattle.tib_k_best.specs.Listing.{costed_code};
    ghost use Rattle.tib_k_best.specs.RankedOf.{ranked_of, AreRanked};

    ghost Value = { ListFor Costed };

    ghost coded = { costed_code };

    ghost view = { λ r. ranked_of r.below r.at r.cost r.first.items r.rest.items };

    ghost invariant = { λ r. AreRanked r.below r.at r.first.items r.rest.items };
}

impl Ranked {
    // The trees of `first` in order, and then those of `rest`.
    pub(crate) fn new(split: Split, first: Vec<(Cost, u32)>, rest: Vec<u32>) -> Ranked
        requires { AreRanked split.below split.at first.items rest.items }
        ensures { result ≡ ranked_of split.below split.at split.cost first.items rest.items }
    {
        let Split { below, at, cost } = split;
        Ranked {
            below,
            at,
            cost,
            first,
            rest,
        }
    }

    /// What holds for each list: its trees have at most 10,000 nodes. It computes nothing.
    pub fn is_small(&self)
        ensures { (i : ℕ) → i < length self.now →
            size (get_or self.now i no_entry).0 ≤ most_nodes }
    {
        self.below.is_small();
        self.at.is_small();
    }

    /// How many trees there are. It takes no memory.
    pub fn len(&self) -> u32
        ensures { result ≡ length self.now }
    {
        (self.first.len() + self.rest.len()) as u32
    }

    /// What a tree costs, by its place from 0. It takes no memory.
    pub fn cost(&self, i: u32) -> Cost
        requires { i < length self.now }
        ensures { result ≡ (get_or self.now i no_entry).1 }
    {
        let place = i as usize;
        if place < self.first.len() {
            let (cost, _) = self.first[place];
            return cost;
        }
        self.cost
    }

    /// A tree by its place from 0, with all its nodes. Err only if memory is refused. Worst case:
    /// O(n) steps and memory for n nodes.
    pub fn tree(&self, alloc: Global, i: u32) -> Result<Tree, AllocError>
        requires { i < length self.now }
        ensures { IfOk result (λ t. t ≡ (get_or self.now i no_entry).0) }
    {
        let place = i as usize;
        let count = self.first.len();
        if place < count {
            let (_, below) = self.first[place];
            return self.below.tree(alloc, below);
        }
        self.at.tree(alloc, self.rest[place - count])
    }
}
