// The list of best trees that is returned.
ghost use Rattle.std.specs.Prelude.{◌≡◌, ℕ, ◌<◌, ◌≤◌, [], length, map, IfOk};
ghost use Rattle.std.proofs.Common.{get_or};
ghost use Rattle.tib_tree.specs.Trees.{most_nodes, size};
ghost use Rattle.tib_ranked_trees.specs.Pass.{no_entry};
ghost use Rattle.tib_ranked_trees.specs.Held.{entries_of, IsSound};
ghost use Rattle.tib_k_best.specs.Listing.{costed, AreListed};

use std::alloc::{AllocError, Global};
use std::marker::Model;
use tib_cost::Cost;
use tib_ranked_trees::{Entry, Lists, Shared};
use tib_tree::Tree;

/// Trees with their costs, the best first, each of at most 10,000 nodes.
#[derive(Drop)]
pub struct List {
    trees: Shared,
    entries: Vec<Entry>,
}

impl Model for List {
    ghost use Rattle.std.specs.Prelude.{List as ListFor};
    ghost use Rattle.tib_ranked_trees.specs.Best.{Costed};
    ghost use Rattle.tib_k_best.specs.Listing.{costed, costed_code, AreListed};

    ghost Value = { ListFor Costed };

    ghost coded = { costed_code };

    ghost view = { λ l. costed l.trees l.entries.items };

    ghost invariant = { λ l. AreListed l.trees l.entries.items };
}

impl List {
    // No trees.
    pub(crate) fn new(alloc: Global) -> List
        ensures { result ≡ [] }
    {
        List {
            trees: Shared::new(alloc),
            entries: Vec::new(alloc),
        }
    }

    // Entries over the trees that they name.
    pub(crate) fn over(trees: Shared, entries: Vec<Entry>) -> List
        requires { AreListed trees entries.items }
        ensures { result ≡ costed trees entries.items }
    {
        List { trees, entries }
    }

    // The list of a state.
    pub(crate) fn of_state(lists: Lists, state: u32) -> List
        requires sound { IsSound lists }
        requires state { state < length lists.lists }
        ensures { result ≡ entries_of lists.entry state }
    {
        let (trees, entries) = lists.into_list(state);
        List { trees, entries }
    }

    /// What holds for each list: its trees have at most 10,000 nodes. It computes nothing.
    pub fn is_small(&self)
        ensures { (i : ℕ) → i < length self.now →
            size (get_or self.now i no_entry).0 ≤ most_nodes }
    {
        let _ = self.entries.len();
    }

    /// How many trees there are. It takes no memory.
    pub fn len(&self) -> u32
        ensures { result ≡ length self.now }
    {
        self.entries.len() as u32
    }

    /// What a tree costs, by its place from 0. It takes no memory.
    pub fn cost(&self, i: u32) -> Cost
        requires { i < length self.now }
        ensures { result ≡ (get_or self.now i no_entry).1 }
    {
        self.entries[i as usize].cost
    }

    /// A tree by its place from 0, with all its nodes. Err only if memory is refused. Worst case:
    /// O(n) steps and memory for n nodes.
    pub fn tree(&self, alloc: Global, i: u32) -> Result<Tree, AllocError>
        requires { i < length self.now }
        ensures { IfOk result (λ t. t ≡ (get_or self.now i no_entry).0) }
    {
        self.trees.tree(alloc, self.entries[i as usize].tree)
    }
}
