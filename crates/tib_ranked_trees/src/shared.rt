// Trees by numbers, as the list of them.
ghost use Rattle.std.specs.Prelude.{◌≡◌, ℕ, ◌<◌, ◌≤◌, [], length, min, IfOk, OnErr};
ghost use Rattle.tib_tree.specs.Trees.{most_nodes, only, size};
ghost use Rattle.tib_tree.specs.Growth.{LabelsBelow};
ghost use Rattle.tib_tree.specs.Grows.{AreDistinct};
ghost use Rattle.tib_tree.specs.Order.{tree_cmp_by};
ghost use Rattle.tib_ranked_trees.specs.Numbers.{NumbersBelow, told_size, most_size};
ghost use Rattle.tib_ranked_trees.specs.Ranked.{AreRanksOf};
ghost use Rattle.tib_ranked_trees.specs.Seen.{Inserts, tree_at};

use crate::kept::Trees;
use crate::tree_laws::numbers_name_trees;
use std::alloc::{AllocError, Global};
use std::cmp::Ordering;
use std::marker::Model;
use tib_tree::{Label, Labels, Tree};

/// Distinct trees by numbers.
#[derive(Drop)]
pub struct Shared {
    trees: Trees,
}

impl Model for Shared {
    ghost use Rattle.std.specs.Prelude.{ℕ, List};
    ghost use Rattle.tib_tree.specs.Trees.{Tree};
    ghost use Rattle.tib_ranked_trees.specs.Seen.{seen, AreShapes};
    ghost use Rattle.tib_ranked_trees.specs.ListsOf.{trees_code};

    ghost Value = { List (Tree ℕ) };

    ghost coded = { trees_code };

    ghost view = { λ s. seen s.trees };

    ghost invariant = { λ s. AreShapes s.trees };
}

impl Shared {
    /// No trees. It takes no memory.
    pub fn new(alloc: Global) -> Shared
        ensures { result ≡ [] }
    {
        Shared {
            trees: Trees::new(alloc),
        }
    }

    /// Distinct numbers are distinct trees. It computes nothing.
    pub fn is_distinct(&self)
        ensures once { (m n : ℕ) → m < length self.now → n < length self.now →
            tree_at self.now m ≡ tree_at self.now n → m ≡ n }
    {
        numbers_name_trees();
        let _ = self.trees.len();
    }

    /// How many nodes a tree has, or 2^32 - 1 if it has more. It takes no memory.
    pub fn size(&self, tree: u32) -> u32
        requires { tree < length self.now }
        ensures { result ≡ told_size (tree_at self.now tree) }
    {
        numbers_name_trees();
        self.trees.size(tree)
    }

    /// The number of a tree. A new tree is appended. Err only if memory is refused or there are
    /// 4,294,967,295 trees; the trees are then unchanged. Cost: one look-up by hash of c + 1
    /// numbers for c children.
    pub fn insert(&mut self, label: Label, children: &[u32]) -> Result<u32, AllocError>
        requires { NumbersBelow (length self.old) children.now }
        ensures inserts { IfOk result (λ n. Inserts self.old label children.now n self.new) }
        ensures err { OnErr result (self.new ≡ self.old) }
    {
        self.trees.insert(label, children)
    }

    /// The order of two trees. The first has fewer than 2^32 - 1 nodes. It takes no memory. Worst
    /// case: O(d c) steps for trees of depth d and c children of a node.
    pub fn compare(&self, labels: &Labels, ranks: &[u32], one: u32, other: u32) -> Ordering
        requires one { one < length self.now }
        requires other { other < length self.now }
        requires ranks { AreRanksOf labels.now ranks.now }
        requires distinct { AreDistinct labels.now }
        requires labelled { (n : ℕ) → n < length self.now →
            LabelsBelow (length labels.now) (only (tree_at self.now n)) }
        requires small { size (tree_at self.now one) < most_size }
        ensures { result ≡ tree_cmp_by labels.now (tree_at self.now one) (tree_at self.now other) }
    {
        self.trees.compare(ranks, one, other)
    }

    /// A tree with all its nodes, at most 10,000. Err only if memory is refused. Worst case: O(n)
    /// steps and memory for n nodes.
    pub fn tree(&self, alloc: Global, tree: u32) -> Result<Tree, AllocError>
        requires below { tree < length self.now }
        requires small { size (tree_at self.now tree) ≤ most_nodes }
        ensures { IfOk result (λ t. t ≡ tree_at self.now tree) }
    {
        self.trees.tree(alloc, tree)
    }
}
