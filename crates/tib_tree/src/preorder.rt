// Trees as preorder lists.
ghost use Rattle.std.specs.Prelude.{◌≡◌, ℕ, ◌+◌, ◌-◌, ◌<◌, ◌≤◌, ◌^◌, length, IfOk, Err, MatchResult, map, IsTrue, false, get_or, take, sum, Ok};
ghost use Rattle.tib_tree.specs.Trees.{preorder_of, IsOneTree, HasChildren, parse, first_of, only, Tree as TreeOf};
ghost use Rattle.tib_tree.specs.Pairs.{pairs_of};
ghost use Rattle.tib_tree.specs.Filled.{nodes_of_tree, sized_back};

use std::alloc::{AllocError, Global};
use std::marker::Model;
use thiserror::Error;

/// The number of a label's text.
pub type Label = u32;

/// A node: its label, how many children it has, how many nodes its tree has, and how many nodes are
/// above it.
#[derive(Clone, Copy, Debug)]
pub struct Node {
    pub label: Label,
    pub rank: u32,
    pub size: u32,
    pub depth: u32,
}

/// A tree, kept as its nodes in preorder.
#[derive(Drop)]
pub struct Tree {
    nodes: Vec<Node>,
}

impl Model for Tree {
    ghost use Rattle.std.specs.Coded.{coded_ℕ};
    ghost use Rattle.std.specs.Prelude.{ℕ};
    ghost use Rattle.tib_tree.specs.Trees.{Tree as TreeOf, tree_code};

    ghost Value = { TreeOf ℕ };

    ghost coded = { tree_code coded_ℕ };

    ghost use Rattle.tib_tree.specs.TreeView.{tree_of, IsFilled};

    ghost view = { tree_of };

    ghost invariant = { IsFilled };
}

/// Why some nodes gave no tree.
#[derive(Debug, Drop, Error)]
pub enum ShapeError {
    /// The nodes are the preorder of no tree.
    #[error("the nodes are not those of one tree")]
    NotATree,
    /// Memory was refused.
    #[error("out of memory")]
    OutOfMemory,
}

impl From<AllocError> for ShapeError {
    ghost use Rattle.std.specs.Prelude.{◌≡◌};
    ghost use Rattle.tib_tree.specs.declared.preorder.ShapeError.TheVariants.{OutOfMemory};

    ghost from_gives = { λ _ r. r ≡ OutOfMemory };

    fn from(_e: AllocError) -> ShapeError {
        ShapeError::OutOfMemory
    }
}

// Whether each node has its children after it, and the first node alone is no node's child.
fn is_one_tree(items: &[(Label, u32)]) -> bool
    ensures yes { IsTrue result → IsOneTree items.now }
    ensures no { result ≡ false → IsOneTree items.now → ⊥ }
{
    let mut roots: usize = 0;
    let mut i = items.len();
    while i > 0 {
        i -= 1;
        let rank = items[i].1 as usize;
        if rank > roots {
            return false;
        }
        roots = roots - rank + 1;
    }
    roots == 1
}

// Where the last trees end, of which there are this many. Their starts are taken off.
fn take_starts(starts: &mut Vec<u32>, count: u32) -> u32
    requires { count < length starts.old.items }
    ensures kept { starts.new.items ≡ take (length starts.old.items - count) starts.old.items }
    ensures end { result ≡ get_or starts.old.items (length starts.old.items - count - 1) 0 }
{
    let kept = starts.len() - count as usize;
    starts.truncate(kept);
    starts[kept - 1]
}

// The nodes with their sizes, the last one first. The places where trees start are kept in
// `starts`.
fn size_nodes(
    items: &[(Label, u32)],
    starts: &mut Vec<u32>,
    back: &mut Vec<Node>,
) -> Result<(), AllocError>
    requires nested { HasChildren items.now }
    requires few { length items.now < 2 ^ 32 }
    ensures { IfOk result (λ _. back.new.items ≡ sized_back (parse items.now)) }
{
    starts.clear();
    back.clear();
    starts.push(items.len() as u32)?;
    let mut i = items.len();
    while i > 0 {
        i -= 1;
        let (label, rank) = items[i];
        let end = take_starts(starts, rank);
        back.push(Node {
            label,
            rank,
            size: end - i as u32,
            depth: 0,
        })?;
        starts.push(i as u32)?;
    }
    Ok(())
}

/// Room for the work on one tree after another.
#[derive(Drop)]
struct Room {
    starts: Vec<u32>,
    back: Vec<Node>,
    counts: Vec<u32>,
}

impl Room {
    fn new(alloc: Global) -> Room {
        Room {
            starts: Vec::new(alloc),
            back: Vec::new(alloc),
            counts: Vec::new(alloc),
        }
    }
}

// The nodes with their depths. `counts` keeps how many trees are still to come at each level.
fn place_nodes(
    alloc: Global,
    back: &mut Vec<Node>,
    counts: &mut Vec<u32>,
) -> Result<Vec<Node>, AllocError>
    requires few { length back.old.items < 2 ^ 32 }
    ensures { IfOk result (λ nodes. (t : TreeOf ℕ) → back.old.items ≡ sized_back (only t) →
        nodes.items ≡ nodes_of_tree t) }
{
    let mut nodes = Vec::new(alloc);
    counts.clear();
    counts.push(1)?;
    while let Some(count) = counts.pop() {
        if count == 0 {
            continue;
        }
        let Some(node) = back.pop() else {
            return Ok(nodes);
        };
        counts.push(count - 1)?;
        let depth = (counts.len() - 1) as u32;
        counts.push(node.rank)?;
        nodes.push(Node {
            label: node.label,
            rank: node.rank,
            size: node.size,
            depth,
        })?;
    }
    Ok(nodes)
}

// The tree of nodes that are those of one.
fn tree_from(alloc: Global, items: &[(Label, u32)], room: &mut Room) -> Result<Tree, AllocError>
    requires one { IsOneTree items.now }
    requires few { length items.now < 2 ^ 32 }
    ensures { IfOk result (λ t. preorder_of t ≡ items.now) }
{
    size_nodes(items, &mut room.starts, &mut room.back)?;
    let nodes = place_nodes(alloc, &mut room.back, &mut room.counts)?;
    Ok(Tree { nodes })
}

// The tree with these nodes, which are those of one.
pub(crate) fn tree_of(nodes: Vec<Node>) -> Tree
    requires { (t : TreeOf ℕ) × (nodes.items ≡ nodes_of_tree t) }
    ensures { preorder_of result ≡ pairs_of nodes.items }
{
    Tree { nodes }
}

impl Tree {
    /// The tree with this preorder, as pairs of a label and a number of children. `NotATree`
    /// exactly if they are the preorder of no tree; `OutOfMemory`, if memory is refused, says
    /// nothing of them. Worst case: O(n) steps for n pairs.
    pub fn from_preorder(alloc: Global, items: &[(Label, u32)]) -> Result<Tree, ShapeError>
        requires { length items.now < 2 ^ 32 }
        ensures tree { IfOk result (λ t. preorder_of t ≡ items.now) }
        ensures not_a_tree { result ≡ Err ShapeError.NotATree → (t : TreeOf ℕ) →
            preorder_of t ≡ items.now → ⊥ }
    {
        if !is_one_tree(items) {
            return Err(ShapeError::NotATree);
        }
        let mut room = Room::new(alloc);
        let tree = tree_from(alloc, items, &mut room)?;
        Ok(tree)
    }

    /// The nodes, each before its children. Takes no memory.
    pub fn nodes(&self) -> &[Node]
        ensures all { result.now ≡ nodes_of_tree self.now }
        ensures pairs { pairs_of result.now ≡ preorder_of self.now }
    {
        &self.nodes
    }
}
