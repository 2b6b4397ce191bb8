// How the work on a list of trees is shared among threads.
ghost use Rattle.std.specs.Prelude.{◌≡◌, ◌<◌, ◌≤◌, length, IfSome, None};
ghost use Rattle.tib_tree.specs.Trees.{size};
ghost use Rattle.tib_weigh.specs.Halves.{nodes_among, half_of, AreFirstWith, IsWhole};

use std::thread::{Threads, available_parallelism};
use tib_tree::Tree;

/// The least number of nodes that is worth a thread of its own.
pub const LEAST_PIECE: usize = 1024;

// How many nodes the tree has.
fn size_of(tree: &Tree) -> usize
    ensures { result ≡ size tree.now }
{
    tree.nodes().len()
}

// How many nodes the trees have, counted up to the greatest number.
pub(crate) fn nodes_of(trees: &[Tree]) -> usize
    ensures { result ≡ nodes_among trees.now }
{
    let mut nodes: usize = 0;
    for tree in trees {
        nodes = nodes.saturating_add(size_of(tree));
    }
    nodes
}

// How many of the first trees have this number of nodes together: at least one, and not all.
fn first_with(trees: &[Tree], nodes: usize) -> usize
    requires { 2 ≤ length trees.now }
    ensures within { (1 ≤ result) × (result < length trees.now) }
    ensures fewest { AreFirstWith trees.now nodes result }
{
    let mut so_far = size_of(&trees[0]);
    let mut n = 1;
    while n < trees.len() - 1 && so_far < nodes {
        so_far = so_far.saturating_add(size_of(&trees[n]));
        n += 1;
    }
    n
}

/// Where to split the trees into two pieces of about as many nodes, each for a thread of its own:
/// how many trees the first piece has, the fewest with half of the nodes. None exactly where
/// `times` is 0, or there are fewer than two trees or too few nodes for two pieces of the `least`
/// number. Takes no memory. Worst case: O(n) steps for n trees.
pub fn middle_of(trees: &[Tree], times: u32, least: usize) -> Option<usize>
    ensures within { IfSome result (λ n. (0 < times) × (1 ≤ n) × (n < length trees.now)) }
    ensures half { IfSome result (λ n. (least ≤ half_of trees.now)
        × AreFirstWith trees.now (half_of trees.now) n) }
    ensures none { result ≡ None → IsWhole trees.now times least }
{
    if times == 0 || trees.len() < 2 {
        return None;
    }
    let half = nodes_of(trees) / 2;
    if half < least {
        return None;
    }
    Some(first_with(trees, half))
}

/// How many times trees are split for all processors, from 2 to 7: into four pieces for each of up
/// to 32 processors, since pieces differ in length. One processor is assumed where the system does
/// not tell. Takes no memory, and one call of the system.
pub fn halvings<R: Threads>(rt: &R) -> u32
    ensures { (2 ≤ result) × (result ≤ 7) }
{
    let processors = match available_parallelism(rt) {
        Ok(count) => count.get(),
        Err(_) => 1,
    };
    processors.min(32).saturating_mul(4).ilog2()
}
