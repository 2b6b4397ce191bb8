// The order of trees, over their nodes.
ghost use Rattle.std.specs.Prelude.{◌≡◌, ◌<◌, length, All};
ghost use Rattle.std.specs.Cmp.Lexicographic.{slice_cmp};
ghost use Rattle.tib_tree.specs.Growth.{HasLabels};
ghost use Rattle.tib_tree.specs.Order.{node_cmp, tree_cmp_by};

use crate::{Labels, Node, Tree};
use std::cmp::Ordering;

// The order of two nodes: by size, then by the label's text, then by the number of children.
fn compare_nodes(labels: &Labels, a: Node, b: Node) -> Ordering
    requires left { a.label < length labels.now }
    requires right { b.label < length labels.now }
    ensures { result ≡ node_cmp labels.now a b }
{
    let sizes = a.size.cmp(&b.size);
    if sizes != Ordering::Equal {
        return sizes;
    }
    let texts = labels.text(a.label).cmp(labels.text(b.label));
    if texts != Ordering::Equal {
        return texts;
    }
    a.rank.cmp(&b.rank)
}

// The order of two lists of nodes, side by side.
fn compare_lists(labels: &Labels, xs: &[Node], ys: &[Node]) -> Ordering
    requires left { All (λ n. n.label < length labels.now) xs.now }
    requires right { All (λ n. n.label < length labels.now) ys.now }
    ensures { result ≡ slice_cmp (node_cmp labels.now) xs.now ys.now }
{
    let mut i = 0;
    while i < xs.len() && i < ys.len() {
        let order = compare_nodes(labels, xs[i], ys[i]);
        if order != Ordering::Equal {
            return order;
        }
        i += 1;
    }
    xs.len().cmp(&ys.len())
}

/// The order of two trees: the one with fewer nodes comes first, then the root's label decides by
/// its bytes, then the number of children, then the children from left to right. Takes no memory.
/// Worst case: O(n) steps for the n nodes of one tree and the bytes of their labels.
pub fn compare(labels: &Labels, a: &Tree, b: &Tree) -> Ordering
    requires left { HasLabels labels.now a.now }
    requires right { HasLabels labels.now b.now }
    ensures { result ≡ tree_cmp_by labels.now a.now b.now }
{
    compare_lists(labels, a.nodes(), b.nodes())
}
