// The order of two trees by their numbers.
ghost use Rattle.std.specs.Prelude.{◌≡◌, ℕ, ◌<◌, length, IfSome, None};
ghost use Rattle.std.specs.declared.cmp.Ordering.TheVariants.{Equal};
ghost use Rattle.tib_ranked_trees.specs.Numbers.{RootsBelow, IsFirstOther, children_at};
ghost use Rattle.tib_ranked_trees.specs.Ranked.{IsOrderOf, IsRootOrder};

use crate::kept::Trees;
use std::cmp::Ordering;

// The first place where two lists of one length differ.
fn first_other(xs: &[u32], ys: &[u32]) -> Option<usize>
    requires { length xs.now ≡ length ys.now }
    ensures some { IfSome result (λ i. IsFirstOther xs.now ys.now i) }
    ensures none { result ≡ None → xs.now ≡ ys.now }
{
    let mut i = 0;
    while i < xs.len() {
        if xs[i] != ys[i] {
            return Some(i);
        }
        i += 1;
    }
    None
}

impl Trees {
    // The order of the roots of two trees: by size, then by the label's rank, then by the number of
    // children.
    fn compare_roots(&self, ranks: &[u32], one: u32, other: u32) -> Ordering
        requires left { one < length self.now }
        requires right { other < length self.now }
        requires labels { RootsBelow (length ranks.now) self.now }
        ensures order { IsRootOrder self.now ranks.now one other result }
        ensures counts { result ≡ Equal →
            length (children_at self.now one) ≡ length (children_at self.now other) }
    {
        let sizes = self.size(one).cmp(&self.size(other));
        if sizes != Ordering::Equal {
            return sizes;
        }
        let left = ranks[self.label(one) as usize];
        let right = ranks[self.label(other) as usize];
        if left != right {
            return left.cmp(&right);
        }
        self.children(one).len().cmp(&self.children(other).len())
    }

    /// The order of two trees, where `ranks` has the rank of each label. The tree with fewer nodes
    /// comes first. Then the rank of the root's label decides, then the number of children, then
    /// the children from left to right. It goes down only where the numbers first differ, since
    /// equal numbers are equal trees. It is the order of trees over every table whose labels have
    /// these ranks, if one of the two trees has fewer nodes than 4,294,967,295. It takes no memory.
    /// Worst case: O(d c) steps for trees of depth d and c children of a node.
    pub fn compare(&self, ranks: &[u32], one: u32, other: u32) -> Ordering
        requires left { one < length self.now }
        requires right { other < length self.now }
        requires labels { RootsBelow (length ranks.now) self.now }
        ensures { IsOrderOf self.now ranks.now one other result }
    {
        self.len();
        let mut left = one;
        let mut right = other;
        while left != right {
            let order = self.compare_roots(ranks, left, right);
            if order != Ordering::Equal {
                return order;
            }
            let below = self.children(left);
            let beside = self.children(right);
            let Some(i) = first_other(below, beside) else {
                return Ordering::Equal;
            };
            left = below[i];
            right = beside[i];
        }
        Ordering::Equal
    }
}
