// The order of candidates, by what they stand for.
ghost use Rattle.std.specs.Prelude.{◌≡◌, ◌<◌, length};
ghost use Rattle.tib_grammar.specs.Run.{rule_at};
ghost use Rattle.tib_tree.specs.Order.{tree_cmp_by};
ghost use Rattle.tib_ranked_trees.specs.Levels.{states_of};
ghost use Rattle.tib_ranked_trees.specs.Held.{ranks_of, tree_by, IsSound, IsTuple, IsCandidate};
ghost use Rattle.tib_ranked_trees.specs.Ordered.{kids_cmp, roots_cmp};

use crate::heap::Ranking;
use crate::lists::{Candidate, Lists};
use std::cmp::Ordering;

impl<'a> Lists<'a> {
    // The order of the roots of two candidates' trees: by size, then by the label's place, then by
    // the number of children.
    fn compare_roots(&self, one: &Candidate, other: &Candidate) -> Ordering
        requires sound { IsSound self.now }
        requires one { IsCandidate self.now one.now }
        requires other { IsCandidate self.now other.now }
        ensures { result ≡ roots_cmp self.now.labels
            (tree_by self.now one.now.rule (ranks_of self.now one.now))
            (tree_by self.now other.now.rule (ranks_of self.now other.now)) }
    {
        let sizes = one.size.cmp(&other.size);
        if sizes != Ordering::Equal {
            return sizes;
        }
        let (left, some) = self.rules[one.rule as usize].root();
        let (right, others) = self.rules[other.rule as usize].root();
        let labels = self.label_ranks[left as usize].cmp(&self.label_ranks[right as usize]);
        if labels != Ordering::Equal {
            return labels;
        }
        some.cmp(&others)
    }

    // The order of the children of two such trees, compared from left to right.
    fn compare_children(&self, one: &Candidate, other: &Candidate) -> Ordering
        requires sound { IsSound self.now }
        requires one { IsTuple self.now one.now.rule (ranks_of self.now one.now) }
        requires other { IsTuple self.now other.now.rule (ranks_of self.now other.now) }
        requires as_many { length (states_of (rule_at self.now.rules one.now.rule))
            ≡ length (states_of (rule_at self.now.rules other.now.rule)) }
        ensures { result ≡ kids_cmp self.now.labels
            (tree_by self.now one.now.rule (ranks_of self.now one.now)).kids
            (tree_by self.now other.now.rule (ranks_of self.now other.now)).kids }
    {
        let count = self.count(one.rule);
        for i in 0..count {
            let left = self.child(one.rule, one.start, i).tree;
            let right = self.child(other.rule, other.start, i).tree;
            let order = self
                .trees
                .compare(self.labels, self.label_ranks, left, right);
            if order != Ordering::Equal {
                return order;
            }
        }
        Ordering::Equal
    }

    // The order of two candidates' trees.
    fn compare_trees(&self, one: &Candidate, other: &Candidate) -> Ordering
        requires sound { IsSound self.now }
        requires one { IsCandidate self.now one.now }
        requires other { IsCandidate self.now other.now }
        ensures { result ≡ tree_cmp_by self.now.labels
            (tree_by self.now one.now.rule (ranks_of self.now one.now))
            (tree_by self.now other.now.rule (ranks_of self.now other.now)) }
    {
        let roots = self.compare_roots(one, other);
        if roots != Ordering::Equal {
            return roots;
        }
        self.compare_children(one, other)
    }
}

impl<'a> Ranking for Lists<'a> {
    ghost use Rattle.tib_ranked_trees.specs.Held.{offers_cmp, stands_for, IsKnownBy};
    ghost use Rattle.tib_ranked_trees.specs.Ordered.{offers_total};

    ghost rank = { λ x a b. offers_cmp x.labels (stands_for x a) (stands_for x b) };

    ghost knows = { λ x n. IsKnownBy x n };

    fn compare(&self, a: u32, b: u32) -> Ordering {
        let one = &self.candidates[a as usize];
        let other = &self.candidates[b as usize];
        let costs = one.cost.cmp(&other.cost);
        if costs != Ordering::Equal {
            return costs;
        }
        self.compare_trees(one, other)
    }

    ghost total = { λ x. offers_total x };
}
