// What candidates stand for.
ghost use Rattle.std.specs.Prelude.{◌≡◌, ◌<◌, ◌^◌, length};
ghost use Rattle.std.proofs.Common.{get_or};
ghost use Rattle.tib_cost.specs.Semiring.{cut};
ghost use Rattle.tib_tree.specs.Trees.{size};
ghost use Rattle.tib_grammar.specs.Run.{rule_at};
ghost use Rattle.tib_ranked_trees.specs.Levels.{states_of};
ghost use Rattle.tib_ranked_trees.specs.Pass.{offer, entry_at};
ghost use Rattle.tib_ranked_trees.specs.Held.{entries_of, ranks_from, told, tree_by, IsSound, IsTuple};

use crate::lists::{Entry, Lists};
use tib_cost::{Cost, Semiring};

impl<'a> Lists<'a> {
    /// How many states are below a rule.
    pub fn count(&self, rule: u32) -> usize
        requires sound { IsSound self.now }
        requires rule { rule < length self.now.rules }
        ensures many { result ≡ length (states_of (rule_at self.now.rules rule)) }
        ensures few { result < 2 ^ 32 }
    {
        let (_label, rank) = self.rules[rule as usize].root();
        rank as usize
    }

    /// The entry that the i-th of the ranks from `start` on names.
    pub fn child(&self, rule: u32, start: usize, i: usize) -> &Entry
        requires sound { IsSound self.now }
        requires tuple { IsTuple self.now rule (ranks_from self.now rule start) }
        requires below { i < length (states_of (rule_at self.now.rules rule)) }
        ensures same { told self.now.trees result.now ≡ entry_at (entries_of self.now)
            (get_or (states_of (rule_at self.now.rules rule)) i 0)
            (get_or (ranks_from self.now rule start) i 0) }
        ensures there { result.now.tree < length self.now.trees }
    {
        let states = self.rules[rule as usize].states_below();
        self.entry(states[i].state(), self.ranks[start + i])
    }

    /// The cost of the tree that a rule makes of the entries whose ranks are from `start` on. None
    /// if it is more than the greatest cost. Linear in the number of states below the rule.
    pub fn cost_of<S: Semiring>(&self, rule: u32, start: usize) -> Option<Cost>
        requires sound { IsSound self.now }
        requires tuple { IsTuple self.now rule (ranks_from self.now rule start) }
        ensures { result ≡ cut (offer S.product self.now.rules (entries_of self.now) rule
            (ranks_from self.now rule start)).1 }
    {
        let mut total = S::one();
        let mut i = self.count(rule);
        while i > 0 {
            i -= 1;
            let entry = self.child(rule, start, i);
            let Some(more) = S::times(entry.cost, total) else {
                return None;
            };
            total = more;
        }
        S::times(self.rules[rule as usize].cost, total)
    }

    /// How many nodes that tree has. Linear in the number of states below the rule.
    pub fn size_of(&self, rule: u32, start: usize) -> u64
        requires sound { IsSound self.now }
        requires tuple { IsTuple self.now rule (ranks_from self.now rule start) }
        ensures { result ≡ size (tree_by self.now rule (ranks_from self.now rule start)) }
    {
        let mut size = 1;
        let mut i = self.count(rule);
        while i > 0 {
            i -= 1;
            let entry = self.child(rule, start, i);
            size += u64::from(self.trees.size(entry.tree));
        }
        size
    }
}
