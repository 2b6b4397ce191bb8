// Making candidates, and what they stand for.
ghost use Rattle.std.specs.Prelude.{◌≡◌, ◌+◌, ◌<◌, ◌≤◌, ◌++◌, ◌^◌, length, take, drop, replicate, IfOk, OnOk};
ghost use Rattle.std.proofs.Common.{get_or};
ghost use Rattle.tib_grammar.specs.Run.{rule_at};
ghost use Rattle.tib_ranked_trees.specs.Numbers.{NumbersBelow};
ghost use Rattle.tib_ranked_trees.specs.Levels.{states_of};
ghost use Rattle.tib_ranked_trees.specs.Pass.{zeros};
ghost use Rattle.tib_ranked_trees.specs.Seen.{row};
ghost use Rattle.tib_ranked_trees.specs.Held.{list_of, ranks_from, raise, tree_by, with_entry, with_ranks, HasNumber, IsLast, IsSound, IsTuple, Makes};

use crate::lists::{Candidate, Entry, Lists};
use std::alloc::{AllocError, Global};
use tib_cost::Semiring;

// Appends zeros to the ranks.
fn push_zeros(ranks: &mut Vec<u32>, count: usize) -> Result<(), AllocError>
    ensures { OnOk result (ranks.new.items ≡ ranks.old.items ++ replicate count 0) }
{
    for _place in 0..count {
        ranks.push(0)?;
    }
    Ok(())
}

// Appends a copy of some of the ranks, with the i-th one raised by one.
fn push_raised(ranks: &mut Vec<u32>, start: usize, count: usize, i: usize) -> Result<(), AllocError>
    requires within { start + count ≤ length ranks.old.items }
    requires small { get_or ranks.old.items (start + i) 0 + 1 < 2 ^ 32 }
    ensures { OnOk result (ranks.new.items
        ≡ ranks.old.items ++ raise i (take count (drop start ranks.old.items))) }
{
    for j in 0..count {
        let rank = ranks[start + j];
        ranks.push(if j == i { rank + 1 } else { rank })?;
    }
    Ok(())
}

impl<'a> Lists<'a> {
    /// Appends the ranks of a rule's first candidate, and returns where they begin. Err if memory
    /// is refused; part of the ranks may then be there. Linear in the number of states below the
    /// rule.
    pub fn zeros(&mut self, rule: u32) -> Result<usize, AllocError>
        requires sound { IsSound self.old }
        requires rule { rule < length self.old.rules }
        ensures start { IfOk result (λ start. start ≡ length self.old.ranks) }
        ensures put { OnOk result (self.new
            ≡ with_ranks self.old (zeros (states_of (rule_at self.old.rules rule)))) }
    {
        let start = self.ranks.len();
        let count = self.count(rule);
        push_zeros(&mut self.ranks, count)?;
        Ok(start)
    }

    /// Makes a candidate of a rule with the ranks from `start` on, and returns its number, or none
    /// if it costs more than the greatest cost. Err if memory is refused or there are 4,294,967,295
    /// candidates; no candidate is then added. Linear in the number of states below the rule.
    pub fn make<S: Semiring>(&mut self, rule: u32, start: usize) -> Result<Option<u32>, AllocError>
        requires sound { IsSound self.old }
        requires tuple { IsTuple self.old rule (ranks_from self.old rule start) }
        ensures { IfOk result (λ made. Makes S.product self.old rule start made self.new) }
    {
        let Some(cost) = self.cost_of::<S>(rule, start) else {
            return Ok(None);
        };
        let size = self.size_of(rule, start);
        let number = self.candidates.len();
        if number >= u32::MAX as usize {
            return Err(AllocError);
        }
        self.candidates.push(Candidate {
            rule,
            start,
            cost,
            size,
        })?;
        Ok(Some(number as u32))
    }

    // The numbers of the trees that the ranks from `start` on name.
    fn children(&self, alloc: Global, rule: u32, start: usize) -> Result<Vec<u32>, AllocError>
        requires sound { IsSound self.now }
        requires tuple { IsTuple self.now rule (ranks_from self.now rule start) }
        ensures below { IfOk result (λ v. NumbersBelow (length self.now.trees) v.items) }
        ensures row { IfOk result (λ v. row self.now.trees v.items
            ≡ (tree_by self.now rule (ranks_from self.now rule start)).kids) }
    {
        let count = self.count(rule);
        let mut children = Vec::with_capacity(alloc, count)?;
        for i in 0..count {
            children.push(self.child(rule, start, i).tree)?;
        }
        Ok(children)
    }

    /// Appends a copy of the ranks from `start` on, with the i-th one raised by one, and returns
    /// where the copy begins. Err if memory is refused; part of the copy may then be there. Linear
    /// in the number of states below the rule.
    pub fn raised(&mut self, rule: u32, start: usize, i: usize) -> Result<usize, AllocError>
        requires sound { IsSound self.old }
        requires tuple { IsTuple self.old rule (ranks_from self.old rule start) }
        requires below { i < length (states_of (rule_at self.old.rules rule)) }
        requires next { get_or (ranks_from self.old rule start) i 0 + 1
            < length (list_of self.old (get_or (states_of (rule_at self.old.rules rule)) i 0)) }
        ensures start { IfOk result (λ new. new ≡ length self.old.ranks) }
        ensures put { OnOk result (self.new
            ≡ with_ranks self.old (raise i (ranks_from self.old rule start))) }
    {
        let new = self.ranks.len();
        let count = self.count(rule);
        push_raised(&mut self.ranks, start, count, i)?;
        Ok(new)
    }

    /// The last place whose rank is not 0, or 0 if there is none. Linear in the number of states
    /// below the rule.
    pub fn last(&self, rule: u32, start: usize) -> usize
        requires sound { IsSound self.now }
        requires tuple { IsTuple self.now rule (ranks_from self.now rule start) }
        ensures { IsLast (ranks_from self.now rule start) result }
    {
        let mut i = self.count(rule);
        while i > 0 {
            i -= 1;
            if self.ranks[start + i] != 0 {
                return i;
            }
        }
        0
    }

    /// The number of the tree that a rule makes of the entries whose ranks are from `start` on. Err
    /// only if memory is refused or there are 4,294,967,295 trees; the trees are then unchanged.
    /// Cost: one look-up by hash, of as many numbers as the rule has states and one.
    pub fn tree_of(&mut self, alloc: Global, rule: u32, start: usize) -> Result<u32, AllocError>
        requires sound { IsSound self.old }
        requires tuple { IsTuple self.old rule (ranks_from self.old rule start) }
        ensures { IfOk result (λ n. HasNumber self.old
            (tree_by self.old rule (ranks_from self.old rule start)) n self.new) }
    {
        let children = self.children(alloc, rule, start)?;
        let (label, _rank) = self.rules[rule as usize].root();
        self.trees.insert(label, &children)
    }

    /// Appends an entry to the list of a state. Err if memory is refused.
    pub fn place(&mut self, state: u32, entry: Entry) -> Result<(), AllocError>
        requires { state < length self.old.lists }
        ensures { OnOk result (self.new ≡ with_entry self.old state entry) }
    {
        self.lists[state as usize].push(entry)?;
        Ok(())
    }
}
