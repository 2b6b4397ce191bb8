// The best trees of the start.
ghost use Rattle.std.specs.Prelude.{◌≡◌, ◌<◌, ◌≤◌, ◌+◌, ℕ, length, IfErr, OnOk};
ghost use Rattle.tib_ranked_trees.specs.Below.{IsDeterministicBelow};
ghost use Rattle.tib_ranked_trees.specs.Best.{IsFrontAt, IsKBest};
ghost use Rattle.tib_ranked_trees.specs.Levels.{IsOrderly};
ghost use Rattle.tib_ranked_trees.specs.Held.{entries_of, IsSound};
ghost use Rattle.tib_lazy_lists.specs.AskingOf.{asking_of};
ghost use Rattle.tib_lazy_lists.specs.Asks.{IsAsking, StaysAsking, StaysGrammar};
ghost use Rattle.tib_lazy_lists.specs.Causes.{IsAskCause};
ghost use Rattle.tib_lazy_lists.specs.Demands.{entries_held, nodes_of};
ghost use Rattle.tib_lazy_lists.specs.Firsts.{AreFirsts, AreTrimmed};

use crate::asking::Asking;
use crate::error::AskError;
use std::alloc::Global;
use tib_cost::Semiring;
use tib_ranked_trees::Lists;

impl Asking {
    // Asks the start until it has k trees, or all.
    fn ask_start<S: Semiring>(&mut self, alloc: Global, lists: &mut Lists) -> Result<(), AskError>
        requires kept { IsAsking S.product lists.old (asking_of self.old) }
        requires orderly { IsOrderly S.product lists.old.rules }
        requires start { 0 < length (asking_of self.old).states }
        ensures best { OnOk result (IsKBest S.product lists.old.rules lists.old.labels self.old.k
            (entries_of lists.new 0)) }
        ensures sound { OnOk result (IsSound lists.new) }
        ensures grammar { OnOk result (StaysGrammar lists.old lists.new) }
        ensures cause { IfErr result (IsAskCause S.product lists.old self.old.k) }
    {
        while let Some(question) = self.question::<S>(lists, 0) {
            match self.ask::<S>(alloc, lists, question) {
                Ok(()) => {}
                Err(error) => return Err(error),
            }
        }
        Ok(())
    }
}

/// Makes the lists of the states grow, from their first trees on, until the list of state 0 has its
/// k best trees. The other lists grow only where a tree is asked for. `TreeTooLarge` if a state has
/// a tree of more than 10,000 nodes among its k least, and that was the next tree of its list;
/// `OutOfMemory` if memory is refused or 32-bit numbers run out. After an error the lists are of no
/// use.
///
/// A state takes each candidate once. A candidate costs O(log n) comparisons for the n candidates
/// that wait in its state, and one look-up by hash (Huang and Chiang 2005, with trees that are
/// already listed dropped).
pub fn ask_best<S: Semiring>(alloc: Global, lists: &mut Lists, k: u32) -> Result<(), AskError>
    requires some { 0 < k }
    requires start { 0 < length lists.old.lists }
    requires firsts { AreFirsts S.product lists.old }
    requires trimmed { AreTrimmed lists.old }
    requires orderly { IsOrderly S.product lists.old.rules }
    ensures best { OnOk result (IsKBest S.product lists.old.rules lists.old.labels k
        (entries_of lists.new 0)) }
    ensures sound { OnOk result (IsSound lists.new) }
    ensures rules { OnOk result (lists.new.rules ≡ lists.old.rules) }
    ensures labels { OnOk result (lists.new.labels ≡ lists.old.labels) }
    ensures ranks { OnOk result (lists.new.label_ranks ≡ lists.old.label_ranks) }
    ensures states { OnOk result (length lists.new.lists ≡ length lists.old.lists) }
    ensures cause { IfErr result (IsAskCause S.product lists.old k) }
{
    match Asking::new::<S>(alloc, lists, k) {
        Ok(mut asking) => asking.ask_start::<S>(alloc, lists),
        Err(_) => Err(AskError::OutOfMemory),
    }
}

/// Does what `ask_best` does, with the same errors, over rules in deterministic form. It places few
/// entries: all states together have at most as many as there are states and nodes of the listed
/// trees of state 0.
///
/// A state that is asked for an entry first asks each state below its last tree, and charges that
/// to the entry that it has. The tree that it takes then is new, since no two rules make the same
/// tree. So one entry of the start costs no more entries than its last tree has nodes.
pub fn ask_lazily<S: Semiring>(alloc: Global, lists: &mut Lists, k: u32) -> Result<(), AskError>
    requires some { 0 < k }
    requires start { 0 < length lists.old.lists }
    requires firsts { AreFirsts S.product lists.old }
    requires trimmed { AreTrimmed lists.old }
    requires orderly { IsOrderly S.product lists.old.rules }
    requires form { IsDeterministicBelow lists.old.rules }
    ensures best { OnOk result (IsKBest S.product lists.old.rules lists.old.labels k
        (entries_of lists.new 0)) }
    ensures fronts { OnOk result ((q : ℕ) → IsFrontAt S.product lists.old.labels lists.old.rules q
        (entries_of lists.new q)) }
    ensures sound { OnOk result (IsSound lists.new) }
    ensures rules { OnOk result (lists.new.rules ≡ lists.old.rules) }
    ensures labels { OnOk result (lists.new.labels ≡ lists.old.labels) }
    ensures ranks { OnOk result (lists.new.label_ranks ≡ lists.old.label_ranks) }
    ensures states { OnOk result (length lists.new.lists ≡ length lists.old.lists) }
    ensures bound { OnOk result (entries_held lists.new
        ≤ length lists.old.lists + nodes_of (entries_of lists.new 0)) }
    ensures cause { IfErr result (IsAskCause S.product lists.old k) }
{
    lists.end_in_states();
    match Asking::new::<S>(alloc, lists, k) {
        Ok(mut asking) => asking.list_start::<S>(alloc, lists),
        Err(_) => Err(AskError::OutOfMemory),
    }
}
