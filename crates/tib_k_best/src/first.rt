// The first tree of each state.
ghost use Rattle.std.specs.Prelude.{◌≡◌, ℕ, ◌+◌, ◌<◌, ◌^◌, [], length, IfErr, IfNone, IfSome, OnOk};
ghost use Rattle.tib_ranked_trees.specs.Levels.{IsOrderly};
ghost use Rattle.tib_ranked_trees.specs.Held.{empty_lists, list_of, IsSound};
ghost use Rattle.tib_k_best.specs.Causes.{IsCause};
ghost use Rattle.tib_lazy_lists.specs.Firsts.{AreFirsts};
ghost use Rattle.tib_k_best.specs.Queues.{left_over, rules_before, IsQueue, IsSettled, IsTaken, StaysSame};

use crate::error::KBestError;
use crate::queue::Queue;
use std::alloc::{AllocError, Global};
use tib_cost::Semiring;
use tib_ranked_trees::Lists;
use tib_ranked_trees::heap::pop;

impl Queue {
    // Makes each rule wait for a state, or makes its first candidate, while no state has a tree.
    fn start<S: Semiring>(&mut self, lists: &mut Lists) -> Result<(), AllocError>
        requires few { length lists.old.rules < 2 ^ 32 }
        requires queue { IsQueue S.product lists.old self.old
            (rules_before (length lists.old.rules)) }
        requires none { (q : ℕ) → list_of lists.old q ≡ [] }
        ensures settled { OnOk result (IsSettled S.product lists.new self.new) }
        ensures same { OnOk result (StaysSame lists.old lists.new) }
    {
        let mut rest = lists.rules();
        while rest > 0 {
            rest -= 1;
            self.advance::<S>(lists, rest as u32, 0)?;
        }
        Ok(())
    }

    // Takes the least candidate.
    fn pop_least<S: Semiring>(&mut self, lists: &Lists) -> Option<u32>
        requires settled { IsSettled S.product lists.now self.old }
        ensures some { IfSome result (λ m. IsTaken S.product lists.now m self.new) }
        ensures less { IfSome result (λ _. left_over self.new + 1 ≡ left_over self.old) }
        ensures none { IfNone result (self.old.heap ≡ []) }
    {
        pop(lists, &mut self.heap)
    }

    // Settles the states, the least candidate first, until none waits.
    fn settle_all<S: Semiring>(
        &mut self,
        alloc: Global,
        lists: &mut Lists,
    ) -> Result<(), KBestError>
        requires orderly { IsOrderly S.product lists.old.rules }
        requires settled { IsSettled S.product lists.old self.old }
        ensures firsts { OnOk result (AreFirsts S.product lists.new) }
        ensures rules { OnOk result (lists.new.rules ≡ lists.old.rules) }
        ensures labels { OnOk result (lists.new.labels ≡ lists.old.labels) }
        ensures states { OnOk result (length lists.new.lists ≡ length lists.old.lists) }
        ensures cause { IfErr result (IsCause S.product lists.old.labels lists.old.rules 1) }
    {
        while let Some(candidate) = self.pop_least::<S>(lists) {
            match self.settle::<S>(alloc, lists, candidate) {
                Ok(()) => {}
                Err(error) => return Err(error),
            }
        }
        Ok(())
    }
}

/// Gives each state that has a tree its first one, in the order of costs and sizes (Knuth 1977), as
/// `ask_best` and `ask_lazily` of `tib_lazy_lists` require. The lists are those of `Lists::new`.
/// `TreeTooLarge` names a state whose first tree has more than 10,000 nodes; `OutOfMemory` comes if
/// memory is refused or 32-bit numbers run out. After an error the lists are of no use. Worst case:
/// O(r log r) comparisons of trees for r rules, and one pass over the states below each rule.
pub fn first_trees<S: Semiring>(alloc: Global, lists: &mut Lists) -> Result<(), KBestError>
    requires few { length lists.old.rules < 2 ^ 32 }
    requires orderly { IsOrderly S.product lists.old.rules }
    requires sound { IsSound lists.old }
    requires empty { lists.old ≡ empty_lists lists.old.rules lists.old.labels
        lists.old.label_ranks (length lists.old.lists) }
    ensures firsts { OnOk result (AreFirsts S.product lists.new) }
    ensures rules { OnOk result (lists.new.rules ≡ lists.old.rules) }
    ensures labels { OnOk result (lists.new.labels ≡ lists.old.labels) }
    ensures states { OnOk result (length lists.new.lists ≡ length lists.old.lists) }
    ensures cause { IfErr result (IsCause S.product lists.old.labels lists.old.rules 1) }
{
    let Ok(mut queue) = Queue::new(alloc, lists.states()) else {
        return Err(KBestError::OutOfMemory);
    };
    match queue.start::<S>(lists) {
        Ok(()) => {}
        Err(_) => return Err(KBestError::OutOfMemory),
    }
    queue.settle_all::<S>(alloc, lists)
}
