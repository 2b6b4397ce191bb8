// How a rule goes on when states below it get their first trees.
ghost use Rattle.std.specs.Prelude.{◌≡◌, ℕ, ◌<◌, ◌≤◌, ◌+◌, ◌∷◌, [], List, length, OnOk};
ghost use Rattle.tib_grammar.specs.Run.{rule_at};
ghost use Rattle.tib_ranked_trees.specs.Levels.{states_of};
ghost use Rattle.tib_ranked_trees.specs.Held.{list_of, IsSound};
ghost use Rattle.tib_k_best.specs.Queues.{left_over, HasTrees, IsNextMissing, IsQueue, IsReleased, StaysSame};
ghost use Rattle.tib_k_best.specs.QueueOf.{waiting_at};

use crate::queue::{Queue, Waiting};
use std::alloc::AllocError;
use tib_cost::Semiring;
use tib_ranked_trees::Lists;
use tib_ranked_trees::heap::push;

// The first place, from a given one on, whose state has no tree; the number of the states if each
// has one.
pub(crate) fn next_missing(lists: &Lists, rule: u32, from: usize) -> usize
    requires sound { IsSound lists.now }
    requires rule { rule < length lists.now.rules }
    requires from { from ≤ length (states_of (rule_at lists.now.rules rule)) }
    requires before { HasTrees lists.now (states_of (rule_at lists.now.rules rule)) from }
    ensures { IsNextMissing lists.now (states_of (rule_at lists.now.rules rule)) result }
{
    let count = lists.count(rule);
    let mut place = from;
    while place < count {
        if lists.len(lists.state(rule, place)) == 0 {
            return place;
        }
        place += 1;
    }
    count
}

impl Queue {
    // Makes the first candidate of a rule whose states all have trees, unless it costs too much.
    fn begin<S: Semiring>(&mut self, lists: &mut Lists, rule: u32) -> Result<(), AllocError>
        requires queue { (out : List ℕ) × IsQueue S.product lists.old self.old (rule ∷ out) }
        requires rule { rule < length lists.old.rules }
        requires all { HasTrees lists.old (states_of (rule_at lists.old.rules rule))
            (length (states_of (rule_at lists.old.rules rule))) }
        ensures queue { OnOk result ((out : List ℕ) →
            IsQueue S.product lists.old self.old (rule ∷ out) →
            IsQueue S.product lists.new self.new out) }
        ensures same { OnOk result (StaysSame lists.old lists.new) }
        ensures waiting { OnOk result (self.new.waiting ≡ self.old.waiting) }
        ensures more { OnOk result (length self.new.heap ≤ length self.old.heap + 1) }
    {
        let start = lists.zeros(rule)?;
        let Some(candidate) = lists.make::<S>(rule, start)? else {
            return Ok(());
        };
        push(lists, &mut self.heap, candidate)
    }

    // Makes a rule wait for the first state, from a place on, that has no tree. If each has one,
    // makes its first candidate.
    pub(crate) fn advance<S: Semiring>(
        &mut self,
        lists: &mut Lists,
        rule: u32,
        from: usize,
    ) -> Result<(), AllocError>
        requires queue { (out : List ℕ) × IsQueue S.product lists.old self.old (rule ∷ out) }
        requires rule { rule < length lists.old.rules }
        requires from { from ≤ length (states_of (rule_at lists.old.rules rule)) }
        requires before { HasTrees lists.old (states_of (rule_at lists.old.rules rule)) from }
        ensures queue { OnOk result ((out : List ℕ) →
            IsQueue S.product lists.old self.old (rule ∷ out) →
            IsQueue S.product lists.new self.new out) }
        ensures same { OnOk result (StaysSame lists.old lists.new) }
        ensures waiting { OnOk result ((q : ℕ) → 0 < length (list_of lists.old q) →
            waiting_at self.new q ≡ waiting_at self.old q) }
        ensures more { OnOk result (left_over self.new ≤ left_over self.old + 1) }
    {
        let place = next_missing(lists, rule, from);
        if place >= lists.count(rule) {
            return self.begin::<S>(lists, rule);
        }
        let state = lists.state(rule, place);
        self.wait(
            state,
            Waiting {
                rule,
                place: place as u32,
            },
        )
    }

    // Advances all rules that wait for a state, which has got its first tree.
    pub(crate) fn release<S: Semiring>(
        &mut self,
        lists: &mut Lists,
        state: u32,
    ) -> Result<(), AllocError>
        requires queue { IsQueue S.product lists.old self.old [] }
        requires state { state < length lists.old.lists }
        requires tree { 0 < length (list_of lists.old state) }
        ensures queue { OnOk result (IsQueue S.product lists.new self.new []) }
        ensures same { OnOk result (StaysSame lists.old lists.new) }
        ensures released { OnOk result (IsReleased lists.old self.old state self.new) }
        ensures more { OnOk result (left_over self.new ≤ left_over self.old) }
    {
        while let Some(item) = self.pop_waiting(state) {
            self.advance::<S>(lists, item.rule, item.place as usize + 1)?;
        }
        Ok(())
    }
}
