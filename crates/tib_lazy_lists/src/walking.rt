// Asks a state for one more tree, from below.
ghost use Rattle.std.specs.Prelude.{◌≡◌, ◌<◌, ◌≤◌, ◌+◌, length, IfErr, IfNone, IfOk, IfSome, IsTrue, OnOk};
ghost use Rattle.std.proofs.Common.{get_or};
ghost use Rattle.tib_ranked_trees.specs.Levels.{IsOrderly, states_at};
ghost use Rattle.tib_ranked_trees.specs.Held.{below_of, candidate_at, list_of, ranks_from, IsTuple};
ghost use Rattle.tib_lazy_lists.specs.AskingOf.{asking_of};
ghost use Rattle.tib_lazy_lists.specs.Asks.{IsAnswered, IsAsking, StaysAsking, StaysGrammar, turns_left};
ghost use Rattle.tib_lazy_lists.specs.Stacks.{AreBelow, IsDone, IsNextBelow, IsReadyToTake, IsToAsk};
ghost use Rattle.tib_lazy_lists.specs.Causes.{IsAskCause};

use crate::asking::Asking;
use crate::error::AskError;
use std::alloc::{AllocError, Global};
use tib_cost::Semiring;
use tib_ranked_trees::Lists;

/// A state that is to be asked, with the candidate that it had taken last. If it has taken another
/// one since, it was asked.
#[derive(Clone, Copy, Debug)]
pub(crate) struct Question {
    /// The state.
    pub(crate) state: u32,
    /// The candidate.
    pub(crate) last: u32,
}

impl Asking {
    // Whether a state is still to be asked: it took no candidate since, and its list is neither
    // complete nor full.
    fn is_open<S: Semiring>(&self, lists: &Lists, question: Question) -> bool
        requires kept { IsAsking S.product lists.now (asking_of self.now) }
        requires state { question.state < length (asking_of self.now).states }
        ensures { IsTrue result → IsToAsk lists.now (asking_of self.now) question }
    {
        let Some(last) = self.last(question.state) else {
            return false;
        };
        if last != question.last {
            return false;
        }
        lists.len(question.state) < self.k as usize
    }

    // The question for the i-th state below a rule, if it is to be asked for the entry after the
    // i-th of the ranks from `start` on.
    pub(crate) fn below<S: Semiring>(
        &self,
        lists: &Lists,
        rule: u32,
        start: usize,
        i: usize,
    ) -> Option<Question>
        requires kept { IsAsking S.product lists.now (asking_of self.now) }
        requires tuple { IsTuple lists.now rule (ranks_from lists.now rule start) }
        requires below { i < length (states_at lists.now.rules rule) }
        ensures some { IfSome result (λ q. IsToAsk lists.now (asking_of self.now) q) }
        ensures at { IfSome result (λ q. q.state ≡ get_or (states_at lists.now.rules rule) i 0) }
        ensures end { IfSome result (λ q. length (list_of lists.now q.state)
            ≤ get_or (ranks_from lists.now rule start) i 0 + 1) }
        ensures none { IfNone result (IsAnswered S.product self.now.k lists.now
            (get_or (states_at lists.now.rules rule) i 0)
            (get_or (ranks_from lists.now rule start) i 0)) }
    {
        let state = lists.state(rule, i);
        let many = lists.len(state);
        if lists.rank(rule, start, i) as usize + 1 < many {
            return None;
        }
        if many >= self.k as usize {
            return None;
        }
        let last = self.last(state)?;
        Some(Question { state, last })
    }

    // One step of a pass over the states below a candidate. The question for the i-th state becomes
    // the next one. The one before it, at first that of the candidate's own state, goes onto the
    // stack.
    fn pass_below<S: Semiring>(
        &self,
        lists: &Lists,
        stack: &mut Vec<Question>,
        above: Question,
        next: Option<Question>,
        i: usize,
    ) -> Result<Option<Question>, AllocError>
        requires kept { IsAsking S.product lists.now (asking_of self.now) }
        requires stack { AreBelow (length (asking_of self.now).states) stack.old.items }
        requires above { IsToAsk lists.now (asking_of self.now) above }
        requires next { IsNextBelow S.product lists.now (asking_of self.now) above i next }
        requires below { i < length (below_of lists.now (candidate_at lists.now above.last)) }
        ensures next { IfOk result (λ o. IsNextBelow S.product lists.now (asking_of self.now) above
            (i + 1) o) }
        ensures stack { OnOk result (AreBelow (length (asking_of self.now).states)
            stack.new.items) }
    {
        let rule = lists.candidate(above.last).rule;
        let start = lists.candidate(above.last).start;
        let Some(question) = self.below::<S>(lists, rule, start, i) else {
            return Ok(next);
        };
        match next {
            None => stack.push(above)?,
            Some(earlier) => stack.push(earlier)?,
        }
        Ok(Some(question))
    }

    // The last of the states below a state's last candidate that are to be asked. The others go
    // onto the stack, above the state itself. None if each of them is answered.
    fn next_below<S: Semiring>(
        &self,
        lists: &Lists,
        stack: &mut Vec<Question>,
        above: Question,
    ) -> Result<Option<Question>, AllocError>
        requires kept { IsAsking S.product lists.now (asking_of self.now) }
        requires stack { AreBelow (length (asking_of self.now).states) stack.old.items }
        requires above { IsToAsk lists.now (asking_of self.now) above }
        ensures next { IfOk result (λ o. IsNextBelow S.product lists.now (asking_of self.now) above
            (length (below_of lists.now (candidate_at lists.now above.last))) o) }
        ensures stack { OnOk result (AreBelow (length (asking_of self.now).states)
            stack.new.items) }
    {
        let count = lists.count(lists.candidate(above.last).rule);
        let mut next = None;
        for i in 0..count {
            next = self.pass_below::<S>(lists, stack, above, next, i)?;
        }
        Ok(next)
    }

    // Goes down from a state that is to be asked to one that may take a candidate, and leaves those
    // between them on the stack.
    fn descend<S: Semiring>(
        &self,
        lists: &Lists,
        stack: &mut Vec<Question>,
        from: Question,
    ) -> Result<u32, AllocError>
        requires kept { IsAsking S.product lists.now (asking_of self.now) }
        requires stack { AreBelow (length (asking_of self.now).states) stack.old.items }
        requires from { IsToAsk lists.now (asking_of self.now) from }
        ensures ready { IfOk result (λ u. IsReadyToTake S.product lists.now (asking_of self.now)
            u) }
        ensures stack { OnOk result (AreBelow (length (asking_of self.now).states)
            stack.new.items) }
    {
        let mut question = from;
        let mut below = self.next_below::<S>(lists, stack, question)?;
        while let Some(next) = below {
            question = next;
            below = self.next_below::<S>(lists, stack, question)?;
        }
        Ok(question.state)
    }

    // Takes questions off the stack, up to one that is still open.
    fn next_open<S: Semiring>(&self, lists: &Lists, stack: &mut Vec<Question>) -> Option<Question>
        requires kept { IsAsking S.product lists.now (asking_of self.now) }
        requires stack { AreBelow (length (asking_of self.now).states) stack.old.items }
        ensures some { IfSome result (λ q. IsToAsk lists.now (asking_of self.now) q) }
        ensures stack { AreBelow (length (asking_of self.now).states) stack.new.items }
    {
        while let Some(question) = stack.pop() {
            if self.is_open::<S>(lists, question) {
                return Some(question);
            }
        }
        None
    }

    // Makes one state take its least candidate: the first one, on the way down from one that is to
    // be asked, that may take one.
    fn take_below<S: Semiring>(
        &mut self,
        alloc: Global,
        lists: &mut Lists,
        stack: &mut Vec<Question>,
        question: Question,
    ) -> Result<(), AskError>
        requires kept { IsAsking S.product lists.old (asking_of self.old) }
        requires orderly { IsOrderly S.product lists.old.rules }
        requires stack { AreBelow (length (asking_of self.old).states) stack.old.items }
        requires question { IsToAsk lists.old (asking_of self.old) question }
        ensures kept { OnOk result (IsAsking S.product lists.new (asking_of self.new)) }
        ensures stack { OnOk result (AreBelow (length (asking_of self.new).states)
            stack.new.items) }
        ensures grammar { OnOk result (StaysGrammar lists.old lists.new) }
        ensures same { OnOk result (StaysAsking (asking_of self.old) (asking_of self.new)) }
        ensures fewer { OnOk result (turns_left lists.new (asking_of self.new)
            < turns_left lists.old (asking_of self.old)) }
        ensures cause { IfErr result (IsAskCause S.product lists.old self.old.k) }
    {
        match self.descend::<S>(lists, stack, question) {
            Ok(state) => self.advance::<S>(alloc, lists, state),
            Err(_) => Err(AskError::OutOfMemory),
        }
    }

    // The question for a state; none if its list is complete or full.
    pub(crate) fn question<S: Semiring>(&self, lists: &Lists, state: u32) -> Option<Question>
        requires kept { IsAsking S.product lists.now (asking_of self.now) }
        requires state { state < length (asking_of self.now).states }
        ensures some { IfSome result (λ q. IsToAsk lists.now (asking_of self.now) q) }
        ensures none { IfNone result (IsDone lists.now (asking_of self.now) state) }
    {
        if lists.len(state) >= self.k as usize {
            return None;
        }
        let last = self.last(state)?;
        Some(Question { state, last })
    }

    // Asks a state for one more tree. If the tree that it takes is already listed, its list stays
    // as it is.
    pub(crate) fn ask<S: Semiring>(
        &mut self,
        alloc: Global,
        lists: &mut Lists,
        question: Question,
    ) -> Result<(), AskError>
        requires kept { IsAsking S.product lists.old (asking_of self.old) }
        requires orderly { IsOrderly S.product lists.old.rules }
        requires question { IsToAsk lists.old (asking_of self.old) question }
        ensures kept { OnOk result (IsAsking S.product lists.new (asking_of self.new)) }
        ensures grammar { OnOk result (StaysGrammar lists.old lists.new) }
        ensures same { OnOk result (StaysAsking (asking_of self.old) (asking_of self.new)) }
        ensures fewer { OnOk result (turns_left lists.new (asking_of self.new)
            < turns_left lists.old (asking_of self.old)) }
        ensures cause { IfErr result (IsAskCause S.product lists.old self.old.k) }
    {
        let mut stack = Vec::new(alloc);
        match self.take_below::<S>(alloc, lists, &mut stack, question) {
            Ok(()) => {}
            Err(error) => return Err(error),
        }
        while let Some(question) = self.next_open::<S>(lists, &mut stack) {
            match self.take_below::<S>(alloc, lists, &mut stack, question) {
                Ok(()) => {}
                Err(error) => return Err(error),
            }
        }
        Ok(())
    }
}
