// One step of a state among the others.
ghost use Rattle.std.specs.Prelude.{◌≡◌, ◌<◌, ℕ, length, IfErr, IfNone, IfOk, OnOk};
ghost use Rattle.tib_ranked_trees.specs.Levels.{IsOrderly};
ghost use Rattle.tib_ranked_trees.specs.Held.{below_of, candidate_at, list_of};
ghost use Rattle.tib_lazy_lists.specs.AskingOf.{asking_of, state_at};
ghost use Rattle.tib_lazy_lists.specs.Asks.{AreAnswered, HasDrawn, IsAsking, IsTaking, StaysAsking, StaysGrammar, turns_left};
ghost use Rattle.tib_lazy_lists.specs.Demands.{IsPlacedOnce};
ghost use Rattle.tib_lazy_lists.specs.Offers.{AreMoreCandidates};
ghost use Rattle.tib_lazy_lists.specs.Causes.{IsAskCause};
ghost use Rattle.tib_lazy_lists.specs.declared.asking.Stage.TheVariants.{Whole};

use crate::asking::Asking;
use crate::error::AskError;
use crate::listing::list;
use std::alloc::{AllocError, Global};
use tib_cost::Semiring;
use tib_ranked_trees::Lists;

// The most nodes that a listed tree may have.
const MOST_NODES: u64 = tib_tree::MOST_NODES as u64;

impl Asking {
    // Makes a state take its least candidate, once the states below its last one were asked.
    pub(crate) fn draw<S: Semiring>(
        &mut self,
        lists: &mut Lists,
        state: u32,
    ) -> Result<Option<u32>, AllocError>
        requires kept { IsAsking S.product lists.old (asking_of self.old) }
        requires state { state < length (asking_of self.old).states }
        requires left { (state_at (asking_of self.old) state).stage ≡ Whole → ⊥ }
        requires free { length (list_of lists.old state) < self.old.k }
        requires orderly { IsOrderly S.product lists.old.rules }
        requires answered { let c = candidate_at lists.old
            (state_at (asking_of self.old) state).last in
            AreAnswered S.product self.old.k lists.old c (length (below_of lists.old c)) }
        ensures drawn { IfOk result (λ o. HasDrawn S.product lists.new (asking_of self.new) state
            o) }
        ensures whole { IfOk result (λ o. IfNone o
            ((state_at (asking_of self.new) state).stage ≡ Whole)) }
        ensures others { OnOk result ((q : ℕ) → (q ≡ state → ⊥) →
            state_at (asking_of self.new) q ≡ state_at (asking_of self.old) q) }
        ensures more { OnOk result (AreMoreCandidates lists.old lists.new) }
        ensures grammar { OnOk result (StaysGrammar lists.old lists.new) }
        ensures same { OnOk result (StaysAsking (asking_of self.old) (asking_of self.new)) }
        ensures fewer { OnOk result (turns_left lists.new (asking_of self.new)
            < turns_left lists.old (asking_of self.old)) }
    {
        let rules = &self.by_state[state as usize];
        let drawn = self.states[state as usize].draw::<S>(lists, rules)?;
        Ok(drawn)
    }

    // Lists the tree of the candidate that a state took, if it is new.
    pub(crate) fn list<S: Semiring>(
        &mut self,
        alloc: Global,
        lists: &mut Lists,
        state: u32,
        candidate: u32,
    ) -> Result<(), AskError>
        requires taking { IsTaking S.product lists.old (asking_of self.old) state candidate }
        requires orderly { IsOrderly S.product lists.old.rules }
        ensures kept { OnOk result (IsAsking S.product lists.new (asking_of self.new)) }
        ensures grammar { OnOk result (StaysGrammar lists.old lists.new) }
        ensures same { OnOk result (StaysAsking (asking_of self.old) (asking_of self.new)) }
        ensures states { OnOk result ((asking_of self.new).states ≡ (asking_of self.old).states) }
        ensures placed { OnOk result (IsPlacedOnce lists.old state candidate lists.new) }
        ensures turns { OnOk result (turns_left lists.new (asking_of self.new)
            ≡ turns_left lists.old (asking_of self.old)) }
        ensures cause { IfErr result (IsAskCause S.product lists.old self.old.k) }
    {
        if lists.candidate(candidate).size > MOST_NODES {
            return Err(AskError::TreeTooLarge { state });
        }
        match list(alloc, lists, &mut self.listed, state, candidate) {
            Ok(()) => Ok(()),
            Err(_) => Err(AskError::OutOfMemory),
        }
    }

    // Makes a state take its least candidate, and lists the candidate's tree if it is new.
    pub(crate) fn advance<S: Semiring>(
        &mut self,
        alloc: Global,
        lists: &mut Lists,
        state: u32,
    ) -> Result<(), AskError>
        requires kept { IsAsking S.product lists.old (asking_of self.old) }
        requires state { state < length (asking_of self.old).states }
        requires left { (state_at (asking_of self.old) state).stage ≡ Whole → ⊥ }
        requires free { length (list_of lists.old state) < self.old.k }
        requires orderly { IsOrderly S.product lists.old.rules }
        requires answered { let c = candidate_at lists.old
            (state_at (asking_of self.old) state).last in
            AreAnswered S.product self.old.k lists.old c (length (below_of lists.old c)) }
        ensures kept { OnOk result (IsAsking S.product lists.new (asking_of self.new)) }
        ensures grammar { OnOk result (StaysGrammar lists.old lists.new) }
        ensures same { OnOk result (StaysAsking (asking_of self.old) (asking_of self.new)) }
        ensures fewer { OnOk result (turns_left lists.new (asking_of self.new)
            < turns_left lists.old (asking_of self.old)) }
        ensures cause { IfErr result (IsAskCause S.product lists.old self.old.k) }
    {
        match self.draw::<S>(lists, state) {
            Err(_) => Err(AskError::OutOfMemory),
            Ok(None) => Ok(()),
            Ok(Some(candidate)) => self.list::<S>(alloc, lists, state, candidate),
        }
    }
}
