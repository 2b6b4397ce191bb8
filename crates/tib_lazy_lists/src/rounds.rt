// Demands that are met, those below others first.
ghost use Rattle.std.specs.Prelude.{◌≡◌, ◌<◌, ◌≤◌, ◌+◌, ℕ, length, IfErr, IfNone, IfSome, OnOk};
ghost use Rattle.tib_ranked_trees.specs.Below.{IsDeterministicBelow};
ghost use Rattle.tib_grammar.specs.Range.{SidesEndInHoles};
ghost use Rattle.tib_ranked_trees.specs.Best.{IsFrontAt, IsKBest};
ghost use Rattle.tib_ranked_trees.specs.Levels.{IsOrderly};
ghost use Rattle.tib_ranked_trees.specs.Held.{below_of, candidate_at, entries_of, list_of, IsSound};
ghost use Rattle.tib_lazy_lists.specs.AskingOf.{asking_of, state_at};
ghost use Rattle.tib_lazy_lists.specs.Asks.{AreAnswered, IsAsking, StaysAsking, StaysGrammar};
ghost use Rattle.tib_lazy_lists.specs.Stacks.{IsDone};
ghost use Rattle.tib_lazy_lists.specs.Causes.{IsAskCause};
ghost use Rattle.tib_lazy_lists.specs.Demands.{entries_held, nodes_of, AreLastListed, IsOneMore, IsRound, IsUnmet, IsWithin};

use crate::asking::Asking;
use crate::demanding::Demand;
use crate::error::AskError;
use std::alloc::Global;
use tib_cost::Semiring;
use tib_ranked_trees::Lists;

impl Asking {
    // Makes a state take its least candidate, and lists the candidate's tree, which is new in
    // deterministic form.
    fn grow<S: Semiring>(
        &mut self,
        alloc: Global,
        lists: &mut Lists,
        demand: Demand,
    ) -> Result<(), AskError>
        requires kept { IsAsking S.product lists.old (asking_of self.old) }
        requires listed { AreLastListed lists.old (asking_of self.old) }
        requires unmet { IsUnmet lists.old (asking_of self.old) demand }
        requires orderly { IsOrderly S.product lists.old.rules }
        requires form { IsDeterministicBelow lists.old.rules }
        requires leaves { SidesEndInHoles lists.old.rules }
        requires answered { let c = candidate_at lists.old
            (state_at (asking_of self.old) demand.state).last in
            AreAnswered S.product self.old.k lists.old c (length (below_of lists.old c)) }
        ensures kept { OnOk result (IsAsking S.product lists.new (asking_of self.new)) }
        ensures listed { OnOk result (AreLastListed lists.new (asking_of self.new)) }
        ensures more { OnOk result (IsOneMore lists.old (asking_of self.old) demand lists.new
            (asking_of self.new)) }
        ensures grammar { OnOk result (StaysGrammar lists.old lists.new) }
        ensures same { OnOk result (StaysAsking (asking_of self.old) (asking_of self.new)) }
        ensures cause { IfErr result (IsAskCause S.product lists.old self.old.k) }
    {
        match self.draw::<S>(lists, demand.state) {
            Err(_) => Err(AskError::OutOfMemory),
            Ok(None) => Ok(()),
            Ok(Some(candidate)) => self.list::<S>(alloc, lists, demand.state, candidate),
        }
    }

    // Meets a demand, if those below its state's last candidate are met.
    fn meet<S: Semiring>(
        &mut self,
        alloc: Global,
        lists: &mut Lists,
        demand: Demand,
    ) -> Result<(), AskError>
        requires kept { IsAsking S.product lists.old (asking_of self.old) }
        requires listed { AreLastListed lists.old (asking_of self.old) }
        requires state { demand.state < length (asking_of self.old).states }
        requires many { demand.many ≤ length (list_of lists.old demand.state) }
        requires orderly { IsOrderly S.product lists.old.rules }
        requires form { IsDeterministicBelow lists.old.rules }
        requires leaves { SidesEndInHoles lists.old.rules }
        requires answered { IsUnmet lists.old (asking_of self.old) demand →
            let c = candidate_at lists.old (state_at (asking_of self.old) demand.state).last in
            AreAnswered S.product self.old.k lists.old c (length (below_of lists.old c)) }
        ensures kept { OnOk result (IsAsking S.product lists.new (asking_of self.new)) }
        ensures listed { OnOk result (AreLastListed lists.new (asking_of self.new)) }
        ensures more { OnOk result (IsOneMore lists.old (asking_of self.old) demand lists.new
            (asking_of self.new)) }
        ensures grammar { OnOk result (StaysGrammar lists.old lists.new) }
        ensures same { OnOk result (StaysAsking (asking_of self.old) (asking_of self.new)) }
        ensures cause { IfErr result (IsAskCause S.product lists.old self.old.k) }
    {
        match self.unmet::<S>(lists, demand) {
            Some(_) => self.grow::<S>(alloc, lists, demand),
            None => Ok(()),
        }
    }

    // Meets a demand, after those to which it leads.
    fn round<S: Semiring>(
        &mut self,
        alloc: Global,
        lists: &mut Lists,
        first: Demand,
    ) -> Result<(), AskError>
        requires kept { IsAsking S.product lists.old (asking_of self.old) }
        requires listed { AreLastListed lists.old (asking_of self.old) }
        requires first { IsUnmet lists.old (asking_of self.old) first }
        requires orderly { IsOrderly S.product lists.old.rules }
        requires form { IsDeterministicBelow lists.old.rules }
        requires leaves { SidesEndInHoles lists.old.rules }
        ensures kept { OnOk result (IsAsking S.product lists.new (asking_of self.new)) }
        ensures listed { OnOk result (AreLastListed lists.new (asking_of self.new)) }
        ensures round { OnOk result (IsRound lists.old first lists.new (asking_of self.new)) }
        ensures grammar { OnOk result (StaysGrammar lists.old lists.new) }
        ensures same { OnOk result (StaysAsking (asking_of self.old) (asking_of self.new)) }
        ensures cause { IfErr result (IsAskCause S.product lists.old self.old.k) }
    {
        let Ok(mut order) = self.demands::<S>(alloc, lists, first) else {
            return Err(AskError::OutOfMemory);
        };
        while let Some(demand) = order.pop() {
            match self.meet::<S>(alloc, lists, demand) {
                Ok(()) => {}
                Err(error) => return Err(error),
            }
        }
        Ok(())
    }

    // The demand for one more entry of the start; none if its list is complete or full.
    fn start_demand<S: Semiring>(&self, lists: &Lists) -> Option<Demand>
        requires kept { IsAsking S.product lists.now (asking_of self.now) }
        requires start { 0 < length (asking_of self.now).states }
        ensures some { IfSome result (λ d. IsUnmet lists.now (asking_of self.now) d) }
        ensures start { IfSome result (λ d. d.state ≡ 0) }
        ensures none { IfNone result (IsDone lists.now (asking_of self.now) 0) }
    {
        let demand = Demand {
            state: 0,
            many: lists.len(0),
        };
        match self.unmet::<S>(lists, demand) {
            Some(_) => Some(demand),
            None => None,
        }
    }

    // Demands entries of the start until it has k trees, or all.
    pub(crate) fn list_start<S: Semiring>(
        &mut self,
        alloc: Global,
        lists: &mut Lists,
    ) -> Result<(), AskError>
        requires kept { IsAsking S.product lists.old (asking_of self.old) }
        requires listed { AreLastListed lists.old (asking_of self.old) }
        requires within { IsWithin (length lists.old.lists) lists.old (asking_of self.old) }
        requires orderly { IsOrderly S.product lists.old.rules }
        requires form { IsDeterministicBelow lists.old.rules }
        requires leaves { SidesEndInHoles lists.old.rules }
        requires start { 0 < length (asking_of self.old).states }
        ensures best { OnOk result (IsKBest S.product lists.old.rules lists.old.labels self.old.k
            (entries_of lists.new 0)) }
        ensures fronts { OnOk result ((q : ℕ) → IsFrontAt S.product lists.old.labels
            lists.old.rules q (entries_of lists.new q)) }
        ensures sound { OnOk result (IsSound lists.new) }
        ensures grammar { OnOk result (StaysGrammar lists.old lists.new) }
        ensures bound { OnOk result (entries_held lists.new
            ≤ length lists.old.lists + nodes_of (entries_of lists.new 0)) }
        ensures cause { IfErr result (IsAskCause S.product lists.old self.old.k) }
    {
        while let Some(first) = self.start_demand::<S>(lists) {
            match self.round::<S>(alloc, lists, first) {
                Ok(()) => {}
                Err(error) => return Err(error),
            }
        }
        Ok(())
    }
}
