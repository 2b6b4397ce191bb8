// The demands to which a demand for a state's next entry leads, down its last trees.
ghost use Rattle.std.specs.Prelude.{◌≡◌, ◌⊎◌, ◌<◌, ◌≤◌, ◌+◌, ℕ, length, IfNone, IfOk, IfSome, OnOk};
ghost use Rattle.std.proofs.Common.{get_or};
ghost use Rattle.tib_lex.specs.Lists.{Has};
ghost use Rattle.tib_tree.specs.Trees.{size};
ghost use Rattle.tib_ranked_trees.specs.Levels.{states_at};
ghost use Rattle.tib_ranked_trees.specs.Pass.{entry_at};
ghost use Rattle.tib_ranked_trees.specs.Held.{entries_of, list_of, ranks_from, tree_by, IsTuple};
ghost use Rattle.tib_lazy_lists.specs.AskingOf.{asking_of, state_at};
ghost use Rattle.tib_lazy_lists.specs.Asks.{IsAsking};
ghost use Rattle.tib_lazy_lists.specs.Demands.{demand_below, nodes_at, nodes_behind, AreLastListed, AreLed, AreUnmet, HoldsBelow, IsMet, IsUnmet};
ghost use Rattle.tib_lazy_lists.specs.declared.asking.Stage.TheVariants.{Whole};
ghost use Rattle.tib_lazy_lists.specs.declared.demanding.Demand.{Demand};

use crate::asking::Asking;
use std::alloc::{AllocError, Global};
use tib_cost::Semiring;
use tib_ranked_trees::Lists;

/// A state of which one more entry than these is demanded.
#[derive(Clone, Copy, Debug)]
pub(crate) struct Demand {
    /// The state.
    pub(crate) state: u32,
    /// How many entries it has.
    pub(crate) many: usize,
}

impl Asking {
    // The candidate that a state took last, if a demand is not met; none if it is.
    pub(crate) fn unmet<S: Semiring>(&self, lists: &Lists, demand: Demand) -> Option<u32>
        requires kept { IsAsking S.product lists.now (asking_of self.now) }
        requires state { demand.state < length (asking_of self.now).states }
        ensures last { IfSome result (λ m. m ≡ (state_at (asking_of self.now) demand.state).last) }
        ensures left { IfSome result (λ _.
            (state_at (asking_of self.now) demand.state).stage ≡ Whole → ⊥) }
        ensures few { IfSome result (λ _. length (list_of lists.now demand.state) ≤ demand.many) }
        ensures free { IfSome result (λ _. length (list_of lists.now demand.state) < self.now.k) }
        ensures none { IfNone result (IsMet lists.now (asking_of self.now) demand) }
    {
        let many = lists.len(demand.state);
        if demand.many < many {
            return None;
        }
        if many >= self.k as usize {
            return None;
        }
        self.last(demand.state)
    }

    // Pushes the demand for the entry after the i-th of the ranks from `start` on onto the stack,
    // unless it is met.
    fn push_demand<S: Semiring>(
        &self,
        lists: &Lists,
        stack: &mut Vec<Demand>,
        rule: u32,
        start: usize,
        i: usize,
    ) -> Result<(), AllocError>
        requires kept { IsAsking S.product lists.now (asking_of self.now) }
        requires tuple { IsTuple lists.now rule (ranks_from lists.now rule start) }
        requires below { i < length (states_at lists.now.rules rule) }
        requires stack { AreUnmet lists.now (asking_of self.now) stack.old.items }
        ensures stack { OnOk result (AreUnmet lists.now (asking_of self.now) stack.new.items) }
        ensures kept { OnOk result ((d : Demand) → Has stack.old.items d → Has stack.new.items d) }
        ensures there { OnOk result (let d = demand_below lists.now rule
            (ranks_from lists.now rule start) i in
            Has stack.new.items d ⊎ IsMet lists.now (asking_of self.now) d) }
        ensures nodes { OnOk result (nodes_behind lists.now stack.new.items
            ≤ nodes_behind lists.now stack.old.items
            + size (entry_at (entries_of lists.now) (get_or (states_at lists.now.rules rule) i 0)
            (get_or (ranks_from lists.now rule start) i 0)).0) }
    {
        let demand = Demand {
            state: lists.state(rule, i),
            many: lists.rank(rule, start, i) as usize + 1,
        };
        match self.unmet::<S>(lists, demand) {
            None => Ok(()),
            Some(_) => {
                stack.push(demand)?;
                Ok(())
            }
        }
    }

    // Pushes the unmet demands for the entries after the ranks from `start` on onto the stack. They
    // have fewer nodes than the tree that the rule makes.
    fn push_demands<S: Semiring>(
        &self,
        lists: &Lists,
        stack: &mut Vec<Demand>,
        rule: u32,
        start: usize,
    ) -> Result<(), AllocError>
        requires kept { IsAsking S.product lists.now (asking_of self.now) }
        requires tuple { IsTuple lists.now rule (ranks_from lists.now rule start) }
        requires stack { AreUnmet lists.now (asking_of self.now) stack.old.items }
        ensures stack { OnOk result (AreUnmet lists.now (asking_of self.now) stack.new.items) }
        ensures kept { OnOk result ((d : Demand) → Has stack.old.items d → Has stack.new.items d) }
        ensures there { OnOk result ((i : ℕ) → i < length (states_at lists.now.rules rule) →
            let d = demand_below lists.now rule (ranks_from lists.now rule start) i in
            Has stack.new.items d ⊎ IsMet lists.now (asking_of self.now) d) }
        ensures nodes { OnOk result (nodes_behind lists.now stack.new.items + 1
            ≤ nodes_behind lists.now stack.old.items
            + size (tree_by lists.now rule (ranks_from lists.now rule start))) }
    {
        let count = lists.count(rule);
        for i in 0..count {
            self.push_demand::<S>(lists, stack, rule, start, i)?;
        }
        Ok(())
    }

    // Pushes the demands to which one leads onto the stack.
    fn expand<S: Semiring>(
        &self,
        lists: &Lists,
        stack: &mut Vec<Demand>,
        demand: Demand,
    ) -> Result<(), AllocError>
        requires kept { IsAsking S.product lists.now (asking_of self.now) }
        requires listed { AreLastListed lists.now (asking_of self.now) }
        requires demand { IsUnmet lists.now (asking_of self.now) demand }
        requires stack { AreUnmet lists.now (asking_of self.now) stack.old.items }
        ensures stack { OnOk result (AreUnmet lists.now (asking_of self.now) stack.new.items) }
        ensures kept { OnOk result ((d : Demand) → Has stack.old.items d → Has stack.new.items d) }
        ensures there { OnOk result (HoldsBelow
            (λ e. Has stack.new.items e ⊎ IsMet lists.now (asking_of self.now) e) lists.now
            (asking_of self.now) demand) }
        ensures nodes { OnOk result (nodes_behind lists.now stack.new.items + 1
            ≤ nodes_behind lists.now stack.old.items + nodes_at lists.now demand) }
    {
        let Some(last) = self.last(demand.state) else {
            return Ok(());
        };
        let rule = lists.candidate(last).rule;
        let start = lists.candidate(last).start;
        self.push_demands::<S>(lists, stack, rule, start)
    }

    // The demands to which one leads, with itself first, each before those below it. There are at
    // most as many as the entry after which the first one demands another has nodes.
    pub(crate) fn demands<S: Semiring>(
        &self,
        alloc: Global,
        lists: &Lists,
        first: Demand,
    ) -> Result<Vec<Demand>, AllocError>
        requires kept { IsAsking S.product lists.now (asking_of self.now) }
        requires listed { AreLastListed lists.now (asking_of self.now) }
        requires first { IsUnmet lists.now (asking_of self.now) first }
        ensures few { IfOk result (λ v. length v.items ≤ nodes_at lists.now first) }
        ensures unmet { IfOk result (λ v. AreUnmet lists.now (asking_of self.now) v.items) }
        ensures first { IfOk result (λ v. Has v.items first) }
        ensures led { IfOk result (λ v. AreLed (IsMet lists.now (asking_of self.now)) lists.now
            (asking_of self.now) v.items) }
    {
        let mut order = Vec::new(alloc);
        let mut stack = Vec::new(alloc);
        stack.push(first)?;
        while let Some(demand) = stack.pop() {
            order.push(demand)?;
            self.expand::<S>(lists, &mut stack, demand)?;
        }
        Ok(order)
    }
}
