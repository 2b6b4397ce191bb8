//! The edges of a position, listed one after another within a budget of parts.

ghost use Rattle.std.specs.Prelude.{◌≡◌, ◌+◌, ◌<◌, ◌≤◌, ◌^◌, length, OnOk, Err};
ghost use Rattle.tib_expand.specs.Reached.{most_parts};
ghost use Rattle.tib_determinize.specs.Stepped.{IsAdded, IsWithinBudget};

use crate::settling::Step;
use crate::vector::Vector;
use crate::vector_rule::VectorRule;
use smallvec::SmallVec;
use std::alloc::Global;
use tib_expand::{Edges, ExpandError};
use tib_tree::Label;

/// Edges, as far as they are listed.
#[derive(Drop)]
pub(crate) struct VectorListing {
    ends: Vec<Vector>,
    rules: Vec<VectorRule>,
    parts: u64,
    budget: u64,
}

impl VectorListing {
    /// The empty list.
    pub fn new(alloc: Global, budget: u64) -> VectorListing
        ensures budget { result.budget ≡ budget }
        ensures ends { length result.ends.items ≡ 0 }
        ensures rules { length result.rules.items ≡ 0 }
        ensures parts { result.parts ≡ 0 }
    {
        VectorListing {
            ends: Vec::new(alloc),
            rules: Vec::new(alloc),
            parts: 0,
            budget,
        }
    }

    /// Lists the edge of a step. `More` exactly where it has more parts than the budget leaves;
    /// then the list is as it was. `OutOfMemory` if memory is refused; then it may have an end
    /// without a rule. Cost: one step for each position.
    pub fn add(
        &mut self,
        alloc: Global,
        label: Label,
        positions: &[u32],
        step: Step,
    ) -> Result<(), ExpandError>
        requires few { length positions.now < 2 ^ 32 }
        requires within { IsWithinBudget self.old }
        ensures added { OnOk result (IsAdded label positions.now step.cost step.vector self.old
            self.new) }
        ensures more { result ≡ Err ExpandError.More → self.old.budget < self.old.parts
            + (2 + length positions.now) }
        ensures within { OnOk result (IsWithinBudget self.new) }
        ensures budget { self.new.budget ≡ self.old.budget }
    {
        let parts = self.parts + 2 + positions.len() as u64;
        if parts > self.budget {
            return Err(ExpandError::More);
        }
        let Ok(positions) = SmallVec::from_slice(alloc, positions) else {
            return Err(ExpandError::OutOfMemory);
        };
        let Step { cost, vector } = step;
        let end = self.ends.len() as u32;
        let Ok(()) = self.ends.push(vector) else {
            return Err(ExpandError::OutOfMemory);
        };
        let rule = VectorRule {
            end,
            label,
            positions,
            cost,
        };
        let Ok(()) = self.rules.push(rule) else {
            return Err(ExpandError::OutOfMemory);
        };
        self.parts = parts;
        Ok(())
    }

    /// The ends, the rules and their parts.
    pub fn into_edges(self) -> Edges<Vector, VectorRule>
        ensures ends { result.ends.items ≡ self.ends.items }
        ensures rules { result.rules.items ≡ self.rules.items }
        ensures parts { result.parts ≡ self.parts }
    {
        let VectorListing {
            ends,
            rules,
            parts,
            ..
        } = self;
        Edges { ends, rules, parts }
    }
}
