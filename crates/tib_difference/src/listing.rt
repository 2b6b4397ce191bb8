//! The edges of a position, listed one after another within a budget of parts.

ghost use Rattle.std.specs.Prelude.{◌≡◌, ◌+◌, ◌<◌, ◌^◌, length, OnOk, Err};
ghost use Rattle.tib_difference.specs.Listing.{IsAdded, IsWithinBudget};

use crate::subset_key::SubsetKey;
use smallvec::SmallVec;
use std::alloc::Global;
use tib_cost::Cost;
use tib_determinize::VectorRule;
use tib_expand::{Edges, ExpandError};
use tib_tree::Label;

/// Edges, as far as they are listed.
#[derive(Drop)]
pub(crate) struct KeyListing {
    ends: Vec<SubsetKey>,
    rules: Vec<VectorRule>,
    parts: u64,
    budget: u64,
}

impl KeyListing {
    /// The empty list.
    pub fn new(alloc: Global, budget: u64) -> KeyListing
        ensures budget { result.budget ≡ budget }
        ensures ends { length result.ends.items ≡ 0 }
        ensures rules { length result.rules.items ≡ 0 }
        ensures parts { result.parts ≡ 0 }
    {
        KeyListing {
            ends: Vec::new(alloc),
            rules: Vec::new(alloc),
            parts: 0,
            budget,
        }
    }

    /// Lists the edge from a key by a label over the keys at some positions. `More` exactly where
    /// it has more parts than the budget leaves; then the list is as it was. `OutOfMemory` if
    /// memory is refused; then it may have an end without a rule. It takes one step.
    pub fn add(
        &mut self,
        label: Label,
        positions: SmallVec<u32, 4>,
        cost: Cost,
        key: SubsetKey,
    ) -> Result<(), ExpandError>
        requires few { length positions.items < 2 ^ 32 }
        requires within { IsWithinBudget self.old }
        ensures added { OnOk result (IsAdded label positions.items cost key self.old self.new) }
        ensures more { result ≡ Err ExpandError.More → self.old.budget < self.old.parts
            + (2 + length positions.items) }
        ensures within { OnOk result (IsWithinBudget self.new) }
        ensures budget { self.new.budget ≡ self.old.budget }
    {
        let parts = self.parts + 2 + positions.len() as u64;
        if parts > self.budget {
            return Err(ExpandError::More);
        }
        let end = self.ends.len() as u32;
        let Ok(()) = self.ends.push(key) else {
            return Err(ExpandError::OutOfMemory);
        };
        let rule = VectorRule {
            end,
            label,
            positions,
            cost,
        };
        let Ok(()) = self.rules.push(rule) else {
            return Err(ExpandError::OutOfMemory);
        };
        self.parts = parts;
        Ok(())
    }

    /// The ends, the rules and their parts.
    pub fn into_edges(self) -> Edges<SubsetKey, VectorRule>
        ensures ends { result.ends.items ≡ self.ends.items }
        ensures rules { result.rules.items ≡ self.rules.items }
        ensures parts { result.parts ≡ self.parts }
    {
        let KeyListing {
            ends,
            rules,
            parts,
            ..
        } = self;
        Edges { ends, rules, parts }
    }
}
