//! The edges of a key, listed one after another within a budget of parts.

ghost use Rattle.std.specs.Prelude.{◌≡◌, ◌+◌, ◌<◌, length, OnOk, Err};
ghost use Rattle.tib_tree.specs.Trees.{size};
ghost use Rattle.tib_key_edges.specs.Listing.{IsReady, HasRule, IsWithinBudget};

use crate::side_rule::SideRule;
use std::alloc::Global;
use tib_cost::Cost;
use tib_expand::{Edges, ExpandError};
use tib_grammar::Side;

/// The edges of the key at a position, listed so far, within a budget of parts.
#[derive(Drop)]
pub struct SideListing<'a, K, H> {
    /// The keys of the ends, one after another. The keys of an edge are appended before the edge
    /// is.
    pub ends: Vec<K>,
    /// The edges.
    pub rules: Vec<SideRule<'a, H>>,
    /// The parts of the edges, added up: one for each edge, and the nodes of its side.
    pub parts: u64,
    /// The position.
    pub position: u32,
    /// The budget.
    pub budget: u64,
}

impl<'a, K, H> SideListing<'a, K, H> {
    /// The empty list of edges of the key at a position. It takes no memory.
    pub fn new(alloc: Global, position: u32, budget: u64) -> SideListing<'a, K, H>
        ensures position { result.position ≡ position }
        ensures budget { result.budget ≡ budget }
        ensures ends { length result.ends.items ≡ 0 }
        ensures rules { length result.rules.items ≡ 0 }
        ensures parts { result.parts ≡ 0 }
    {
        SideListing {
            ends: Vec::new(alloc),
            rules: Vec::new(alloc),
            parts: 0,
            position,
            budget,
        }
    }

    /// The number of the next end.
    pub fn next_end(&self) -> u32
        requires within { IsWithinBudget self.now }
        ensures { result ≡ length self.now.ends.items }
    {
        self.ends.len() as u32
    }

    /// Lists an edge to a side at a cost. The keys of its ends were appended, the first of them as
    /// the end `first_end`. `More` comes exactly where the edge has more parts than the budget
    /// leaves, `OutOfMemory` only if memory is refused; the list then keeps its edges and ends.
    pub fn add(&mut self, side: &'a Side<H>, first_end: u32, cost: Cost) -> Result<(), ExpandError>
        requires ready { IsReady side.now self.old }
        ensures rule { OnOk result (HasRule side.now first_end cost self.old self.new) }
        ensures more { result ≡ Err ExpandError.More →
            self.old.budget < self.old.parts + (1 + size side.now) }
        ensures within { OnOk result (IsWithinBudget self.new) }
        ensures ends { self.new.ends.items ≡ self.old.ends.items }
        ensures position { self.new.position ≡ self.old.position }
        ensures budget { self.new.budget ≡ self.old.budget }
    {
        let nodes = side.items().len() as u64;
        let left = self.budget - self.parts;
        if nodes >= left {
            return Err(ExpandError::More);
        }
        let rule = SideRule {
            position: self.position,
            side,
            first_end,
            cost,
        };
        match self.rules.push(rule) {
            Ok(()) => {}
            Err(_) => return Err(ExpandError::OutOfMemory),
        }
        self.parts += 1 + nodes;
        Ok(())
    }

    /// The ends, the rules and their parts.
    pub fn into_edges(self) -> Edges<K, SideRule<'a, H>>
        ensures ends { result.ends.items ≡ self.entry.ends.items }
        ensures rules { result.rules.items ≡ self.entry.rules.items }
        ensures parts { result.parts ≡ self.entry.parts }
    {
        let SideListing {
            ends,
            rules,
            parts,
            ..
        } = self;
        Edges { ends, rules, parts }
    }
}
