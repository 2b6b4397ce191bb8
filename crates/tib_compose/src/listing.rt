//! The edges of a pair, listed one after another within a budget of parts.

ghost use Rattle.std.specs.Prelude.{◌≡◌, ℕ, ◌+◌, ◌<◌, ◌≤◌, ◌++◌, ◌^◌, length, IfOk, OnOk, Err, []};
ghost use Rattle.tib_grammar.specs.Items.{pairs_of};
ghost use Rattle.tib_tree.specs.Trees.{IsOneTree, preorder_of};
ghost use Rattle.tib_expand.specs.Reached.{most_parts};
ghost use Rattle.tib_compose.specs.CompositionListing.{IsAdded, IsPlacedRule, IsTooMuch, IsWithinBudget, keys_in, placed};

use crate::placed_rule::PlacedRule;
use std::alloc::{AllocError, Global};
use tib_cost::Cost;
use tib_expand::{Edges, ExpandError, Place};
use tib_grammar::{Item, Side};
use tib_key_edges::StatePair;
use tib_transducer::{Pair, Variable};
use tib_tree::ShapeError;

/// The side of some items.
fn placed_side(items: Vec<Item<Pair<Place>>>) -> Side<Pair<Place>>
    requires few { length items.items < 2 ^ 32 }
    requires tree { IsOneTree (pairs_of items.items) }
    ensures { preorder_of result ≡ pairs_of items.items }
{
    match Side::from_preorder(items) {
        Ok(side) => side,
        Err(ShapeError::NotATree) => unreachable!(),
        Err(ShapeError::OutOfMemory) => unreachable!(),
    }
}

/// The items with a new end in place of the key of each pair.
fn place_items(
    alloc: Global,
    items: &[Item<Pair<StatePair>>],
    ends: &mut Vec<StatePair>,
) -> Result<Vec<Item<Pair<Place>>>, AllocError>
    requires few { length ends.old.items + length items.now < 2 ^ 32 }
    ensures items { IfOk result (λ v. v.items ≡ placed (length ends.old.items) items.now) }
    ensures ends { OnOk result (ends.new.items ≡ ends.old.items ++ keys_in items.now) }
{
    let mut done = Vec::with_capacity(alloc, items.len())?;
    for item in items {
        match item {
            Item::Label { label, rank } => {
                done.push(Item::Label {
                    label: *label,
                    rank: *rank,
                })?;
            }
            Item::Hole(pair) => {
                done.push(Item::Hole(Pair {
                    state: Place::End(ends.len() as u32),
                    variable: pair.variable,
                }))?;
                ends.push(pair.state)?;
            }
        }
    }
    Ok(done)
}

/// The edges of the pair at a position, as far as they are listed, within a budget of parts.
#[derive(Drop)]
pub struct CompositionListing<'a> {
    /// The ends, one after another.
    pub ends: Vec<StatePair>,
    /// The rules over places.
    pub rules: Vec<PlacedRule<'a>>,
    /// The parts of the rules.
    pub parts: u64,
    /// The position.
    pub position: u32,
    /// The budget.
    pub budget: u64,
}

impl<'a> CompositionListing<'a> {
    /// The empty list of edges of the pair at a position. It takes no memory and one step.
    pub fn new(alloc: Global, position: u32, budget: u64) -> CompositionListing<'a>
        ensures position { result.position ≡ position }
        ensures budget { result.budget ≡ budget }
        ensures ends { result.ends.items ≡ [] }
        ensures rules { result.rules.items ≡ [] }
        ensures parts { result.parts ≡ 0 }
    {
        CompositionListing {
            ends: Vec::new(alloc),
            rules: Vec::new(alloc),
            parts: 0,
            position,
            budget,
        }
    }

    /// The rule over places that reads a left-hand side and puts out some items at a cost, where
    /// each pair leads to a new end.
    fn placed_rule(
        &mut self,
        alloc: Global,
        left: &'a Side<Variable>,
        done: &[Item<Pair<StatePair>>],
        cost: Cost,
    ) -> Result<PlacedRule<'a>, AllocError>
        requires few { length self.old.ends.items ≤ most_parts }
        requires tree { IsOneTree (pairs_of done.now) }
        ensures rule { IfOk result (IsPlacedRule left.now done.now cost self.old self.new) }
    {
        if done.len() > 4_000_000_000 {
            return Err(AllocError);
        }
        let items = place_items(alloc, done, &mut self.ends)?;
        let right = placed_side(items);
        Ok(PlacedRule {
            position: self.position,
            left,
            right,
            cost,
        })
    }

    /// Lists an edge that reads a left-hand side and puts out some items at a cost. `More` where it
    /// has more parts than the budget leaves, otherwise `OutOfMemory`; the list may then have more
    /// ends, but has no more rules. Cost: one step for each item.
    pub fn add(
        &mut self,
        alloc: Global,
        left: &'a Side<Variable>,
        done: &[Item<Pair<StatePair>>],
        cost: Cost,
    ) -> Result<(), ExpandError>
        requires within { IsWithinBudget self.old }
        requires tree { IsOneTree (pairs_of done.now) }
        ensures added { OnOk result (IsAdded left.now done.now cost self.old self.new) }
        ensures more { result ≡ Err ExpandError.More → IsTooMuch left.now done.now self.old }
        ensures within { OnOk result (IsWithinBudget self.new) }
    {
        let Ok(rule) = self.placed_rule(alloc, left, done, cost) else {
            return Err(ExpandError::OutOfMemory);
        };
        let parts = self.parts + 1 + left.items().len() as u64 + rule.right.items().len() as u64;
        if parts > self.budget {
            return Err(ExpandError::More);
        }
        match self.rules.push(rule) {
            Ok(()) => {}
            Err(_) => return Err(ExpandError::OutOfMemory),
        }
        self.parts = parts;
        Ok(())
    }

    /// The ends, the rules and their parts. It takes no memory and one step.
    pub fn into_edges(self) -> Edges<StatePair, PlacedRule<'a>>
        ensures ends { result.ends.items ≡ self.entry.ends.items }
        ensures rules { result.rules.items ≡ self.entry.rules.items }
        ensures parts { result.parts ≡ self.entry.parts }
    {
        let CompositionListing {
            ends,
            rules,
            parts,
            ..
        } = self;
        Edges { ends, rules, parts }
    }
}
