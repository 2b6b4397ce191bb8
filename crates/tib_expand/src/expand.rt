//! What an operation gives the hunt: which keys and edges it hunts, and how it lists them.

ghost use Rattle.std.specs.Prelude.{◌≤◌, ◌<◌, ◌^◌, ℕ, List, [], length, take, IfOk, IfErr, OnOk};
ghost use Rattle.tib_lex.specs.Lists.{Each};
ghost use Rattle.tib_expand.specs.EdgeLists.{IsWithin};
ghost use Rattle.tib_expand.specs.Expanded.{
  ListsSeedEdges,
  ListsEdges,
  HasEnds,
  IsEndAt,
  SeedEdgesExceed,
  EdgesExceed,
  IfMore,
};
ghost use Rattle.tib_expand.specs.Lawful.{IsLawful};
ghost use Rattle.tib_expand.specs.Reached.{Exploration, most_parts};
ghost use Rattle.tib_expand.specs.Reading.{Reading, ReadsAlike, HasPositions};

use crate::key::TableKey;
use crate::place::{Edges, ExpandError};
use std::alloc::{AllocError, Global};

/// An operation whose keys are reached from seeds along edges. An edge comes from an origin, and a
/// list has it once for each origin that gives it.
pub trait Expand {
    /// What is reached.
    type Key: TableKey + Drop;

    /// A rule over places.
    type Over: Drop;

    /// The same rule over positions of the order.
    type Rule: Drop;

    /// What is kept of an order so that its positions are expanded faster. It grows with the order.
    type Index: Drop;

    /// Where an edge comes from. No value of it is made.
    type Origin;

    /// An edge over keys. No value of it is made.
    type Edge;

    // What is hunted: the seeds, the edges of the seeds and of each position of an order, their
    // ends and their parts.
    ghost hunted: { Self → Exploration Self.Key Self.Origin Self.Edge };

    // The keys that an order may have.
    ghost admits: { Self → Self.Key → Type 0 };

    // What an index of an order is.
    ghost indexes: { Self → List Self.Key → Self.Index → Type 0 };

    // Which edges the rules stand for.
    ghost reading: { Reading Self.Key Self.Edge Self.Over Self.Rule };

    /// The edges of the seeds, and the seeds. `More` comes exactly where these edges have more
    /// parts than the budget. `OutOfMemory` says nothing of the edges: it comes if memory is
    /// refused or a number of the code runs out.
    fn seeds(&self, alloc: Global, budget: u64) -> Result<Edges<Self::Key, Self::Over>, ExpandError>
        requires { budget ≤ most_parts }
        ensures listed { IfOk result (ListsSeedEdges (hunted self.now) reading) }
        ensures ends { IfOk result (HasEnds (hunted self.now).seed) }
        ensures within { IfOk result (λ r. r.parts ≤ budget) }
        ensures more { IfErr result (IfMore (SeedEdgesExceed (hunted self.now) budget)) };

    /// An index of the empty order. Err only if memory is refused.
    fn begin_index(&self, alloc: Global) -> Result<Self::Index, AllocError>
        ensures { IfOk result (indexes self.now []) };

    /// Takes the keys of the order from the position `from` on into an index of those before it.
    /// Err only if memory is refused; nothing is then promised of the index.
    fn extend_index(
        &self,
        alloc: Global,
        index: &mut Self::Index,
        order: &[Self::Key],
        from: u32,
    ) -> Result<(), AllocError>
        requires from { from ≤ length order.now }
        requires few { length order.now < 2 ^ 32 }
        requires admitted { Each (admits self.now) order.now }
        requires index { indexes self.now (take from order.now) index.old }
        ensures { OnOk result (indexes self.now order.now index.new) };

    /// The edges of the position `n` of the order, and their ends. The index is one of the whole
    /// order, which may have later keys than that at `n`. `More` comes exactly where these edges
    /// have more parts than the budget. `OutOfMemory` says nothing of the edges: it comes if memory
    /// is refused or a number of the code runs out.
    fn expand(
        &self,
        alloc: Global,
        order: &[Self::Key],
        index: &Self::Index,
        n: u32,
        budget: u64,
    ) -> Result<Edges<Self::Key, Self::Over>, ExpandError>
        requires position { n < length order.now }
        requires admitted { Each (admits self.now) order.now }
        requires indexed { indexes self.now order.now index.now }
        requires budget { budget ≤ most_parts }
        ensures listed { IfOk result (ListsEdges (hunted self.now) reading order.now n) }
        ensures ends { IfOk result (HasEnds (IsEndAt (hunted self.now) order.now n)) }
        ensures within { IfOk result (λ r. r.parts ≤ budget) }
        ensures more { IfErr result (IfMore (EdgesExceed (hunted self.now) order.now n budget)) };

    /// The rule with each of its ends replaced by that end's position. Err only if memory is
    /// refused.
    fn settle(
        &self,
        alloc: Global,
        rule: &Self::Over,
        ends: &[u32],
    ) -> Result<Self::Rule, AllocError>
        requires { (known : ℕ) × Each (IsWithin known (length ends.now)) (reading.places rule.now) }
        ensures read { IfOk result (ReadsAlike reading ends.now rule.now) }
        ensures positions { IfOk result (HasPositions reading ends.now rule.now) };

    // The laws that all keys, edges and rules of the operation keep.
    ghost lawful: { (p : Self) → IsLawful (hunted p) (admits p) reading Self.Key.cmp Self.Key.entries_of };
}
