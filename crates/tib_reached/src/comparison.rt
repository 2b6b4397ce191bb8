//! The comparison of the supports of two grammars.

ghost use Rattle.std.specs.Prelude.{◌≤◌, length, IfOk, IfErr};
ghost use Rattle.tib_grammar_file.specs.Printed.{AreLabelled};
ghost use Rattle.tib_expand.specs.Reached.{most_parts};
ghost use Rattle.tib_grammar.specs.Run.{AreFree};
ghost use Rattle.tib_compare.specs.Compared.{IsCompared, IsSmall};
ghost use Rattle.tib_compare.specs.Faults.{IsCause, IsWithin};

use crate::determinization::{determinize, determinize_together};
use crate::hunters::Hunters;
use std::alloc::Global;
use std::sync::Wait;
use std::thread::Threads;
use tib_compare::{CompareError, Compared, compare_vectors, fault_of, side_by_side};
use tib_cost::Boolean;
use tib_expand::Gate;
use tib_normal::Normal;
use tib_tree::Labels;

/// Compares the supports of two grammars without costs, over one table of labels: `Same` exactly
/// where every tree has a cost in both or in neither; else the least tree, in the order of trees,
/// that has a cost in exactly one, and which one. `TooMany` comes only where the vectors of both
/// side by side have more parts than the limit, 1 to `MOST_PARTS` of tib_expand; `TreeTooLarge`
/// exactly where they have no more, the supports differ and that least tree has more than 10,000
/// nodes; `OutOfMemory` if memory is refused, which says nothing of the grammars. Calls `gate` once
/// for each vector. Worst case: that of `determinize` over both, then O(r log r) comparisons of
/// trees for r rules over vectors, and that of `weigh` for one tree. The order of first trees is
/// from Knuth, 1977.
pub fn compare_alone<G: Gate>(
    alloc: Global,
    left: &Normal<Boolean>,
    right: &Normal<Boolean>,
    labels: &Labels,
    limit: u64,
    gate: &G,
) -> Result<Compared, CompareError>
    requires some { 1 ≤ limit }
    requires limit { limit ≤ most_parts }
    requires left_free { AreFree left.now.rules }
    requires right_free { AreFree right.now.rules }
    requires left_labelled { AreLabelled (length labels.now) left.now.rules }
    requires right_labelled { AreLabelled (length labels.now) right.now.rules }
    ensures compared { IfOk result (IsCompared labels.now left.now.rules right.now.rules) }
    ensures small { IfOk result IsSmall }
    ensures within { IfOk result (λ _. IsWithin left.now right.now limit) }
    ensures cause { IfErr result (IsCause left.now right.now limit) }
{
    let Ok(both) = side_by_side(alloc, left, right) else {
        return Err(CompareError::OutOfMemory);
    };
    match determinize::<Boolean, G>(alloc, &both, limit, gate) {
        Ok(found) => compare_vectors(alloc, left, right, labels, limit, &found),
        Err(error) => Err(fault_of(error)),
    }
}

/// What `compare_alone` returns, found by this number of workers, 1 to 16, whatever the order of
/// their steps. It may wait forever, as the hunt by several workers (`hunt` of tib_hunt). Errors
/// and cost are those of `compare_alone`, except for vectors that are expanded again.
pub fn compare_supports<R: Threads + Wait + Sync, G: Gate + Sync>(
    hunters: &Hunters<R, G>,
    alloc: Global,
    left: &Normal<Boolean>,
    right: &Normal<Boolean>,
    labels: &Labels,
    limit: u64,
) -> Result<Compared, CompareError>
    requires workers { (1 ≤ hunters.now.workers) × (hunters.now.workers ≤ 16) }
    requires some { 1 ≤ limit }
    requires limit { limit ≤ most_parts }
    requires left_free { AreFree left.now.rules }
    requires right_free { AreFree right.now.rules }
    requires left_labelled { AreLabelled (length labels.now) left.now.rules }
    requires right_labelled { AreLabelled (length labels.now) right.now.rules }
    ensures compared { IfOk result (IsCompared labels.now left.now.rules right.now.rules) }
    ensures small { IfOk result IsSmall }
    ensures within { IfOk result (λ _. IsWithin left.now right.now limit) }
    ensures cause { IfErr result (IsCause left.now right.now limit) }
{
    let Ok(both) = side_by_side(alloc, left, right) else {
        return Err(CompareError::OutOfMemory);
    };
    match determinize_together::<Boolean, R, G>(hunters, alloc, &both, limit) {
        Ok(found) => compare_vectors(alloc, left, right, labels, limit, &found),
        Err(error) => Err(fault_of(error)),
    }
}
