//! The states of a grammar with sets of states of another that are reached, with their rules.

ghost use Rattle.std.specs.Prelude.{◌≤◌, length, IfOk, IfErr};
ghost use Rattle.tib_expand.specs.Reached.{most_parts, IsBeyond};
ghost use Rattle.tib_expand.specs.Limits.{IfTooMany};
ghost use Rattle.tib_difference.specs.Answered.{HasParts, IsAnswer};
ghost use Rattle.tib_difference.specs.Difference.{difference};

use crate::hunters::Hunters;
use std::alloc::Global;
use std::sync::Wait;
use std::thread::Threads;
use tib_cost::{Boolean, Semiring};
use tib_difference::{Difference, SubsetKey};
use tib_expand::{Found, Gate, HuntError};
use tib_grammar::Rule;
use tib_hunt::{hunt, hunt_alone};
use tib_normal::Normal;

/// The keys that are reached from the rules over no state, in the order by rounds, and the rules
/// over their positions. A key is a state of `left` with the states of `right` from which the same
/// tree has runs. With a fresh start that leads to the keys of the start of `left` without that of
/// `right`, they give each tree its cost in `left` where it has no run in `right`, and none
/// otherwise. `TooMany` exactly where they have more parts than the limit, 1 to `MOST_PARTS` of
/// tib_expand; `OutOfMemory` if memory is refused. Calls `gate` once for each key. Cost: that of
/// `expand` of `Difference` for each key, in addition to the hunt's own (`hunt_alone`). The sets
/// are those of the subset construction of tree automata (Comon and others, 2007), and at most
/// exponentially many in the states of `right`.
pub fn subtract<S: Semiring, G: Gate>(
    alloc: Global,
    left: &Normal<S>,
    right: &Normal<Boolean>,
    limit: u64,
    gate: &G,
) -> Result<Found<SubsetKey, Rule<u32>>, HuntError>
    requires some { 1 ≤ limit }
    requires limit { limit ≤ most_parts }
    ensures reached { IfOk result (IsAnswer left.now.rules right.now.rules) }
    ensures parts { IfOk result (HasParts left.now.rules right.now.rules) }
    ensures within { IfOk result (λ f. f.parts ≤ limit) }
    ensures few { IfOk result (λ f. length f.order.items ≤ limit) }
    ensures few_rules { IfOk result (λ f. length f.rules.items ≤ limit) }
    ensures more { let hunted = difference left.now.rules right.now.rules in
        IfErr result (IfTooMany limit (IsBeyond hunted limit)) }
{
    let Ok(problem) = Difference::new(alloc, left, right) else {
        return Err(HuntError::OutOfMemory);
    };
    hunt_alone(alloc, &problem, limit, gate)
}

/// What `subtract` returns, found by this number of workers, 1 to 16, whatever the order of their
/// steps. It may wait forever, as the hunt by several workers (`hunt` of tib_hunt). Errors are
/// those of `subtract`, and so is the cost, except for keys that are expanded again.
pub fn subtract_together<S: Semiring + Sync, R: Threads + Wait + Sync, G: Gate + Sync>(
    hunters: &Hunters<R, G>,
    alloc: Global,
    left: &Normal<S>,
    right: &Normal<Boolean>,
    limit: u64,
) -> Result<Found<SubsetKey, Rule<u32>>, HuntError>
    requires workers { (1 ≤ hunters.now.workers) × (hunters.now.workers ≤ 16) }
    requires some { 1 ≤ limit }
    requires limit { limit ≤ most_parts }
    ensures reached { IfOk result (IsAnswer left.now.rules right.now.rules) }
    ensures parts { IfOk result (HasParts left.now.rules right.now.rules) }
    ensures within { IfOk result (λ f. f.parts ≤ limit) }
    ensures few { IfOk result (λ f. length f.order.items ≤ limit) }
    ensures few_rules { IfOk result (λ f. length f.rules.items ≤ limit) }
    ensures more { let hunted = difference left.now.rules right.now.rules in
        IfErr result (IfTooMany limit (IsBeyond hunted limit)) }
{
    let Ok(problem) = Difference::new(alloc, left, right) else {
        return Err(HuntError::OutOfMemory);
    };
    hunt(
        hunters.rt,
        alloc,
        &problem,
        hunters.workers,
        limit,
        hunters.gate,
    )
}
