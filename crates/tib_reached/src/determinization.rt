//! The vectors that are reached, with their rules.

ghost use Rattle.std.specs.Prelude.{◌≤◌, length, IfOk, IfErr};
ghost use Rattle.tib_expand.specs.Reached.{most_parts, IsBeyond};
ghost use Rattle.tib_expand.specs.Limits.{IfTooMany};
ghost use Rattle.tib_determinize.specs.Answered.{HasParts, IsAnswer};
ghost use Rattle.tib_determinize.specs.Determinization.{determinization};

use crate::hunters::Hunters;
use std::alloc::Global;
use std::sync::Wait;
use std::thread::Threads;
use tib_cost::Semiring;
use tib_determinize::{Residuals, Vector};
use tib_expand::{Found, Gate, HuntError};
use tib_grammar::Rule;
use tib_hunt::{hunt, hunt_alone};
use tib_normal::Normal;

/// The vectors that are reached from the labels over no state, in the order by rounds, and the
/// rules over their positions. A tree has at most one run to a vector, and its cost times the
/// residual of a state is the series at that state. `TooMany` exactly where they have more parts
/// than the limit, 1 to `MOST_PARTS` of tib_expand; `OutOfMemory` if memory is refused. Calls
/// `gate` once for each vector. Cost: for each vector one look for each place of each rule, the
/// entries of all vectors up to it if one of its states is beside another in a rule, and the edges
/// that are made. Residuals are from Mohri, 1997, and May and Knight, 2006.
pub fn determinize<S: Semiring, G: Gate>(
    alloc: Global,
    normal: &Normal<S>,
    limit: u64,
    gate: &G,
) -> Result<Found<Vector, Rule<u32>>, HuntError>
    requires some { 1 ≤ limit }
    requires limit { limit ≤ most_parts }
    ensures determinized { IfOk result (IsAnswer S.product normal.now.rules) }
    ensures parts { IfOk result (HasParts S.product normal.now.rules) }
    ensures within { IfOk result (λ f. f.parts ≤ limit) }
    ensures few { IfOk result (λ f. length f.order.items ≤ limit) }
    ensures few_rules { IfOk result (λ f. length f.rules.items ≤ limit) }
    ensures more { let hunted = determinization S.product normal.now.rules in
        IfErr result (IfTooMany limit (IsBeyond hunted limit)) }
{
    let Ok(residuals) = Residuals::new(alloc, normal) else {
        return Err(HuntError::OutOfMemory);
    };
    hunt_alone(alloc, &residuals, limit, gate)
}

/// What `determinize` returns, found by this number of workers, 1 to 16, whatever the order of
/// their steps. It may wait forever, as the hunt by several workers (`hunt` of tib_hunt). Errors
/// are those of `determinize`, and so is the cost, except for vectors that are expanded again.
pub fn determinize_together<S: Semiring + Sync, R: Threads + Wait + Sync, G: Gate + Sync>(
    hunters: &Hunters<R, G>,
    alloc: Global,
    normal: &Normal<S>,
    limit: u64,
) -> Result<Found<Vector, Rule<u32>>, HuntError>
    requires workers { (1 ≤ hunters.now.workers) × (hunters.now.workers ≤ 16) }
    requires some { 1 ≤ limit }
    requires limit { limit ≤ most_parts }
    ensures determinized { IfOk result (IsAnswer S.product normal.now.rules) }
    ensures parts { IfOk result (HasParts S.product normal.now.rules) }
    ensures within { IfOk result (λ f. f.parts ≤ limit) }
    ensures few { IfOk result (λ f. length f.order.items ≤ limit) }
    ensures few_rules { IfOk result (λ f. length f.rules.items ≤ limit) }
    ensures more { let hunted = determinization S.product normal.now.rules in
        IfErr result (IfTooMany limit (IsBeyond hunted limit)) }
{
    let Ok(residuals) = Residuals::new(alloc, normal) else {
        return Err(HuntError::OutOfMemory);
    };
    hunt(
        hunters.rt,
        alloc,
        &residuals,
        hunters.workers,
        limit,
        hunters.gate,
    )
}
