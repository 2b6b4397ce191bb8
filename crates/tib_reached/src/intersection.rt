//! The pairs that are reached, with their rules.

ghost use Rattle.std.specs.Prelude.{◌≤◌, length, IfOk, IfErr};
ghost use Rattle.tib_expand.specs.Reached.{most_parts, IsBeyond};
ghost use Rattle.tib_expand.specs.Limits.{IfTooMany};
ghost use Rattle.tib_intersect.specs.Answered.{IsIntersection, IsGrammar, HasParts, HaveRootsOf};
ghost use Rattle.tib_intersect.specs.Intersection.{intersection};

use crate::hunters::Hunters;
use std::alloc::Global;
use std::sync::Wait;
use std::thread::Threads;
use tib_cost::Semiring;
use tib_expand::{Found, Gate, HuntError};
use tib_grammar::Rule;
use tib_hunt::{hunt, hunt_alone};
use tib_intersect::Pairs;
use tib_key_edges::StatePair;
use tib_normal::Normal;

/// The pairs that are reached from the pair of the starts, in the order by rounds, and the rules
/// over their positions. As a grammar whose start is position 0 they give each tree the product of
/// its two costs. `TooMany` exactly where they have more parts than the limit, 1 to `MOST_PARTS` of
/// tib_expand; `OutOfMemory` if memory is refused. Calls `gate` once for each pair. Cost: for each
/// pair the rules of its first state, each with one look-up by hash, and the edges that it makes,
/// in addition to the hunt's own (`hunt_alone`). The product of tree automata is from Comon and
/// others, 2007.
pub fn intersect<S: Semiring, G: Gate>(
    alloc: Global,
    left: &Normal<S>,
    right: &Normal<S>,
    limit: u64,
    gate: &G,
) -> Result<Found<StatePair, Rule<u32>>, HuntError>
    requires some { 1 ≤ limit }
    requires limit { limit ≤ most_parts }
    ensures reached { IfOk result (IsIntersection S.product left.now.rules right.now.rules) }
    ensures grammar { IfOk result (IsGrammar S.product left.now.rules right.now.rules) }
    ensures parts { IfOk result (HasParts S.product left.now.rules right.now.rules) }
    ensures within { IfOk result (λ f. f.parts ≤ limit) }
    ensures few { IfOk result (λ f. length f.order.items ≤ limit) }
    ensures few_rules { IfOk result (λ f. length f.rules.items ≤ limit) }
    ensures roots { IfOk result (HaveRootsOf left.now.rules) }
    ensures more { let hunted = intersection S.product left.now.rules right.now.rules in
        IfErr result (IfTooMany limit (IsBeyond hunted limit)) }
{
    let Ok(pairs) = Pairs::new(alloc, left, right) else {
        return Err(HuntError::OutOfMemory);
    };
    hunt_alone(alloc, &pairs, limit, gate)
}

/// What `intersect` returns, found by this number of workers, 1 to 16, whatever the order of their
/// steps. It may wait forever, as the hunt by several workers (`hunt` of tib_hunt). Errors are
/// those of `intersect`, and so is the cost, except for pairs that are expanded again.
pub fn intersect_together<S: Semiring + Sync, R: Threads + Wait + Sync, G: Gate + Sync>(
    hunters: &Hunters<R, G>,
    alloc: Global,
    left: &Normal<S>,
    right: &Normal<S>,
    limit: u64,
) -> Result<Found<StatePair, Rule<u32>>, HuntError>
    requires workers { (1 ≤ hunters.now.workers) × (hunters.now.workers ≤ 16) }
    requires some { 1 ≤ limit }
    requires limit { limit ≤ most_parts }
    ensures reached { IfOk result (IsIntersection S.product left.now.rules right.now.rules) }
    ensures grammar { IfOk result (IsGrammar S.product left.now.rules right.now.rules) }
    ensures parts { IfOk result (HasParts S.product left.now.rules right.now.rules) }
    ensures within { IfOk result (λ f. f.parts ≤ limit) }
    ensures few { IfOk result (λ f. length f.order.items ≤ limit) }
    ensures few_rules { IfOk result (λ f. length f.rules.items ≤ limit) }
    ensures roots { IfOk result (HaveRootsOf left.now.rules) }
    ensures more { let hunted = intersection S.product left.now.rules right.now.rules in
        IfErr result (IfTooMany limit (IsBeyond hunted limit)) }
{
    let Ok(pairs) = Pairs::new(alloc, left, right) else {
        return Err(HuntError::OutOfMemory);
    };
    hunt(
        hunters.rt,
        alloc,
        &pairs,
        hunters.workers,
        limit,
        hunters.gate,
    )
}
