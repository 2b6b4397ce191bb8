//! The composition of two transducers: the pairs that are reached, with their rules.

ghost use Rattle.std.specs.Prelude.{◌≤◌, length, IfOk, IfErr, true, false};
ghost use Rattle.tib_transducer.specs.Outside.{demands, AllMeet};
ghost use Rattle.tib_expand.specs.Reached.{most_parts, IsBeyond};
ghost use Rattle.tib_transducer.specs.Range.{AreShaped};
ghost use Rattle.tib_key_edges.specs.Composition.{composition};
ghost use Rattle.tib_compose.specs.Composed.{AreOverOrder, HasPartsOf, IsComposeFault, IsReachedBy};

use crate::hunters::Hunters;
use std::alloc::Global;
use std::sync::Wait;
use std::thread::Threads;
use tib_compose::{ComposeError, Composite};
use tib_cost::Semiring;
use tib_expand::{Found, Gate};
use tib_hunt::{hunt, hunt_alone};
use tib_key_edges::StatePair;
use tib_transducer::{Transducer, TransducerRule};

/// The pairs of states that composition reaches from the pair of the starts, in the order by
/// rounds, and the rules over their positions. As a transducer whose start is position 0 they turn
/// each tree into each other one at the least cost over all trees between (`composes_series` of
/// tib_key_edges). `Class` exactly where the second transducer is not linear, nondeleting, not
/// extended and not labelled; `TooMany` exactly where it is and they have more parts than the
/// limit, 1 to `MOST_PARTS` of tib_expand; `OutOfMemory` if memory is refused. Calls `gate` once
/// for each pair. Cost: that of `Composite::new`, and for each pair and each rule of its state of
/// the first transducer a search of the translations of the rule's right-hand side, in addition to
/// the hunt's own (`hunt_alone`). The construction is from Engelfriet, 1975, and with weights from
/// Maletti, 2006.
pub fn compose<S: Semiring, G: Gate>(
    alloc: Global,
    first: &Transducer<S>,
    second: &Transducer<S>,
    limit: u64,
    gate: &G,
) -> Result<Found<StatePair, TransducerRule<u32>>, ComposeError>
    requires some { 1 ≤ limit }
    requires limit { limit ≤ most_parts }
    ensures class { IfOk result (λ _. AllMeet (demands true true true true false)
        second.now.rules) }
    ensures reached { IfOk result (IsReachedBy S.product first.now.rules second.now.rules) }
    ensures range { IfOk result AreOverOrder }
    ensures shaped { IfOk result (λ f. AreShaped f.rules.items) }
    ensures parts { IfOk result (HasPartsOf S.product first.now.rules second.now.rules) }
    ensures within { IfOk result (λ f. f.parts ≤ limit) }
    ensures few { IfOk result (λ f. length f.order.items ≤ limit) }
    ensures few_rules { IfOk result (λ f. length f.rules.items ≤ limit) }
    ensures fault { let hunted = composition S.product first.now.rules second.now.rules in
        IfErr result (IsComposeFault second.now.rules limit (IsBeyond hunted limit)) }
{
    first.is_sound();
    let composite = Composite::new(alloc, first, second)?;
    let found = hunt_alone(alloc, &composite, limit, gate)?;
    Ok(found)
}

/// What `compose` returns, found by this number of workers, 1 to 16, whatever the order of their
/// steps. It may wait forever, as the hunt by several workers (`hunt` of tib_hunt). Errors are
/// those of `compose`, and so is the cost, except for pairs that are expanded again.
pub fn compose_together<S: Semiring + Sync, R: Threads + Wait + Sync, G: Gate + Sync>(
    hunters: &Hunters<R, G>,
    alloc: Global,
    first: &Transducer<S>,
    second: &Transducer<S>,
    limit: u64,
) -> Result<Found<StatePair, TransducerRule<u32>>, ComposeError>
    requires workers { (1 ≤ hunters.now.workers) × (hunters.now.workers ≤ 16) }
    requires some { 1 ≤ limit }
    requires limit { limit ≤ most_parts }
    ensures class { IfOk result (λ _. AllMeet (demands true true true true false)
        second.now.rules) }
    ensures reached { IfOk result (IsReachedBy S.product first.now.rules second.now.rules) }
    ensures range { IfOk result AreOverOrder }
    ensures shaped { IfOk result (λ f. AreShaped f.rules.items) }
    ensures parts { IfOk result (HasPartsOf S.product first.now.rules second.now.rules) }
    ensures within { IfOk result (λ f. f.parts ≤ limit) }
    ensures few { IfOk result (λ f. length f.order.items ≤ limit) }
    ensures few_rules { IfOk result (λ f. length f.rules.items ≤ limit) }
    ensures fault { let hunted = composition S.product first.now.rules second.now.rules in
        IfErr result (IsComposeFault second.now.rules limit (IsBeyond hunted limit)) }
{
    first.is_sound();
    let composite = Composite::new(alloc, first, second)?;
    let found = hunt(
        hunters.rt,
        alloc,
        &composite,
        hunters.workers,
        limit,
        hunters.gate,
    )?;
    Ok(found)
}
