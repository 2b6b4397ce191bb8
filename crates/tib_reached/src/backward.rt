// Backward application: the keys that are reached, with their rules.
ghost use Rattle.std.specs.Prelude.{◌≤◌, length, IfOk, IfErr, true, false};
ghost use Rattle.tib_transducer.specs.Outside.{demands, AllMeet};
ghost use Rattle.tib_expand.specs.Reached.{most_parts, IsBeyond};
ghost use Rattle.tib_apply.specs.Applied.{IsReachedBy, HasPartsOf, AreOverOrder, IsApplyFault};
ghost use Rattle.tib_apply.specs.Operations.{inverse_image};

use crate::hunters::Hunters;
use std::alloc::Global;
use std::sync::Wait;
use std::thread::Threads;
use tib_apply::{ApplyError, Backward, Key};
use tib_cost::Semiring;
use tib_expand::{Found, Gate};
use tib_grammar::Rule;
use tib_hunt::{hunt, hunt_alone};
use tib_normal::Normal;
use tib_transducer::Transducer;

/// The keys that backward application reaches from the key of the starts, with their rules. `Class`
/// exactly where the transducer is not linear and nondeleting; `TooMany` exactly where it is and
/// they have more parts than the limit, 1 to `MOST_PARTS` of tib_expand; `OutOfMemory` if memory is
/// refused. Calls `gate` once for each key. Cost: that of `Backward::new`, and for each key the
/// matches of the right-hand sides of the rules of its state and the edges that they make, in
/// addition to the hunt's own (`hunt_alone`).
pub fn apply_backward<S: Semiring, G: Gate>(
    alloc: Global,
    transducer: &Transducer<S>,
    grammar: &Normal<S>,
    limit: u64,
    gate: &G,
) -> Result<Found<Key, Rule<u32>>, ApplyError>
    requires some { 1 ≤ limit }
    requires limit { limit ≤ most_parts }
    ensures class { IfOk result (λ _. AllMeet (demands true true false false false)
        transducer.now.rules) }
    ensures reached { IfOk result (IsReachedBy (inverse_image S.product transducer.now.rules
        grammar.now.rules)) }
    ensures range { IfOk result AreOverOrder }
    ensures parts { IfOk result (HasPartsOf (inverse_image S.product transducer.now.rules
        grammar.now.rules)) }
    ensures within { IfOk result (λ f. f.parts ≤ limit) }
    ensures few { IfOk result (λ f. length f.order.items ≤ limit) }
    ensures few_rules { IfOk result (λ f. length f.rules.items ≤ limit) }
    ensures fault { let hunted = inverse_image S.product transducer.now.rules grammar.now.rules in
        IfErr result (IsApplyFault (demands true true false false false) transducer.now.rules limit
        (IsBeyond hunted limit)) }
{
    let backward = Backward::new(alloc, transducer, grammar)?;
    let found = hunt_alone(alloc, &backward, limit, gate)?;
    Ok(found)
}

/// What `apply_backward` returns, found by this number of workers, 1 to 16, whatever the order of
/// their steps. It may wait forever, as the hunt by several workers (`hunt` of tib_hunt). Errors
/// are those of `apply_backward`, and so is the cost, except for keys that are expanded again.
pub fn apply_backward_together<S: Semiring + Sync, R: Threads + Wait + Sync, G: Gate + Sync>(
    hunters: &Hunters<R, G>,
    alloc: Global,
    transducer: &Transducer<S>,
    grammar: &Normal<S>,
    limit: u64,
) -> Result<Found<Key, Rule<u32>>, ApplyError>
    requires workers { (1 ≤ hunters.now.workers) × (hunters.now.workers ≤ 16) }
    requires some { 1 ≤ limit }
    requires limit { limit ≤ most_parts }
    ensures class { IfOk result (λ _. AllMeet (demands true true false false false)
        transducer.now.rules) }
    ensures reached { IfOk result (IsReachedBy (inverse_image S.product transducer.now.rules
        grammar.now.rules)) }
    ensures range { IfOk result AreOverOrder }
    ensures parts { IfOk result (HasPartsOf (inverse_image S.product transducer.now.rules
        grammar.now.rules)) }
    ensures within { IfOk result (λ f. f.parts ≤ limit) }
    ensures few { IfOk result (λ f. length f.order.items ≤ limit) }
    ensures few_rules { IfOk result (λ f. length f.rules.items ≤ limit) }
    ensures fault { let hunted = inverse_image S.product transducer.now.rules grammar.now.rules in
        IfErr result (IsApplyFault (demands true true false false false) transducer.now.rules limit
        (IsBeyond hunted limit)) }
{
    let backward = Backward::new(alloc, transducer, grammar)?;
    let found = hunt(
        hunters.rt,
        alloc,
        &backward,
        hunters.workers,
        limit,
        hunters.gate,
    )?;
    Ok(found)
}
