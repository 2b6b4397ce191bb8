// `compose`: the canonical transducer that does what the first and then the second does.
ghost use Rattle.std.specs.Prelude.{◌≤◌, length, IfErr, IfOk};
ghost use Rattle.tib_transducer.specs.Outside.{AllMeet};
ghost use Rattle.tib_expand.specs.Reached.{IsBeyond};
ghost use Rattle.tib_key_edges.specs.Composition.{composition};
ghost use Rattle.tib_compose.specs.Composed.{AreOverOrder, HasPartsOf, IsComposeFault, IsReachedBy};
ghost use Rattle.tib_canon.specs.TransducerKeys.{AreMovesOver};
ghost use Rattle.tib_operations.specs.Compose.{plain, compose_makes, HasComposeText, IsComposeText};
ghost use Rattle.tib_operations.specs.Made.{IsLimit, IsMadeFault};

use std::alloc::{AllocError, Global};
use std::sync::Wait;
use std::thread::Threads;
use tib_canon::{PrintedTransducer, to_transducer};
use tib_compose::ComposeError;
use tib_cost::Semiring;
use tib_expand::{Found, Gate};
use tib_key_edges::StatePair;
use tib_operations::Status;
use tib_reached::{Hunters, compose, compose_together};
use tib_transducer::{Transducer, TransducerRule};
use tib_tree::Labels;

// The canonical form of the pairs that a hunt returned, or the status with which the run ends.
fn canonical_of_moves<S: Semiring + Drop>(
    alloc: Global,
    first: &Transducer<S>,
    second: &Transducer<S>,
    labels: &Labels,
    limit: u64,
    hunted: Result<Found<StatePair, TransducerRule<u32>>, ComposeError>,
) -> Result<PrintedTransducer<S>, Status>
    requires first { AreMovesOver S.SCALE labels.now (length first.now.names) first.now.rules }
    requires second { AreMovesOver S.SCALE labels.now (length second.now.names) second.now.rules }
    requires class { AllMeet plain second.now.rules }
    requires limit { IsLimit limit }
    requires reached { IfOk hunted (IsReachedBy S.product first.now.rules second.now.rules) }
    requires range { IfOk hunted AreOverOrder }
    requires parts { IfOk hunted (HasPartsOf S.product first.now.rules second.now.rules) }
    requires within { IfOk hunted (λ f. f.parts ≤ limit) }
    requires few { IfOk hunted (λ f. length f.order.items ≤ limit) }
    requires few_rules { IfOk hunted (λ f. length f.rules.items ≤ limit) }
    requires fault { IfErr hunted (IsComposeFault second.now.rules limit
        (IsBeyond (composition S.product first.now.rules second.now.rules) limit)) }
    ensures text { IfOk result (λ h. HasComposeText S.SCALE S.product limit labels.now first.now
        second.now h.text.bytes) }
    ensures transducer { IfOk result (λ h. IsComposeText S.SCALE S.product limit labels.now
        first.now second.now h.text.bytes h.transducer) }
    ensures within { IfOk result (λ _. (compose_makes S.product limit first.now
        second.now).within) }
    ensures err { IfErr result (IsMadeFault (compose_makes S.product limit first.now
        second.now).more limit) }
{
    let found = match hunted {
        Ok(found) => found,
        Err(ComposeError::TooMany { .. }) => return Err(Status::TooMany { limit }),
        Err(ComposeError::OutOfMemory) => return Err(Status::OutOfMemory),
        Err(ComposeError::Class { .. }) => unreachable!(),
    };
    match to_transducer::<S, StatePair>(alloc, found, 0, labels) {
        Ok(canonical) => Ok(canonical),
        Err(AllocError) => Err(Status::OutOfMemory),
    }
}

/// The canonical composition of two transducers, of which the second is linear, nondeleting, not
/// extended and not labelled. `TooMany` only where the reached set has more parts than the limit,
/// otherwise `OutOfMemory`. The time is that of the edges of the pairs that are reached.
pub fn composition_of<S: Semiring + Drop, G: Gate>(
    alloc: Global,
    first: &Transducer<S>,
    second: &Transducer<S>,
    labels: &Labels,
    limit: u64,
    gate: &G,
) -> Result<PrintedTransducer<S>, Status>
    requires first { AreMovesOver S.SCALE labels.now (length first.now.names) first.now.rules }
    requires second { AreMovesOver S.SCALE labels.now (length second.now.names) second.now.rules }
    requires class { AllMeet plain second.now.rules }
    requires limit { IsLimit limit }
    ensures text { IfOk result (λ h. HasComposeText S.SCALE S.product limit labels.now first.now
        second.now h.text.bytes) }
    ensures transducer { IfOk result (λ h. IsComposeText S.SCALE S.product limit labels.now
        first.now second.now h.text.bytes h.transducer) }
    ensures within { IfOk result (λ _. (compose_makes S.product limit first.now
        second.now).within) }
    ensures err { IfErr result (IsMadeFault (compose_makes S.product limit first.now
        second.now).more limit) }
{
    let hunted = compose::<S, G>(alloc, first, second, limit, gate);
    canonical_of_moves::<S>(alloc, first, second, labels, limit, hunted)
}

/// What `composition_of` returns, with the pairs hunted by this number of workers, 1 to 16,
/// whatever the order of their steps. It may wait forever, as the hunt by several workers. Errors
/// are those of `composition_of`.
pub fn composition_of_together<S: Semiring + Sync + Drop, R: Threads + Wait + Sync, G: Gate + Sync>(
    hunters: &Hunters<R, G>,
    alloc: Global,
    first: &Transducer<S>,
    second: &Transducer<S>,
    labels: &Labels,
    limit: u64,
) -> Result<PrintedTransducer<S>, Status>
    requires first { AreMovesOver S.SCALE labels.now (length first.now.names) first.now.rules }
    requires second { AreMovesOver S.SCALE labels.now (length second.now.names) second.now.rules }
    requires class { AllMeet plain second.now.rules }
    requires workers { (1 ≤ hunters.now.workers) × (hunters.now.workers ≤ 16) }
    requires limit { IsLimit limit }
    ensures text { IfOk result (λ h. HasComposeText S.SCALE S.product limit labels.now first.now
        second.now h.text.bytes) }
    ensures transducer { IfOk result (λ h. IsComposeText S.SCALE S.product limit labels.now
        first.now second.now h.text.bytes h.transducer) }
    ensures within { IfOk result (λ _. (compose_makes S.product limit first.now
        second.now).within) }
    ensures err { IfErr result (IsMadeFault (compose_makes S.product limit first.now
        second.now).more limit) }
{
    let hunted = compose_together::<S, R, G>(hunters, alloc, first, second, limit);
    canonical_of_moves::<S>(alloc, first, second, labels, limit, hunted)
}
