// `domain`: the canonical grammar of the trees that a transducer reads, at their least costs over
// all outputs.
ghost use Rattle.std.specs.Prelude.{◌≤◌, IfErr, IfOk};
ghost use Rattle.tib_transducer.specs.Outside.{AllMeet};
ghost use Rattle.tib_operations.specs.Domain.{HasDomainText, IsDomainText, domain_makes};
ghost use Rattle.tib_operations.specs.Forward.{linear};
ghost use Rattle.tib_operations.specs.Made.{IsLimit, IsMadeFault};
ghost use Rattle.tib_operations.specs.Moves.{ArePlainMoves};

use crate::parse::{parse_of, parse_of_together};
use std::alloc::Global;
use std::sync::Wait;
use std::thread::Threads;
use tib_canon::Printed;
use tib_cost::Semiring;
use tib_domain::domain_transducer;
use tib_expand::Gate;
use tib_operations::Status;
use tib_reached::Hunters;
use tib_transducer::Transducer;
use tib_tree::Labels;

/// The canonical grammar of the trees that a linear transducer reads, each at its least cost over
/// all outputs, where what a rule leaves out takes any tree over the labels of the left sides. It
/// is what `parse_of` gives for the empty string and the transducer that reads the same and puts
/// out nothing. `TooMany` only where the reached keys have more parts than the limit, otherwise
/// `OutOfMemory`. The time is that of `domain_transducer` and of the edges of the keys that are
/// reached.
pub fn domain_of<S: Semiring + Drop, G: Gate>(
    alloc: Global,
    transducer: Transducer<S>,
    labels: &Labels,
    limit: u64,
    gate: &G,
) -> Result<Printed<S>, Status>
    requires transducer { ArePlainMoves S.SCALE labels.now transducer.rules }
    requires class { AllMeet linear transducer.rules }
    requires limit { IsLimit limit }
    ensures text { IfOk result (λ h.
        HasDomainText S.SCALE S.product limit labels.now transducer h.text.bytes) }
    ensures grammar { IfOk result (λ h. IsDomainText S.SCALE S.product limit labels.now transducer
        h.text.bytes h.grammar) }
    ensures within { IfOk result (λ _. (domain_makes limit transducer).within) }
    ensures err { IfErr result (IsMadeFault (domain_makes limit transducer).more limit) }
{
    transducer.is_sound();
    let Ok(moves) = domain_transducer::<S>(alloc, transducer) else {
        return Err(Status::OutOfMemory);
    };
    parse_of::<S, G>(alloc, &moves, &[], labels, limit, gate)
}

/// What `domain_of` returns, with the keys hunted by this number of workers, 1 to 16, whatever the
/// order of their steps. It may wait forever, as the hunt by several workers. Errors are those of
/// `domain_of`.
pub fn domain_of_together<S: Semiring + Sync + Drop, R: Threads + Wait + Sync, G: Gate + Sync>(
    hunters: &Hunters<R, G>,
    alloc: Global,
    transducer: Transducer<S>,
    labels: &Labels,
    limit: u64,
) -> Result<Printed<S>, Status>
    requires transducer { ArePlainMoves S.SCALE labels.now transducer.rules }
    requires class { AllMeet linear transducer.rules }
    requires workers { (1 ≤ hunters.now.workers) × (hunters.now.workers ≤ 16) }
    requires limit { IsLimit limit }
    ensures text { IfOk result (λ h.
        HasDomainText S.SCALE S.product limit labels.now transducer h.text.bytes) }
    ensures grammar { IfOk result (λ h. IsDomainText S.SCALE S.product limit labels.now transducer
        h.text.bytes h.grammar) }
    ensures within { IfOk result (λ _. (domain_makes limit transducer).within) }
    ensures err { IfErr result (IsMadeFault (domain_makes limit transducer).more limit) }
{
    transducer.is_sound();
    let Ok(moves) = domain_transducer::<S>(alloc, transducer) else {
        return Err(Status::OutOfMemory);
    };
    parse_of_together::<S, R, G>(hunters, alloc, &moves, &[], labels, limit)
}
