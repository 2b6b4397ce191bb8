// `invert`: the transducer that goes the other way.
ghost use Rattle.std.specs.Prelude.{◌≡◌, IfErr, IfOk};
ghost use Rattle.tib_transducer.specs.Outside.{AllMeet};
ghost use Rattle.tib_transducer_file.specs.ByName.{HasText};
ghost use Rattle.tib_rulewise.specs.Invertible.{inverse_demands};
ghost use Rattle.tib_operations.specs.Invert.{HasInvertText};

use crate::transducers::printed_transducer;
use std::alloc::{AllocError, Global};
use tib_cost::Semiring;
use tib_io::GrowingSink;
use tib_operations::Status;
use tib_rulewise::inverse;
use tib_transducer::Transducer;
use tib_tree::Labels;

/// The text of the inverse of a transducer of which each rule is linear, nondeleting, not labelled
/// and strict, which `demand_invertible` tells. The transducer has a text over the labels, as each
/// that was read. Err only if memory is refused. The time is that of one pass over the rules, and
/// of printing the text.
pub fn inverse_text<S: Semiring + Drop>(
    alloc: Global,
    transducer: Transducer<S>,
    labels: &Labels,
) -> Result<GrowingSink, Status>
    requires text { HasText S.SCALE labels.now transducer }
    requires class { AllMeet inverse_demands transducer.rules }
    ensures text { IfOk result (λ text. HasInvertText S.SCALE S.product labels.now transducer
        text.bytes) }
    ensures err { IfErr result (λ status. status ≡ Status.OutOfMemory) }
{
    let inverse = match inverse(alloc, transducer) {
        Ok(inverse) => inverse,
        Err(AllocError) => return Err(Status::OutOfMemory),
    };
    printed_transducer(alloc, &inverse, labels)
}
