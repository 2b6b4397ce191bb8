// The text of a transducer.
ghost use Rattle.std.specs.Prelude.{◌≡◌, length, IfErr, IfOk};
ghost use Rattle.tib_transducer_file.specs.Labelled.{AreLabelled};
ghost use Rattle.tib_transducer_file.specs.Printed.{transducer_text};

use std::alloc::Global;
use tib_cost::Semiring;
use tib_io::{Failed, GrowingSink};
use tib_operations::Status;
use tib_transducer::Transducer;
use tib_transducer_file::print_transducer;
use tib_tree::Labels;

// The text of a transducer as it is printed. Err only if memory is refused.
pub(crate) fn printed_transducer<S: Semiring>(
    alloc: Global,
    transducer: &Transducer<S>,
    labels: &Labels,
) -> Result<GrowingSink, Status>
    requires { AreLabelled (length labels.now) transducer.now.rules }
    ensures text { IfOk result (λ text. text.bytes ≡ transducer_text S.SCALE labels.now
        transducer.now) }
    ensures err { IfErr result (λ status. status ≡ Status.OutOfMemory) }
{
    let mut sink = GrowingSink::new(alloc);
    match print_transducer(transducer, labels, &mut sink) {
        Ok(()) => Ok(sink),
        Err(Failed) => Err(Status::OutOfMemory),
    }
}
