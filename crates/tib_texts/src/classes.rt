// The class that an operation demands of a transducer of a file.
ghost use Rattle.std.specs.Prelude.{IfErr, IfOk, false};
ghost use Rattle.tib_transducer.specs.Outside.{demands, AllMeet};
ghost use Rattle.tib_operations.specs.Classes.{demanded_of, IsClassFault};
ghost use Rattle.tib_operations.specs.Compose.{plain};
ghost use Rattle.tib_rulewise.specs.Invertible.{inverse_demands};

use tib_operations::Status;
use tib_transducer::{Transducer, first_outside};

/// Returns Ok where each rule of the transducer of a file, counted from 1, is linear and
/// nondeleting, each where it is demanded; otherwise `Class`, which names the first rule that is
/// not. It takes no memory, and looks at each rule once.
pub fn demand<S>(
    transducer: &Transducer<S>,
    file: u32,
    linear: bool,
    nondeleting: bool,
) -> Result<(), Status>
    ensures met { IfOk result (λ _. AllMeet (demands linear nondeleting false false false)
        transducer.now.rules) }
    ensures broken { IfErr result (IsClassFault (demanded_of file
        (demands linear nondeleting false false false) transducer.now.rules)) }
{
    match first_outside(transducer, linear, nondeleting, false, false, false) {
        None => Ok(()),
        Some((rule, fault)) => Err(Status::Class { file, rule, fault }),
    }
}

/// Returns Ok where each rule of the transducer of a file, counted from 1, is linear, nondeleting,
/// not extended and not labelled; otherwise `Class`, which names the first rule that is not. It
/// takes no memory, and looks at each rule once.
pub fn demand_plain<S>(transducer: &Transducer<S>, file: u32) -> Result<(), Status>
    ensures met { IfOk result (λ _. AllMeet plain transducer.now.rules) }
    ensures broken { IfErr result (IsClassFault (demanded_of file plain transducer.now.rules)) }
{
    match first_outside(transducer, true, true, true, true, false) {
        None => Ok(()),
        Some((rule, fault)) => Err(Status::Class { file, rule, fault }),
    }
}

/// Returns Ok where each rule of the transducer of a file, counted from 1, is linear, nondeleting,
/// not labelled and strict, so that it has an inverse; otherwise `Class`, which names the first
/// rule that is not. It takes no memory, and looks at each rule once.
pub fn demand_invertible<S>(transducer: &Transducer<S>, file: u32) -> Result<(), Status>
    ensures met { IfOk result (λ _. AllMeet inverse_demands transducer.now.rules) }
    ensures broken { IfErr result (IsClassFault (demanded_of file inverse_demands
        transducer.now.rules)) }
{
    match first_outside(transducer, true, true, false, true, true) {
        None => Ok(()),
        Some((rule, fault)) => Err(Status::Class { file, rule, fault }),
    }
}
