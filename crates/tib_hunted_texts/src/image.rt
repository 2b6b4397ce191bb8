// `image`: the canonical grammar of all outputs of a transducer on one tree.
ghost use Rattle.std.specs.Prelude.{◌≤◌, length, IfErr, IfOk};
ghost use Rattle.tib_expand.specs.Reached.{IsBeyond};
ghost use Rattle.tib_expand.specs.Limits.{IfTooMany};
ghost use Rattle.tib_image.specs.Answered.{IsImage, AreOverOrder, HasParts};
ghost use Rattle.tib_image.specs.Image.{image_of};
ghost use Rattle.tib_operations.specs.Image.{image_makes, HasImageText, IsImageText};
ghost use Rattle.tib_operations.specs.Made.{IsLimit, IsMadeFault};
ghost use Rattle.tib_operations.specs.Moves.{ArePlainMoves};

use std::alloc::{AllocError, Global};
use std::sync::Wait;
use std::thread::Threads;
use tib_canon::{Begin, Printed, over_keys_texts_are_read, to_grammar};
use tib_cost::Semiring;
use tib_expand::{Found, Gate, HuntError};
use tib_grammar::Rule;
use tib_grammar_file::printable_is_labelled;
use tib_image::Key;
use tib_operations::Status;
use tib_reached::{Hunters, image, image_together};
use tib_transducer::Transducer;
use tib_tree::{Labels, Tree};

// The canonical form of the keys that a hunt returned, or the status with which the run ends.
fn canonical_of_outputs<S: Semiring + Drop>(
    alloc: Global,
    tree: &Tree,
    transducer: &Transducer<S>,
    labels: &Labels,
    limit: u64,
    hunted: Result<Found<Key, Rule<u32>>, HuntError>,
) -> Result<Printed<S>, Status>
    requires transducer { ArePlainMoves S.SCALE labels.now transducer.now.rules }
    requires limit { IsLimit limit }
    requires reached { IfOk hunted (IsImage transducer.now.rules tree.now) }
    requires range { IfOk hunted AreOverOrder }
    requires parts { IfOk hunted (HasParts transducer.now.rules tree.now) }
    requires within { IfOk hunted (λ f. f.parts ≤ limit) }
    requires few { IfOk hunted (λ f. length f.order.items ≤ limit) }
    requires few_rules { IfOk hunted (λ f. length f.rules.items ≤ limit) }
    requires more { IfErr hunted (IfTooMany limit (IsBeyond (image_of transducer.now.rules tree.now)
        limit)) }
    ensures text { IfOk result (λ h. HasImageText S.SCALE S.product limit labels.now tree.now
        transducer.now h.text.bytes) }
    ensures grammar { IfOk result (λ h. IsImageText S.SCALE S.product limit labels.now tree.now
        transducer.now h.text.bytes h.grammar) }
    ensures within { IfOk result (λ _. (image_makes limit tree.now transducer.now).within) }
    ensures err { IfErr result (IsMadeFault (image_makes limit tree.now transducer.now).more
        limit) }
{
    transducer.is_sound();
    let found = match hunted {
        Ok(found) => found,
        Err(HuntError::TooMany { .. }) => return Err(Status::TooMany { limit }),
        Err(HuntError::OutOfMemory) => return Err(Status::OutOfMemory),
    };
    printable_is_labelled();
    over_keys_texts_are_read::<S, Key>();
    match to_grammar::<S, Key>(alloc, found, Begin::At(0), labels) {
        Ok(canonical) => Ok(canonical),
        Err(AllocError) => Err(Status::OutOfMemory),
    }
}

/// The canonical grammar of all outputs of a transducer on a tree. `TooMany` only where the reached
/// set has more parts than the limit, otherwise `OutOfMemory`. No class of transducers is refused,
/// and no normal form is made. The time is that of the edges of the keys that are reached.
pub fn outputs_of<S: Semiring + Drop, G: Gate>(
    alloc: Global,
    tree: &Tree,
    transducer: &Transducer<S>,
    labels: &Labels,
    limit: u64,
    gate: &G,
) -> Result<Printed<S>, Status>
    requires transducer { ArePlainMoves S.SCALE labels.now transducer.now.rules }
    requires limit { IsLimit limit }
    ensures text { IfOk result (λ h. HasImageText S.SCALE S.product limit labels.now tree.now
        transducer.now h.text.bytes) }
    ensures grammar { IfOk result (λ h. IsImageText S.SCALE S.product limit labels.now tree.now
        transducer.now h.text.bytes h.grammar) }
    ensures within { IfOk result (λ _. (image_makes limit tree.now transducer.now).within) }
    ensures err { IfErr result (IsMadeFault (image_makes limit tree.now transducer.now).more
        limit) }
{
    let hunted = image::<S, G>(alloc, transducer, tree, limit, gate);
    canonical_of_outputs::<S>(alloc, tree, transducer, labels, limit, hunted)
}

/// What `outputs_of` returns, with the keys hunted by this number of workers, 1 to 16, whatever the
/// order of their steps. It may wait forever, as the hunt by several workers. Errors are those of
/// `outputs_of`.
pub fn outputs_of_together<S: Semiring + Sync + Drop, R: Threads + Wait + Sync, G: Gate + Sync>(
    hunters: &Hunters<R, G>,
    alloc: Global,
    tree: &Tree,
    transducer: &Transducer<S>,
    labels: &Labels,
    limit: u64,
) -> Result<Printed<S>, Status>
    requires transducer { ArePlainMoves S.SCALE labels.now transducer.now.rules }
    requires workers { (1 ≤ hunters.now.workers) × (hunters.now.workers ≤ 16) }
    requires limit { IsLimit limit }
    ensures text { IfOk result (λ h. HasImageText S.SCALE S.product limit labels.now tree.now
        transducer.now h.text.bytes) }
    ensures grammar { IfOk result (λ h. IsImageText S.SCALE S.product limit labels.now tree.now
        transducer.now h.text.bytes h.grammar) }
    ensures within { IfOk result (λ _. (image_makes limit tree.now transducer.now).within) }
    ensures err { IfErr result (IsMadeFault (image_makes limit tree.now transducer.now).more
        limit) }
{
    let hunted = image_together::<S, R, G>(hunters, alloc, transducer, tree, limit);
    canonical_of_outputs::<S>(alloc, tree, transducer, labels, limit, hunted)
}
