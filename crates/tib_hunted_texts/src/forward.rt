// `forward`: the canonical grammar of the trees into which a transducer turns those of a grammar,
// at the least products of costs.
ghost use Rattle.std.specs.Prelude.{◌≡◌, ◌≤◌, length, IfErr, IfOk, true, false};
ghost use Rattle.tib_transducer.specs.Outside.{demands, AllMeet};
ghost use Rattle.tib_grammar_file.specs.GrammarText.{GrammarText};
ghost use Rattle.tib_grammar_file.specs.Printable.{ArePrintable};
ghost use Rattle.tib_grammar_file.specs.Printed.{grammar_text};
ghost use Rattle.tib_expand.specs.Reached.{IsBeyond};
ghost use Rattle.tib_apply.specs.Applied.{IsReachedBy, HasPartsOf, AreOverOrder, IsApplyFault};
ghost use Rattle.tib_apply.specs.Operations.{forward_image};
ghost use Rattle.tib_canon.specs.Constructions.{IsCanonicalOf};
ghost use Rattle.tib_operations.specs.Forward.{linear, HasForwardSeries, forwarding, forward_makes, HasForwardText, IsForwardText};
ghost use Rattle.tib_operations.specs.Made.{IsLimit, IsMadeFault};
ghost use Rattle.tib_operations.specs.Moves.{ArePlainMoves};

use std::alloc::{AllocError, Global};
use std::sync::Wait;
use std::thread::Threads;
use tib_apply::{ApplyError, Key};
use tib_canon::{Begin, Printed, over_keys_texts_are_read, to_grammar};
use tib_cost::Semiring;
use tib_expand::{Found, Gate};
use tib_grammar::{Grammar, Rule};
use tib_grammar_file::printable_is_labelled;
use tib_inside::inside;
use tib_normal::Normal;
use tib_operations::Status;
use tib_reached::{Hunters, apply_forward, apply_forward_together};
use tib_texts::{product_has_laws, trimmed_form};
use tib_transducer::Transducer;
use tib_tree::Labels;

// The canonical form of the keys that a hunt returned, of a grammar and a linear transducer.
fn canonical_of_forward_image<S: Semiring + Drop>(
    alloc: Global,
    grammar: &Normal<S>,
    transducer: &Transducer<S>,
    labels: &Labels,
    limit: u64,
    hunted: Result<Found<Key, Rule<u32>>, ApplyError>,
) -> Result<Printed<S>, Status>
    requires grammar { ArePrintable S.SCALE labels.now grammar.now.rules }
    requires transducer { ArePlainMoves S.SCALE labels.now transducer.now.rules }
    requires class { AllMeet linear transducer.now.rules }
    requires limit { IsLimit limit }
    requires reached { IfOk hunted (IsReachedBy (forward_image S.product grammar.now.rules
        transducer.now.rules)) }
    requires range { IfOk hunted AreOverOrder }
    requires parts { IfOk hunted (HasPartsOf (forward_image S.product grammar.now.rules
        transducer.now.rules)) }
    requires within { IfOk hunted (λ f. f.parts ≤ limit) }
    requires few { IfOk hunted (λ f. length f.order.items ≤ limit) }
    requires few_rules { IfOk hunted (λ f. length f.rules.items ≤ limit) }
    requires fault { IfErr hunted (IsApplyFault (demands true false false false false)
        transducer.now.rules limit
        (IsBeyond (forward_image S.product grammar.now.rules transducer.now.rules) limit)) }
    ensures canonical { IfOk result (λ h. IsCanonicalOf S.product S.SCALE labels.now limit
        (forwarding S.product transducer.now grammar.now) h.grammar) }
    ensures series { IfOk result (λ h. HasForwardSeries S.product grammar.now.rules
        transducer.now.rules h.grammar.rules) }
    ensures read { IfOk result (λ h. GrammarText S.SCALE labels.now h.text.bytes h.grammar) }
    ensures text { IfOk result (λ h. h.text.bytes ≡ grammar_text S.SCALE labels.now h.grammar) }
    ensures err { IfErr result (IsMadeFault (IsBeyond (forwarding S.product transducer.now
        grammar.now).problem limit) limit) }
{
    let found = match hunted {
        Ok(found) => found,
        Err(ApplyError::TooMany { .. }) => return Err(Status::TooMany { limit }),
        Err(ApplyError::OutOfMemory) => return Err(Status::OutOfMemory),
        Err(ApplyError::Class { .. }) => unreachable!(),
    };
    let form = grammar.grammar();
    form.is_sound();
    transducer.is_sound();
    let Ok(_costs) = inside::<S>(alloc, form) else {
        return Err(Status::OutOfMemory);
    };
    printable_is_labelled();
    over_keys_texts_are_read::<S, Key>();
    match to_grammar::<S, Key>(alloc, found, Begin::At(0), labels) {
        Ok(canonical) => Ok(canonical),
        Err(AllocError) => Err(Status::OutOfMemory),
    }
}

/// The canonical grammar of the outputs of a linear transducer. `TooMany` only where a normal form
/// or the reached set has more parts than the limit, otherwise `OutOfMemory`. The time is that of
/// the normal form and of the edges of the keys that are reached.
pub fn forward_image_of<S: Semiring + Drop, G: Gate>(
    alloc: Global,
    grammar: &Grammar<S>,
    transducer: &Transducer<S>,
    labels: &Labels,
    limit: u64,
    gate: &G,
) -> Result<Printed<S>, Status>
    requires grammar { ArePrintable S.SCALE labels.now grammar.now.rules }
    requires transducer { ArePlainMoves S.SCALE labels.now transducer.now.rules }
    requires class { AllMeet linear transducer.now.rules }
    requires limit { IsLimit limit }
    ensures text { IfOk result (λ h. HasForwardText S.SCALE S.product limit labels.now grammar.now
        transducer.now h.text.bytes) }
    ensures grammar { IfOk result (λ h. IsForwardText S.SCALE S.product limit labels.now
        grammar.now transducer.now h.text.bytes h.grammar) }
    ensures within { IfOk result (λ _. (forward_makes S.product limit grammar.now
        transducer.now).within) }
    ensures err { IfErr result (IsMadeFault (forward_makes S.product limit grammar.now
        transducer.now).more limit) }
{
    let form = match trimmed_form::<S>(alloc, grammar, limit) {
        Ok(form) => form,
        Err(status) => return Err(status),
    };
    form.grammar();
    let hunted = apply_forward::<S, G>(alloc, &form, transducer, limit, gate);
    canonical_of_forward_image::<S>(alloc, &form, transducer, labels, limit, hunted)
}

/// What `forward_image_of` returns, with the keys hunted by this number of workers, 1 to 16,
/// whatever the order of their steps. It may wait forever, as the hunt by several workers. Errors
/// are those of `forward_image_of`.
pub fn forward_image_of_together<
    S: Semiring + Sync + Drop,
    R: Threads + Wait + Sync,
    G: Gate + Sync,
>(
    hunters: &Hunters<R, G>,
    alloc: Global,
    grammar: &Grammar<S>,
    transducer: &Transducer<S>,
    labels: &Labels,
    limit: u64,
) -> Result<Printed<S>, Status>
    requires grammar { ArePrintable S.SCALE labels.now grammar.now.rules }
    requires transducer { ArePlainMoves S.SCALE labels.now transducer.now.rules }
    requires class { AllMeet linear transducer.now.rules }
    requires workers { (1 ≤ hunters.now.workers) × (hunters.now.workers ≤ 16) }
    requires limit { IsLimit limit }
    ensures text { IfOk result (λ h. HasForwardText S.SCALE S.product limit labels.now grammar.now
        transducer.now h.text.bytes) }
    ensures grammar { IfOk result (λ h. IsForwardText S.SCALE S.product limit labels.now
        grammar.now transducer.now h.text.bytes h.grammar) }
    ensures within { IfOk result (λ _. (forward_makes S.product limit grammar.now
        transducer.now).within) }
    ensures err { IfErr result (IsMadeFault (forward_makes S.product limit grammar.now
        transducer.now).more limit) }
{
    let form = match trimmed_form::<S>(alloc, grammar, limit) {
        Ok(form) => form,
        Err(status) => return Err(status),
    };
    form.grammar();
    product_has_laws::<S>();
    let hunted = apply_forward_together::<S, R, G>(hunters, alloc, &form, transducer, limit);
    canonical_of_forward_image::<S>(alloc, &form, transducer, labels, limit, hunted)
}
