// `backward`: the canonical grammar of the trees that a transducer turns into those of a grammar,
// at the least products of costs.
ghost use Rattle.std.specs.Prelude.{◌≡◌, ◌≤◌, length, IfErr, IfOk, true, false};
ghost use Rattle.tib_transducer.specs.Outside.{demands, AllMeet};
ghost use Rattle.tib_grammar_file.specs.GrammarText.{GrammarText};
ghost use Rattle.tib_grammar_file.specs.Printable.{ArePrintable};
ghost use Rattle.tib_grammar_file.specs.Printed.{grammar_text};
ghost use Rattle.tib_expand.specs.Reached.{IsBeyond};
ghost use Rattle.tib_apply.specs.Applied.{IsReachedBy, HasPartsOf, AreOverOrder, IsApplyFault};
ghost use Rattle.tib_apply.specs.Operations.{inverse_image};
ghost use Rattle.tib_canon.specs.Constructions.{IsCanonicalOf};
ghost use Rattle.tib_operations.specs.Backward.{linear_nondeleting, HasBackwardSeries, inverting, backward_makes, HasBackwardText, IsBackwardText};
ghost use Rattle.tib_operations.specs.Made.{IsLimit, IsMadeFault};
ghost use Rattle.tib_operations.specs.Moves.{ArePlainMoves};

use std::alloc::{AllocError, Global};
use std::sync::Wait;
use std::thread::Threads;
use tib_apply::{ApplyError, Key};
use tib_canon::{Begin, Printed, over_keys_texts_are_read, to_grammar};
use tib_cost::Semiring;
use tib_expand::{Found, Gate};
use tib_grammar::{Grammar, Rule};
use tib_grammar_file::printable_is_labelled;
use tib_normal::Normal;
use tib_operations::Status;
use tib_reached::{Hunters, apply_backward, apply_backward_together};
use tib_texts::{product_has_laws, trimmed_form};
use tib_transducer::Transducer;
use tib_tree::Labels;

// The canonical form of the keys that a hunt returned, of a linear and nondeleting transducer and a
// grammar.
fn canonical_of_inverse_image<S: Semiring + Drop>(
    alloc: Global,
    transducer: &Transducer<S>,
    grammar: &Normal<S>,
    labels: &Labels,
    limit: u64,
    hunted: Result<Found<Key, Rule<u32>>, ApplyError>,
) -> Result<Printed<S>, Status>
    requires transducer { ArePlainMoves S.SCALE labels.now transducer.now.rules }
    requires grammar { ArePrintable S.SCALE labels.now grammar.now.rules }
    requires class { AllMeet linear_nondeleting transducer.now.rules }
    requires limit { IsLimit limit }
    requires reached { IfOk hunted (IsReachedBy (inverse_image S.product transducer.now.rules
        grammar.now.rules)) }
    requires range { IfOk hunted AreOverOrder }
    requires parts { IfOk hunted (HasPartsOf (inverse_image S.product transducer.now.rules
        grammar.now.rules)) }
    requires within { IfOk hunted (λ f. f.parts ≤ limit) }
    requires few { IfOk hunted (λ f. length f.order.items ≤ limit) }
    requires few_rules { IfOk hunted (λ f. length f.rules.items ≤ limit) }
    requires fault { IfErr hunted (IsApplyFault (demands true true false false false)
        transducer.now.rules limit
        (IsBeyond (inverse_image S.product transducer.now.rules grammar.now.rules) limit)) }
    ensures canonical { IfOk result (λ h. IsCanonicalOf S.product S.SCALE labels.now limit
        (inverting S.product transducer.now grammar.now) h.grammar) }
    ensures series { IfOk result (λ h. HasBackwardSeries S.product transducer.now.rules
        grammar.now.rules h.grammar.rules) }
    ensures read { IfOk result (λ h. GrammarText S.SCALE labels.now h.text.bytes h.grammar) }
    ensures text { IfOk result (λ h. h.text.bytes ≡ grammar_text S.SCALE labels.now h.grammar) }
    ensures err { IfErr result (IsMadeFault (IsBeyond (inverting S.product transducer.now
        grammar.now).problem limit) limit) }
{
    let found = match hunted {
        Ok(found) => found,
        Err(ApplyError::TooMany { .. }) => return Err(Status::TooMany { limit }),
        Err(ApplyError::OutOfMemory) => return Err(Status::OutOfMemory),
        Err(ApplyError::Class { .. }) => unreachable!(),
    };
    grammar.grammar();
    transducer.is_sound();
    printable_is_labelled();
    over_keys_texts_are_read::<S, Key>();
    match to_grammar::<S, Key>(alloc, found, Begin::At(0), labels) {
        Ok(canonical) => Ok(canonical),
        Err(AllocError) => Err(Status::OutOfMemory),
    }
}

/// The canonical grammar of the inputs of a linear and nondeleting transducer. `TooMany` only where
/// a normal form or the reached set has more parts than the limit, otherwise `OutOfMemory`. The
/// time is that of the normal form and of the edges of the keys that are reached.
pub fn inverse_image_of<S: Semiring + Drop, G: Gate>(
    alloc: Global,
    transducer: &Transducer<S>,
    grammar: &Grammar<S>,
    labels: &Labels,
    limit: u64,
    gate: &G,
) -> Result<Printed<S>, Status>
    requires transducer { ArePlainMoves S.SCALE labels.now transducer.now.rules }
    requires grammar { ArePrintable S.SCALE labels.now grammar.now.rules }
    requires class { AllMeet linear_nondeleting transducer.now.rules }
    requires limit { IsLimit limit }
    ensures text { IfOk result (λ h. HasBackwardText S.SCALE S.product limit labels.now
        transducer.now grammar.now h.text.bytes) }
    ensures grammar { IfOk result (λ h. IsBackwardText S.SCALE S.product limit labels.now
        transducer.now grammar.now h.text.bytes h.grammar) }
    ensures within { IfOk result (λ _. (backward_makes S.product limit transducer.now
        grammar.now).within) }
    ensures err { IfErr result (IsMadeFault (backward_makes S.product limit transducer.now
        grammar.now).more limit) }
{
    let form = match trimmed_form::<S>(alloc, grammar, limit) {
        Ok(form) => form,
        Err(status) => return Err(status),
    };
    form.grammar();
    let hunted = apply_backward::<S, G>(alloc, transducer, &form, limit, gate);
    canonical_of_inverse_image::<S>(alloc, transducer, &form, labels, limit, hunted)
}

/// What `inverse_image_of` returns, with the keys hunted by this number of workers, 1 to 16,
/// whatever the order of their steps. It may wait forever, as the hunt by several workers. Errors
/// are those of `inverse_image_of`.
pub fn inverse_image_of_together<
    S: Semiring + Sync + Drop,
    R: Threads + Wait + Sync,
    G: Gate + Sync,
>(
    hunters: &Hunters<R, G>,
    alloc: Global,
    transducer: &Transducer<S>,
    grammar: &Grammar<S>,
    labels: &Labels,
    limit: u64,
) -> Result<Printed<S>, Status>
    requires transducer { ArePlainMoves S.SCALE labels.now transducer.now.rules }
    requires grammar { ArePrintable S.SCALE labels.now grammar.now.rules }
    requires class { AllMeet linear_nondeleting transducer.now.rules }
    requires workers { (1 ≤ hunters.now.workers) × (hunters.now.workers ≤ 16) }
    requires limit { IsLimit limit }
    ensures text { IfOk result (λ h. HasBackwardText S.SCALE S.product limit labels.now
        transducer.now grammar.now h.text.bytes) }
    ensures grammar { IfOk result (λ h. IsBackwardText S.SCALE S.product limit labels.now
        transducer.now grammar.now h.text.bytes h.grammar) }
    ensures within { IfOk result (λ _. (backward_makes S.product limit transducer.now
        grammar.now).within) }
    ensures err { IfErr result (IsMadeFault (backward_makes S.product limit transducer.now
        grammar.now).more limit) }
{
    let form = match trimmed_form::<S>(alloc, grammar, limit) {
        Ok(form) => form,
        Err(status) => return Err(status),
    };
    form.grammar();
    product_has_laws::<S>();
    let hunted = apply_backward_together::<S, R, G>(hunters, alloc, transducer, &form, limit);
    canonical_of_inverse_image::<S>(alloc, transducer, &form, labels, limit, hunted)
}
