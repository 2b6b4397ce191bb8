// `determinize`: the canonical grammar of the vectors of a grammar's states with residuals.
ghost use Rattle.std.specs.Prelude.{◌≡◌, ◌<◌, ◌≤◌, ◌^◌, length, IfErr, IfOk};
ghost use Rattle.tib_grammar_file.specs.GrammarText.{GrammarText};
ghost use Rattle.tib_grammar_file.specs.Printable.{ArePrintable};
ghost use Rattle.tib_grammar_file.specs.Printed.{grammar_text};
ghost use Rattle.tib_expand.specs.Reached.{IsBeyond};
ghost use Rattle.tib_expand.specs.Limits.{IfTooMany};
ghost use Rattle.tib_canon.specs.Constructions.{IsCanonicalOf};
ghost use Rattle.tib_determinize.specs.Answered.{HasParts, IsAnswer};
ghost use Rattle.tib_determinize.specs.Determinization.{determinization};
ghost use Rattle.tib_determinize.specs.Started.{finals};
ghost use Rattle.tib_operations.specs.Determinize.{determinizing, IsDeterminizationOf, HasDeterminizedText, IsDeterminizedText, determinize_makes};
ghost use Rattle.tib_operations.specs.Made.{IsLimit, IsMadeFault};

use std::alloc::{AllocError, Global};
use std::sync::Wait;
use std::thread::Threads;
use tib_canon::{
    Begin, Finals, Printed, over_keys_texts_are_read, to_grammar, trimmed_forms_have_the_same_rules,
};
use tib_cost::Semiring;
use tib_determinize::laws::{same_series, started_is_deterministic};
use tib_determinize::{Vector, final_positions};
use tib_expand::{Found, Gate, HuntError};
use tib_grammar::{Grammar, Rule};
use tib_grammar_file::printable_is_labelled;
use tib_normal::Normal;
use tib_operations::Status;
use tib_reached::{Hunters, determinize, determinize_together};
use tib_texts::trimmed_form;
use tib_tree::Labels;

// Where the fresh start leads: each position whose vector has the grammar's start, at the residual
// there.
fn finals_of(alloc: Global, order: &[Vector]) -> Result<Finals, AllocError>
    requires { length order.now < 2 ^ 32 }
    ensures { IfOk result (λ f. f ≡ finals 0 order.now) }
{
    let pairs = final_positions(alloc, order)?;
    Ok(Finals::new(pairs))
}

/// The canonical form of the vectors of a trimmed form that a hunt returned, or the status with
/// which the run ends.
pub(crate) fn canonical_of_vectors<S: Semiring + Drop>(
    alloc: Global,
    form: &Normal<S>,
    labels: &Labels,
    limit: u64,
    hunted: Result<Found<Vector, Rule<u32>>, HuntError>,
) -> Result<Printed<S>, Status>
    requires form { ArePrintable S.SCALE labels.now form.now.rules }
    requires limit { IsLimit limit }
    requires determinized { IfOk hunted (IsAnswer S.product form.now.rules) }
    requires parts { IfOk hunted (HasParts S.product form.now.rules) }
    requires within { IfOk hunted (λ f. f.parts ≤ limit) }
    requires few { IfOk hunted (λ f. length f.order.items ≤ limit) }
    requires few_rules { IfOk hunted (λ f. length f.rules.items ≤ limit) }
    requires more { IfErr hunted (IfTooMany limit (IsBeyond
        (determinization S.product form.now.rules) limit)) }
    ensures canonical { IfOk result (λ h. IsCanonicalOf S.product S.SCALE labels.now limit
        (determinizing S.product form.now) h.grammar) }
    ensures means { IfOk result (λ h. IsDeterminizationOf S.product form.now.rules
        h.grammar.rules) }
    ensures read { IfOk result (λ h. GrammarText S.SCALE labels.now h.text.bytes h.grammar) }
    ensures text { IfOk result (λ h. h.text.bytes ≡ grammar_text S.SCALE labels.now h.grammar) }
    ensures err { IfErr result (IsMadeFault (IsBeyond (determinizing S.product form.now).problem
        limit) limit) }
{
    form.grammar();
    let found = match hunted {
        Ok(found) => found,
        Err(HuntError::TooMany { .. }) => return Err(Status::TooMany { limit }),
        Err(HuntError::OutOfMemory) => return Err(Status::OutOfMemory),
    };
    let Ok(finals) = finals_of(alloc, &found.order) else {
        return Err(Status::OutOfMemory);
    };
    same_series::<S>();
    started_is_deterministic::<S>();
    printable_is_labelled();
    over_keys_texts_are_read::<S, Vector>();
    match to_grammar::<S, Vector>(alloc, found, Begin::Fresh(finals), labels) {
        Ok(canonical) => Ok(canonical),
        Err(AllocError) => Err(Status::OutOfMemory),
    }
}

/// The canonical grammar of the vectors of a grammar's states with residuals, in deterministic form
/// and with the series of the grammar. `TooMany` only where a normal form or the reached set has
/// more parts than the limit, otherwise `OutOfMemory`. The time is that of the normal form and of
/// the edges of the vectors that are reached.
pub fn determinization_of<S: Semiring + Drop, G: Gate>(
    alloc: Global,
    grammar: &Grammar<S>,
    labels: &Labels,
    limit: u64,
    gate: &G,
) -> Result<Printed<S>, Status>
    requires grammar { ArePrintable S.SCALE labels.now grammar.now.rules }
    requires limit { IsLimit limit }
    ensures text { IfOk result (λ h. HasDeterminizedText S.SCALE S.product limit labels.now
        grammar.now h.text.bytes) }
    ensures grammar { IfOk result (λ h. IsDeterminizedText S.SCALE S.product limit labels.now
        grammar.now h.text.bytes h.grammar) }
    ensures within { IfOk result (λ _. (determinize_makes S.product limit grammar.now).within) }
    ensures err { IfErr result (IsMadeFault (determinize_makes S.product limit grammar.now).more
        limit) }
{
    let form = match trimmed_form::<S>(alloc, grammar, limit) {
        Ok(form) => form,
        Err(status) => return Err(status),
    };
    trimmed_forms_have_the_same_rules();
    let hunted = determinize::<S, G>(alloc, &form, limit, gate);
    canonical_of_vectors::<S>(alloc, &form, labels, limit, hunted)
}

/// What `determinization_of` returns, with the vectors hunted by this number of workers, 1 to 16,
/// whatever the order of their steps. It may wait forever, as the hunt by several workers. Errors
/// are those of `determinization_of`.
pub fn determinization_of_together<
    S: Semiring + Sync + Drop,
    R: Threads + Wait + Sync,
    G: Gate + Sync,
>(
    hunters: &Hunters<R, G>,
    alloc: Global,
    grammar: &Grammar<S>,
    labels: &Labels,
    limit: u64,
) -> Result<Printed<S>, Status>
    requires grammar { ArePrintable S.SCALE labels.now grammar.now.rules }
    requires workers { (1 ≤ hunters.now.workers) × (hunters.now.workers ≤ 16) }
    requires limit { IsLimit limit }
    ensures text { IfOk result (λ h. HasDeterminizedText S.SCALE S.product limit labels.now
        grammar.now h.text.bytes) }
    ensures grammar { IfOk result (λ h. IsDeterminizedText S.SCALE S.product limit labels.now
        grammar.now h.text.bytes h.grammar) }
    ensures within { IfOk result (λ _. (determinize_makes S.product limit grammar.now).within) }
    ensures err { IfErr result (IsMadeFault (determinize_makes S.product limit grammar.now).more
        limit) }
{
    let form = match trimmed_form::<S>(alloc, grammar, limit) {
        Ok(form) => form,
        Err(status) => return Err(status),
    };
    trimmed_forms_have_the_same_rules();
    let hunted = determinize_together::<S, R, G>(hunters, alloc, &form, limit);
    canonical_of_vectors::<S>(alloc, &form, labels, limit, hunted)
}
