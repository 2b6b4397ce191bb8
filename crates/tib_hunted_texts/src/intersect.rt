// `intersect`: the canonical grammar of the trees that two grammars have, at the products of their
// costs.
ghost use Rattle.std.specs.Prelude.{◌≡◌, ◌≤◌, length, IfErr, IfOk};
ghost use Rattle.tib_grammar_file.specs.GrammarText.{GrammarText};
ghost use Rattle.tib_grammar_file.specs.Printable.{ArePrintable};
ghost use Rattle.tib_grammar_file.specs.Printed.{grammar_text};
ghost use Rattle.tib_expand.specs.Reached.{IsBeyond};
ghost use Rattle.tib_expand.specs.Limits.{IfTooMany};
ghost use Rattle.tib_intersect.specs.Answered.{IsIntersection, IsGrammar, HasParts};
ghost use Rattle.tib_intersect.specs.Intersection.{intersection};
ghost use Rattle.tib_canon.specs.Constructions.{IsCanonicalOf};
ghost use Rattle.tib_operations.specs.Intersect.{HasProductSeries, intersecting, intersect_makes, HasIntersectionText, IsIntersectionText};
ghost use Rattle.tib_operations.specs.Made.{IsLimit, IsMadeFault};

use std::alloc::{AllocError, Global};
use std::sync::Wait;
use std::thread::Threads;
use tib_canon::{
    Begin, Printed, over_keys_texts_are_read, to_grammar, trimmed_forms_have_the_same_rules,
};
use tib_cost::Semiring;
use tib_expand::{Found, Gate, HuntError};
use tib_grammar::{Grammar, Rule};
use tib_grammar_file::printable_is_labelled;
use tib_intersect::laws::{order_is_free, pairs_mean};
use tib_key_edges::StatePair;
use tib_normal::Normal;
use tib_operations::Status;
use tib_reached::{Hunters, intersect, intersect_together};
use tib_texts::trimmed_form;
use tib_tree::Labels;

// The canonical form of the pairs of two trimmed forms that a hunt returned, or the status with
// which the run ends.
fn canonical_of_pairs<S: Semiring + Drop>(
    alloc: Global,
    one: &Normal<S>,
    two: &Normal<S>,
    labels: &Labels,
    limit: u64,
    hunted: Result<Found<StatePair, Rule<u32>>, HuntError>,
) -> Result<Printed<S>, Status>
    requires one { ArePrintable S.SCALE labels.now one.now.rules }
    requires two { ArePrintable S.SCALE labels.now two.now.rules }
    requires limit { IsLimit limit }
    requires reached { IfOk hunted (IsIntersection S.product one.now.rules two.now.rules) }
    requires grammar { IfOk hunted (IsGrammar S.product one.now.rules two.now.rules) }
    requires parts { IfOk hunted (HasParts S.product one.now.rules two.now.rules) }
    requires within { IfOk hunted (λ f. f.parts ≤ limit) }
    requires few { IfOk hunted (λ f. length f.order.items ≤ limit) }
    requires few_rules { IfOk hunted (λ f. length f.rules.items ≤ limit) }
    requires more { IfErr hunted (IfTooMany limit (IsBeyond
        (intersection S.product one.now.rules two.now.rules) limit)) }
    ensures canonical { IfOk result (λ h. IsCanonicalOf S.product S.SCALE labels.now limit
        (intersecting S.product (one.now, two.now)) h.grammar) }
    ensures series { IfOk result (λ h. HasProductSeries S.product one.now.rules two.now.rules
        h.grammar.rules) }
    ensures read { IfOk result (λ h. GrammarText S.SCALE labels.now h.text.bytes h.grammar) }
    ensures text { IfOk result (λ h. h.text.bytes ≡ grammar_text S.SCALE labels.now h.grammar) }
    ensures err { IfErr result (IsMadeFault (IsBeyond (intersecting S.product
        (one.now, two.now)).problem limit) limit) }
{
    one.grammar();
    two.grammar();
    let found = match hunted {
        Ok(found) => found,
        Err(HuntError::TooMany { .. }) => return Err(Status::TooMany { limit }),
        Err(HuntError::OutOfMemory) => return Err(Status::OutOfMemory),
    };
    pairs_mean::<S>();
    printable_is_labelled();
    over_keys_texts_are_read::<S, StatePair>();
    match to_grammar::<S, StatePair>(alloc, found, Begin::At(0), labels) {
        Ok(canonical) => Ok(canonical),
        Err(AllocError) => Err(Status::OutOfMemory),
    }
}

/// The canonical intersection of two grammars. `TooMany` only where a normal form or the reached
/// set has more parts than the limit, otherwise `OutOfMemory`. The time is that of both normal
/// forms and of the edges of the pairs that are reached.
pub fn intersection_of<S: Semiring + Drop, G: Gate>(
    alloc: Global,
    first: &Grammar<S>,
    second: &Grammar<S>,
    labels: &Labels,
    limit: u64,
    gate: &G,
) -> Result<Printed<S>, Status>
    requires first { ArePrintable S.SCALE labels.now first.now.rules }
    requires second { ArePrintable S.SCALE labels.now second.now.rules }
    requires limit { IsLimit limit }
    ensures text { IfOk result (λ h. HasIntersectionText S.SCALE S.product limit labels.now
        first.now second.now h.text.bytes) }
    ensures grammar { IfOk result (λ h. IsIntersectionText S.SCALE S.product limit labels.now
        first.now second.now h.text.bytes h.grammar) }
    ensures within { IfOk result (λ _. (intersect_makes S.product limit first.now
        second.now).within) }
    ensures err { IfErr result (IsMadeFault (intersect_makes S.product limit first.now
        second.now).more limit) }
{
    let one = match trimmed_form::<S>(alloc, first, limit) {
        Ok(one) => one,
        Err(status) => return Err(status),
    };
    let two = match trimmed_form::<S>(alloc, second, limit) {
        Ok(two) => two,
        Err(status) => return Err(status),
    };
    trimmed_forms_have_the_same_rules();
    order_is_free::<S>();
    let hunted = intersect::<S, G>(alloc, &one, &two, limit, gate);
    canonical_of_pairs::<S>(alloc, &one, &two, labels, limit, hunted)
}

/// What `intersection_of` returns, with the pairs hunted by this number of workers, 1 to 16,
/// whatever the order of their steps. It may wait forever, as the hunt by several workers. Errors
/// are those of `intersection_of`.
pub fn intersection_of_together<
    S: Semiring + Sync + Drop,
    R: Threads + Wait + Sync,
    G: Gate + Sync,
>(
    hunters: &Hunters<R, G>,
    alloc: Global,
    first: &Grammar<S>,
    second: &Grammar<S>,
    labels: &Labels,
    limit: u64,
) -> Result<Printed<S>, Status>
    requires first { ArePrintable S.SCALE labels.now first.now.rules }
    requires second { ArePrintable S.SCALE labels.now second.now.rules }
    requires workers { (1 ≤ hunters.now.workers) × (hunters.now.workers ≤ 16) }
    requires limit { IsLimit limit }
    ensures text { IfOk result (λ h. HasIntersectionText S.SCALE S.product limit labels.now
        first.now second.now h.text.bytes) }
    ensures grammar { IfOk result (λ h. IsIntersectionText S.SCALE S.product limit labels.now
        first.now second.now h.text.bytes h.grammar) }
    ensures within { IfOk result (λ _. (intersect_makes S.product limit first.now
        second.now).within) }
    ensures err { IfErr result (IsMadeFault (intersect_makes S.product limit first.now
        second.now).more limit) }
{
    let one = match trimmed_form::<S>(alloc, first, limit) {
        Ok(one) => one,
        Err(status) => return Err(status),
    };
    let two = match trimmed_form::<S>(alloc, second, limit) {
        Ok(two) => two,
        Err(status) => return Err(status),
    };
    trimmed_forms_have_the_same_rules();
    order_is_free::<S>();
    let hunted = intersect_together::<S, R, G>(hunters, alloc, &one, &two, limit);
    canonical_of_pairs::<S>(alloc, &one, &two, labels, limit, hunted)
}
