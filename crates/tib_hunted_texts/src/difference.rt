// `difference`: the canonical grammar of the trees of a grammar that have no run in another.
ghost use Rattle.std.specs.Prelude.{◌≡◌, ◌<◌, ◌≤◌, ◌^◌, length, IfErr, IfOk};
ghost use Rattle.tib_cost.specs.declared.Scale.TheVariants.{Unweighted};
ghost use Rattle.tib_grammar_file.specs.GrammarText.{GrammarText};
ghost use Rattle.tib_grammar_file.specs.Printable.{ArePrintable};
ghost use Rattle.tib_grammar_file.specs.Printed.{grammar_text};
ghost use Rattle.tib_expand.specs.Reached.{IsBeyond};
ghost use Rattle.tib_expand.specs.Limits.{IfTooMany};
ghost use Rattle.tib_canon.specs.Constructions.{IsCanonicalOf};
ghost use Rattle.tib_difference.specs.Answered.{HasParts, IsAnswer};
ghost use Rattle.tib_difference.specs.Difference.{difference};
ghost use Rattle.tib_difference.specs.Series.{HasDifferenceSeries, finals};
ghost use Rattle.tib_operations.specs.Difference.{differing, HasDifferenceText, IsDifferenceText, difference_makes};
ghost use Rattle.tib_operations.specs.Made.{IsLimit, IsMadeFault};

use std::alloc::{AllocError, Global};
use std::sync::Wait;
use std::thread::Threads;
use tib_canon::{
    Begin, Finals, Printed, over_keys_texts_are_read, to_grammar, trimmed_forms_have_the_same_rules,
};
use tib_cost::{Boolean, Semiring};
use tib_difference::laws::{order_is_free, reached_has_series};
use tib_difference::{SubsetKey, finals};
use tib_expand::{Found, Gate, HuntError};
use tib_grammar::{Grammar, Rule};
use tib_grammar_file::printable_is_labelled;
use tib_normal::Normal;
use tib_operations::Status;
use tib_reached::{Hunters, subtract, subtract_together};
use tib_texts::trimmed_form;
use tib_tree::Labels;

// Where the fresh start leads: each position whose key has the start of the first grammar, and not
// that of the second.
fn finals_of(alloc: Global, order: &[SubsetKey]) -> Result<Finals, AllocError>
    requires { length order.now < 2 ^ 32 }
    ensures { IfOk result (λ f. f ≡ finals 0 order.now) }
{
    let pairs = finals(alloc, order)?;
    Ok(Finals::new(pairs))
}

// The canonical form of what a hunt returned for two trimmed forms, or the status with which the
// run ends.
fn canonical_of_differences<S: Semiring + Drop>(
    alloc: Global,
    one: &Normal<S>,
    two: &Normal<Boolean>,
    labels: &Labels,
    limit: u64,
    hunted: Result<Found<SubsetKey, Rule<u32>>, HuntError>,
) -> Result<Printed<S>, Status>
    requires one { ArePrintable S.SCALE labels.now one.now.rules }
    requires limit { IsLimit limit }
    requires reached { IfOk hunted (IsAnswer one.now.rules two.now.rules) }
    requires parts { IfOk hunted (HasParts one.now.rules two.now.rules) }
    requires within { IfOk hunted (λ f. f.parts ≤ limit) }
    requires few { IfOk hunted (λ f. length f.order.items ≤ limit) }
    requires few_rules { IfOk hunted (λ f. length f.rules.items ≤ limit) }
    requires more { IfErr hunted (IfTooMany limit (IsBeyond
        (difference one.now.rules two.now.rules) limit)) }
    ensures canonical { IfOk result (λ h. IsCanonicalOf S.product S.SCALE labels.now limit
        (differing (one.now, two.now)) h.grammar) }
    ensures series { IfOk result (λ h. HasDifferenceSeries S.product one.now.rules two.now.rules
        h.grammar.rules) }
    ensures read { IfOk result (λ h. GrammarText S.SCALE labels.now h.text.bytes h.grammar) }
    ensures text { IfOk result (λ h. h.text.bytes ≡ grammar_text S.SCALE labels.now h.grammar) }
    ensures err { IfErr result (IsMadeFault (IsBeyond (differing (one.now, two.now)).problem limit)
        limit) }
{
    one.grammar();
    two.grammar();
    let found = match hunted {
        Ok(found) => found,
        Err(HuntError::TooMany { .. }) => return Err(Status::TooMany { limit }),
        Err(HuntError::OutOfMemory) => return Err(Status::OutOfMemory),
    };
    let Ok(finals) = finals_of(alloc, &found.order) else {
        return Err(Status::OutOfMemory);
    };
    reached_has_series::<S>();
    printable_is_labelled();
    over_keys_texts_are_read::<S, SubsetKey>();
    match to_grammar::<S, SubsetKey>(alloc, found, Begin::Fresh(finals), labels) {
        Ok(canonical) => Ok(canonical),
        Err(AllocError) => Err(Status::OutOfMemory),
    }
}

/// The canonical difference of two grammars: each tree has its cost in the first where it has no
/// run in `support`, and none otherwise. `TooMany` only where a normal form or the reached set has
/// more parts than the limit, otherwise `OutOfMemory`. The time is that of both normal forms and of
/// the edges of the keys that are reached.
pub fn difference_of<S: Semiring + Drop, G: Gate>(
    alloc: Global,
    grammar: &Grammar<S>,
    support: &Grammar<Boolean>,
    labels: &Labels,
    limit: u64,
    gate: &G,
) -> Result<Printed<S>, Status>
    requires grammar { ArePrintable S.SCALE labels.now grammar.now.rules }
    requires support { ArePrintable Unweighted labels.now support.now.rules }
    requires limit { IsLimit limit }
    ensures text { IfOk result (λ h. HasDifferenceText S.SCALE S.product limit labels.now
        grammar.now support.now h.text.bytes) }
    ensures grammar { IfOk result (λ h. IsDifferenceText S.SCALE S.product limit labels.now
        grammar.now support.now h.text.bytes h.grammar) }
    ensures within { IfOk result (λ _. (difference_makes S.product limit grammar.now
        support.now).within) }
    ensures err { IfErr result (IsMadeFault (difference_makes S.product limit grammar.now
        support.now).more limit) }
{
    let one = match trimmed_form::<S>(alloc, grammar, limit) {
        Ok(one) => one,
        Err(status) => return Err(status),
    };
    let two = match trimmed_form::<Boolean>(alloc, support, limit) {
        Ok(two) => two,
        Err(status) => return Err(status),
    };
    trimmed_forms_have_the_same_rules();
    order_is_free();
    let hunted = subtract::<S, G>(alloc, &one, &two, limit, gate);
    canonical_of_differences::<S>(alloc, &one, &two, labels, limit, hunted)
}

/// What `difference_of` returns, with the keys hunted by this number of workers, 1 to 16, whatever
/// the order of their steps. It may wait forever, as the hunt by several workers. Errors are those
/// of `difference_of`.
pub fn difference_of_together<S: Semiring + Sync + Drop, R: Threads + Wait + Sync, G: Gate + Sync>(
    hunters: &Hunters<R, G>,
    alloc: Global,
    grammar: &Grammar<S>,
    support: &Grammar<Boolean>,
    labels: &Labels,
    limit: u64,
) -> Result<Printed<S>, Status>
    requires grammar { ArePrintable S.SCALE labels.now grammar.now.rules }
    requires support { ArePrintable Unweighted labels.now support.now.rules }
    requires workers { (1 ≤ hunters.now.workers) × (hunters.now.workers ≤ 16) }
    requires limit { IsLimit limit }
    ensures text { IfOk result (λ h. HasDifferenceText S.SCALE S.product limit labels.now
        grammar.now support.now h.text.bytes) }
    ensures grammar { IfOk result (λ h. IsDifferenceText S.SCALE S.product limit labels.now
        grammar.now support.now h.text.bytes h.grammar) }
    ensures within { IfOk result (λ _. (difference_makes S.product limit grammar.now
        support.now).within) }
    ensures err { IfErr result (IsMadeFault (difference_makes S.product limit grammar.now
        support.now).more limit) }
{
    let one = match trimmed_form::<S>(alloc, grammar, limit) {
        Ok(one) => one,
        Err(status) => return Err(status),
    };
    let two = match trimmed_form::<Boolean>(alloc, support, limit) {
        Ok(two) => two,
        Err(status) => return Err(status),
    };
    trimmed_forms_have_the_same_rules();
    order_is_free();
    let hunted = subtract_together::<S, R, G>(hunters, alloc, &one, &two, limit);
    canonical_of_differences::<S>(alloc, &one, &two, labels, limit, hunted)
}
