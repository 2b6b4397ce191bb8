// `prune`: the canonical form of the part of a grammar that stays within a beam of its cheapest
// tree.
ghost use Rattle.std.specs.Prelude.{◌≡◌, ℕ, List, IfErr, IfOk};
ghost use Rattle.tib_grammar_file.specs.Printable.{ArePrintable};
ghost use Rattle.tib_operations.specs.Made.{IsLimit, IsMadeFault};
ghost use Rattle.tib_operations.specs.Prune.{IsBeam, IsPrunedForm, KeepsWithin, HasPruneText, IsPruneText, prune_makes};

use crate::forms::costed_form;
use std::alloc::Global;
use tib_canon::{Printed, canonical, canonical_texts_are_read};
use tib_cost::{Cost, Semiring};
use tib_grammar::Grammar;
use tib_grammar_file::printable_is_labelled;
use tib_operations::Status;
use tib_prune::prune_by_insides;
use tib_tree::Labels;

// The beam as a cost.
fn beam_cost(beam: u64) -> Cost
    requires { IsBeam beam }
    ensures { result ≡ beam }
{
    match Cost::new(beam) {
        Some(cost) => cost,
        None => unreachable!(),
    }
}

// What pruning leaves of the trimmed normal form of a grammar.
fn pruned_form<S: Semiring + Drop>(
    alloc: Global,
    grammar: &Grammar<S>,
    limit: u64,
    beam: u64,
) -> Result<Grammar<S>, Status>
    requires limit { IsLimit limit }
    requires beam { IsBeam beam }
    ensures kept { IfOk result (λ k. IsPrunedForm S.product beam grammar.now k) }
    ensures keeps { IfOk result (λ k. KeepsWithin S.product grammar.now.rules beam k.rules) }
    ensures printable { IfOk result (λ k. (labels : List (List ℕ)) →
        ArePrintable S.SCALE labels grammar.now.rules → ArePrintable S.SCALE labels k.rules) }
    ensures within { IfOk result (λ _. (prune_makes S.product limit grammar.now).within) }
    ensures err { IfErr result (IsMadeFault (prune_makes S.product limit grammar.now).more limit) }
{
    let costed = match costed_form::<S>(alloc, grammar, limit) {
        Ok(costed) => costed,
        Err(status) => return Err(status),
    };
    let (form, insides) = costed;
    match prune_by_insides::<S>(alloc, form, &insides, beam_cost(beam)) {
        Ok(kept) => Ok(kept),
        Err(_) => Err(Status::OutOfMemory),
    }
}

/// The canonical form of the part of a grammar that stays within a beam of its cheapest tree.
/// `TooMany` only where the normal form has more parts than the limit, otherwise `OutOfMemory`. The
/// time is that of the normal form, of inside and outside costs, and of sorting the rules that
/// stay.
pub fn canonical_pruned<S: Semiring + Drop>(
    alloc: Global,
    grammar: &Grammar<S>,
    labels: &Labels,
    limit: u64,
    beam: u64,
) -> Result<Printed<S>, Status>
    requires printable { ArePrintable S.SCALE labels.now grammar.now.rules }
    requires limit { IsLimit limit }
    requires beam { IsBeam beam }
    ensures text { IfOk result (λ h. HasPruneText S.SCALE S.product beam labels.now grammar.now
        h.text.bytes) }
    ensures grammar { IfOk result (λ h. IsPruneText S.SCALE S.product beam labels.now grammar.now
        h.text.bytes h.grammar) }
    ensures within { IfOk result (λ _. (prune_makes S.product limit grammar.now).within) }
    ensures err { IfErr result (IsMadeFault (prune_makes S.product limit grammar.now).more limit) }
{
    let kept = match pruned_form::<S>(alloc, grammar, limit, beam) {
        Ok(kept) => kept,
        Err(status) => return Err(status),
    };
    kept.is_sound();
    printable_is_labelled();
    canonical_texts_are_read::<S>();
    match canonical::<S>(alloc, kept, labels) {
        Ok(canonical) => Ok(canonical),
        Err(_) => Err(Status::OutOfMemory),
    }
}
