// `kbest`: the cheapest trees of a grammar, each with its cost.
ghost use Rattle.std.specs.Prelude.{◌≡◌, ◌<◌, ◌≤◌, ◌^◌, ◌++◌, ℕ, Some, false, length, IfErr, IfOk, IfSome, IsTrue, OnOk};
ghost use Rattle.std.proofs.Common.{get_or};
ghost use Rattle.tib_grammar.specs.Run.{rule_at};
ghost use Rattle.tib_grammar_file.specs.Printable.{ArePrintable};
ghost use Rattle.tib_grammar_file.specs.Printed.{AreLabelled};
ghost use Rattle.tib_lex.specs.Lists.{Each};
ghost use Rattle.tib_tree.specs.Growth.{HasLabels};
ghost use Rattle.tib_ranked_trees.specs.Best.{IsKBest};
ghost use Rattle.tib_ranked_trees.specs.Pass.{no_entry};
ghost use Rattle.tib_k_best.specs.Trimmed.{HaveTreesBelow};
ghost use Rattle.tib_operations.specs.KBest.{costed_line, costed_lines, HasKBestText, IsKBestFault, kbest_makes};
ghost use Rattle.tib_operations.specs.Made.{IsLimit};
ghost use Rattle.tib_prune.specs.Loop.{AreInsidesOfAll};

use crate::forms::{costed_form, trimmed_form};
use crate::text::add_line;
use std::alloc::{AllocError, Global};
use tib_canon::trimmed_is_printable;
use tib_cost::{Cost, Semiring};
use tib_grammar::Grammar;
use tib_grammar_file::printable_is_labelled;
use tib_inside::trim_normal;
use tib_io::{Failed, GrowingSink};
use tib_k_best::{KBestError, Ranked, best_trees, trimmed_has_trees};
use tib_normal::Normal;
use tib_operations::Status;
use tib_prune::prune_to_count;
use tib_tree::Labels;

// Adds the line of the tree at a place of a list to a text.
fn add_tree<S: Semiring>(
    alloc: Global,
    text: &mut GrowingSink,
    list: &Ranked,
    place: u32,
    labels: &Labels,
) -> Result<(), Failed>
    requires place { place < length list.now }
    requires labels { Each (λ x. HasLabels labels.now x.0) list.now }
    ensures { OnOk result (text.new.bytes ≡ text.old.bytes ++ costed_line S.SCALE labels.now
        (get_or list.now place no_entry)) }
{
    match list.tree(alloc, place) {
        Ok(tree) => add_line::<S>(text, &tree, labels, Some(list.cost(place))),
        Err(_) => Err(Failed),
    }
}

// The lines of a list. It fails only if memory is refused.
fn list_text<S: Semiring>(
    alloc: Global,
    list: &Ranked,
    labels: &Labels,
) -> Result<GrowingSink, Failed>
    requires { Each (λ x. HasLabels labels.now x.0) list.now }
    ensures { IfOk result (λ text. text.bytes ≡ costed_lines S.SCALE labels.now list.now) }
{
    let mut text = GrowingSink::new(alloc);
    for place in 0..list.len() {
        add_tree::<S>(alloc, &mut text, list, place, labels)?;
    }
    Ok(text)
}

// The lines of a list, or `OutOfMemory`.
fn text_of_list<S: Semiring>(
    alloc: Global,
    list: &Ranked,
    labels: &Labels,
) -> Result<GrowingSink, Status>
    requires { Each (λ x. HasLabels labels.now x.0) list.now }
    ensures text { IfOk result (λ text. text.bytes ≡ costed_lines S.SCALE labels.now list.now) }
    ensures err { IfErr result (λ status. status ≡ Status.OutOfMemory) }
{
    match list_text::<S>(alloc, list, labels) {
        Ok(text) => Ok(text),
        Err(Failed) => Err(Status::OutOfMemory),
    }
}

// Whether each tree of a list costs at most a bound.
fn are_within(list: &Ranked, bound: u64) -> bool
    ensures { IsTrue result → (i : ℕ) → i < length list.now → (get_or list.now i no_entry).1
        ≤ bound }
{
    for i in 0..list.len() {
        if list.cost(i).get() > bound {
            return false;
        }
    }
    true
}

// Whether a list has k trees, each of which costs at most a bound.
fn is_full(list: &Ranked, k: u32, bound: u64) -> bool
    ensures full { IsTrue result → length list.now ≡ k }
    ensures within { IsTrue result → (i : ℕ) → i < length list.now → (get_or list.now i no_entry).1
        ≤ bound }
{
    if list.len() != k {
        return false;
    }
    are_within(list, bound)
}

// A list that was found, where it has k trees, each of which costs at most a bound.
fn full_list(found: Option<Ranked>, k: u32, bound: u64) -> Option<Ranked>
    ensures { IfSome result (λ xs. (found ≡ Some xs) × (length xs ≡ k)
        × ((i : ℕ) → i < length xs → (get_or xs i no_entry).1 ≤ bound)) }
{
    let Some(list) = found else {
        return None;
    };
    if is_full(&list, k, bound) {
        Some(list)
    } else {
        None
    }
}

// The k cheapest trees of a trimmed normal form; none where a tree is too large. Err only if memory
// is refused.
fn small_best<S: Semiring>(
    alloc: Global,
    form: &Normal<S>,
    labels: &Labels,
    k: u32,
) -> Result<Option<Ranked>, AllocError>
    requires free { S.WEIGHTED ≡ false → (n : ℕ) → n < length form.now.rules →
        (rule_at form.now.rules n).cost ≡ 0 }
    requires labelled { AreLabelled (length labels.now) form.now.rules }
    requires some { 0 < k }
    requires trimmed { HaveTreesBelow S.product form.now.rules }
    ensures best { IfOk result (λ found. IfSome found (λ xs. IsKBest S.product form.now.rules
        labels.now k xs)) }
{
    match best_trees::<S>(alloc, form, labels, k) {
        Ok(list) => Ok(Some(list)),
        Err(KBestError::TreeTooLarge { .. }) => Ok(None),
        Err(KBestError::OutOfMemory) => Err(AllocError),
    }
}

// The k cheapest trees of some rules that were kept; none where a tree is too large. Err only if
// memory is refused.
fn kept_best<S: Semiring + Drop>(
    alloc: Global,
    kept: Grammar<S>,
    labels: &Labels,
    k: u32,
) -> Result<Option<Ranked>, AllocError>
    requires printable { ArePrintable S.SCALE labels.now kept.rules }
    requires some { 0 < k }
    ensures best { IfOk result (λ found. IfSome found (λ xs. IsKBest S.product kept.rules labels.now
        k xs)) }
{
    let Some(normal) = Normal::new(alloc, kept)? else {
        return Ok(None);
    };
    normal.grammar();
    let trimmed = trim_normal::<S>(alloc, normal)?;
    trimmed.grammar();
    trimmed_is_printable();
    trimmed_has_trees::<S>();
    printable_is_labelled();
    small_best::<S>(alloc, &trimmed, labels, k)
}

// How many rules are kept to find k trees among them: a guess, which decides the time alone.
fn rules_for(k: u32) -> usize
    ensures { result < 2 ^ 36 }
{
    8 * k as usize + 100
}

// The k cheapest trees of a trimmed normal form, found among the rules within a beam; none where
// they are too few, or one of them costs more than the beam allows, so that others may be cheaper.
// Err only if memory is refused.
fn narrow_best<S: Semiring + Drop>(
    alloc: Global,
    form: Normal<S>,
    insides: &[Option<Cost>],
    labels: &Labels,
    k: u32,
) -> Result<Option<Ranked>, AllocError>
    requires printable { ArePrintable S.SCALE labels.now form.rules }
    requires some { 0 < k }
    requires length { length insides.now ≡ length form.names }
    requires insides { AreInsidesOfAll S.product form.rules insides.now }
    ensures best { IfOk result (λ found. IfSome found (λ xs. IsKBest S.product form.rules labels.now
        k xs)) }
{
    form.grammar().is_sound();
    let Some(best) = insides[0] else {
        return Ok(None);
    };
    let pruned = prune_to_count::<S>(alloc, form, insides, rules_for(k))?;
    let (kept, beam) = pruned;
    let found = kept_best::<S>(alloc, kept, labels, k)?;
    Ok(full_list(found, k, best.get() + beam.get()))
}

// The list of the k cheapest trees of a grammar, found among the rules within a beam; none where it
// was not found there; or the status with which the run ends.
fn found_best<S: Semiring + Drop>(
    alloc: Global,
    grammar: &Grammar<S>,
    labels: &Labels,
    limit: u64,
    k: u32,
) -> Result<Option<Ranked>, Status>
    requires printable { ArePrintable S.SCALE labels.now grammar.now.rules }
    requires limit { IsLimit limit }
    requires some { 0 < k }
    ensures best { IfOk result (λ found. IfSome found (λ xs. IsKBest S.product grammar.now.rules
        labels.now k xs)) }
    ensures labels { IfOk result (λ found. IfSome found
        (λ xs. Each (λ x. HasLabels labels.now x.0) xs)) }
    ensures within { IfOk result (λ _. (kbest_makes S.product limit grammar.now).within) }
    ensures err { IfErr result (IsKBestFault S.LEVELLED S.product limit k labels.now grammar.now) }
{
    let costed = match costed_form::<S>(alloc, grammar, limit) {
        Ok(costed) => costed,
        Err(status) => return Err(status),
    };
    let (form, insides) = costed;
    printable_is_labelled();
    match narrow_best::<S>(alloc, form, &insides, labels, k) {
        Ok(found) => Ok(found),
        Err(_) => Err(Status::OutOfMemory),
    }
}

// The list of the k cheapest trees of a grammar, found in all of its trimmed normal form, or the
// status with which the run ends.
fn whole_best<S: Semiring + Drop>(
    alloc: Global,
    grammar: &Grammar<S>,
    labels: &Labels,
    limit: u64,
    k: u32,
) -> Result<Ranked, Status>
    requires printable { ArePrintable S.SCALE labels.now grammar.now.rules }
    requires limit { IsLimit limit }
    requires some { 0 < k }
    ensures best { IfOk result (λ xs. IsKBest S.product grammar.now.rules labels.now k xs) }
    ensures labels { IfOk result (λ xs. Each (λ x. HasLabels labels.now x.0) xs) }
    ensures within { IfOk result (λ _. (kbest_makes S.product limit grammar.now).within) }
    ensures err { IfErr result (IsKBestFault S.LEVELLED S.product limit k labels.now grammar.now) }
{
    let form = match trimmed_form::<S>(alloc, grammar, limit) {
        Ok(form) => form,
        Err(status) => return Err(status),
    };
    printable_is_labelled();
    match best_trees::<S>(alloc, &form, labels, k) {
        Ok(list) => Ok(list),
        Err(KBestError::TreeTooLarge { .. }) => Err(Status::TreeTooLarge),
        Err(KBestError::OutOfMemory) => Err(Status::OutOfMemory),
    }
}

// The list of the k cheapest trees of a grammar, or the status with which the run ends. Where the
// grammar has many rules for each tree, it is looked for among those within a beam first.
fn best_of<S: Semiring + Drop>(
    alloc: Global,
    grammar: &Grammar<S>,
    labels: &Labels,
    limit: u64,
    k: u32,
) -> Result<Ranked, Status>
    requires printable { ArePrintable S.SCALE labels.now grammar.now.rules }
    requires limit { IsLimit limit }
    requires some { 0 < k }
    ensures best { IfOk result (λ xs. IsKBest S.product grammar.now.rules labels.now k xs) }
    ensures labels { IfOk result (λ xs. Each (λ x. HasLabels labels.now x.0) xs) }
    ensures within { IfOk result (λ _. (kbest_makes S.product limit grammar.now).within) }
    ensures err { IfErr result (IsKBestFault S.LEVELLED S.product limit k labels.now grammar.now) }
{
    if 2 * rules_for(k) < grammar.rules() as usize {
        match found_best::<S>(alloc, grammar, labels, limit, k) {
            Ok(Some(list)) => return Ok(list),
            Ok(None) => {}
            Err(status) => return Err(status),
        }
    }
    whole_best::<S>(alloc, grammar, labels, limit, k)
}

/// The lines of the k cheapest trees of a grammar, for k from 1. `TooMany` only where the normal
/// form has more parts than the limit; `TreeTooLarge` only where some state has a tree of more than
/// 10,000 nodes among its k cheapest; otherwise `OutOfMemory`. The time is that of the normal form,
/// of the list, and of the text.
pub fn kbest_text<S: Semiring + Drop>(
    alloc: Global,
    grammar: &Grammar<S>,
    labels: &Labels,
    limit: u64,
    k: u32,
) -> Result<GrowingSink, Status>
    requires printable { ArePrintable S.SCALE labels.now grammar.now.rules }
    requires limit { IsLimit limit }
    requires some { 0 < k }
    ensures text { IfOk result (λ text. HasKBestText S.SCALE S.product k labels.now grammar.now
        text.bytes) }
    ensures within { IfOk result (λ _. (kbest_makes S.product limit grammar.now).within) }
    ensures err { IfErr result (IsKBestFault S.LEVELLED S.product limit k labels.now grammar.now) }
{
    let list = match best_of::<S>(alloc, grammar, labels, limit, k) {
        Ok(list) => list,
        Err(status) => return Err(status),
    };
    list.is_small();
    text_of_list::<S>(alloc, &list, labels)
}
