// `count`: how many states and rules are in complete runs, how many runs there are, and how many
// trees.
ghost use Rattle.std.specs.Prelude.{◌≡◌, ◌+◌, ◌-◌, ◌<◌, ◌≤◌, ◌^◌, max, length, IfErr, IfOk, IsTrue, false};
ghost use Rattle.tib_cost.specs.declared.Scale.TheVariants.{Unweighted};
ghost use Rattle.tib_grammar.specs.GrammarOf.{GrammarOf};
ghost use Rattle.tib_grammar.specs.Range.{AreInRange, SidesEndInHoles};
ghost use Rattle.tib_grammar_file.specs.Printable.{ArePrintable};
ghost use Rattle.tib_expand.specs.Limits.{IfTooMany};
ghost use Rattle.tib_expand.specs.Reached.{IsBeyond};
ghost use Rattle.tib_canon.specs.Constructions.{HasReachedWithin};
ghost use Rattle.tib_determinize.specs.Answered.{HasParts, IsAnswer};
ghost use Rattle.tib_determinize.specs.Determinization.{determinization};
ghost use Rattle.tib_determinize.specs.Started.{started};
ghost use Rattle.tib_trim.specs.TrimmedFile.{IsTrimmedFile};
ghost use Rattle.tib_count.specs.Counts.{IsCountOf, IsEndless};
ghost use Rattle.tib_count.specs.Counted.{HaveRuns, IsRun, IsTree};
ghost use Rattle.tib_operations.specs.Count.{HasCountText, count_makes};
ghost use Rattle.tib_operations.specs.Determinize.{determinizing};
ghost use Rattle.tib_operations.specs.Made.{IsLimit, IsMadeFault};

use crate::copies::copied;
use crate::counted::counted_text;
use std::alloc::{AllocError, Global};
use std::sync::Wait;
use std::thread::Threads;
use tib_canon::trimmed_forms_have_the_same_rules;
use tib_cost::Boolean;
use tib_count::laws::{
    endless_trees, forms_have_runs, same_trees, trees_of_deterministic, trimmed_file_has_runs,
    trimmed_keeps_runs,
};
use tib_count::{Count, count_runs};
use tib_determinize::laws::{same_series, started_is_deterministic};
use tib_determinize::{Vector, started_rules};
use tib_expand::{Found, Gate, HuntError};
use tib_grammar::{Grammar, Rule};
use tib_io::{Failed, GrowingSink};
use tib_normal::Normal;
use tib_operations::Status;
use tib_reached::{Hunters, determinize, determinize_together};
use tib_texts::trimmed_form;
use tib_tree::Labels;
use tib_trim::trimmed;

// How many runs a grammar has of which each state in a right side has a run.
fn runs_of(alloc: Global, grammar: &Grammar<Boolean>) -> Result<Count, AllocError>
    requires { HaveRuns grammar.now.rules }
    ensures { IfOk result (λ runs. IsCountOf (IsRun grammar.now.rules) runs) }
{
    grammar.is_sound();
    let states = grammar.states() as usize;
    count_runs(alloc, states, grammar.rule_list())
}

// How many states and rules `trim` keeps of a grammar, and how many runs the grammar has.
#[derive(Drop)]
struct Kept {
    states: u32,
    rules: u32,
    runs: Count,
}

// What is counted of the rules that `trim` keeps. Err only if memory is refused.
fn kept_of(alloc: Global, grammar: &Grammar<Boolean>, labels: &Labels) -> Result<Kept, AllocError>
    requires { ArePrintable Unweighted labels.now grammar.now.rules }
    ensures { IfOk result (λ kept. (file : GrammarOf) × IsTrimmedFile max grammar.now file ×
        (kept.states ≡ length file.names) × (kept.rules ≡ length file.rules) ×
        IsCountOf (IsRun grammar.now.rules) kept.runs) }
{
    trimmed_keeps_runs();
    trimmed_file_has_runs::<Boolean>();
    let copy = copied::<Boolean>(alloc, grammar)?;
    let file = trimmed::<Boolean>(alloc, copy)?;
    let runs = runs_of(alloc, &file)?;
    Ok(Kept {
        states: file.states(),
        rules: file.rules(),
        runs,
    })
}

// Whether a grammar in trimmed normal form has endlessly many trees. Err only if memory is refused.
fn is_endless(alloc: Global, form: &Normal<Boolean>) -> Result<bool, AllocError>
    requires { HaveRuns form.now.rules }
    ensures yes { IfOk result (λ b. IsTrue b → IsEndless (IsTree form.now.rules)) }
    ensures no { IfOk result (λ b. b ≡ false → IsEndless (IsTree form.now.rules) → ⊥) }
{
    endless_trees();
    match runs_of(alloc, form.grammar())? {
        Count::Endless => Ok(true),
        Count::Number(_) => Ok(false),
        Count::Many => Ok(false),
    }
}

// How many runs there are from a fresh start to the vectors that a hunt returned.
fn runs_of_vectors(alloc: Global, found: Found<Vector, Rule<u32>>) -> Result<Count, AllocError>
    requires few { length found.order.items < 2 ^ 32 - 1 }
    requires range { AreInRange (length found.order.items) found.rules.items }
    requires leaves { SidesEndInHoles found.rules.items }
    requires started { AreInRange (1 + length found.order.items) (started found.order.items
        found.rules.items) }
    requires runs { HaveRuns (started found.order.items found.rules.items) }
    ensures { IfOk result (IsCountOf (IsRun (started found.order.items found.rules.items))) }
{
    let Found { order, rules, .. } = found;
    let all = started_rules(alloc, &order, rules)?;
    count_runs(alloc, order.len() + 1, &all)
}

// How many trees a grammar in trimmed normal form has, by the vectors of its states that a hunt
// returned: as many as these have runs from a fresh start. Otherwise the status with which the run
// ends.
fn trees_of_vectors(
    alloc: Global,
    form: &Normal<Boolean>,
    labels: &Labels,
    limit: u64,
    hunted: Result<Found<Vector, Rule<u32>>, HuntError>,
) -> Result<Count, Status>
    requires form { ArePrintable Unweighted labels.now form.now.rules }
    requires limit { IsLimit limit }
    requires determinized { IfOk hunted (IsAnswer max form.now.rules) }
    requires parts { IfOk hunted (HasParts max form.now.rules) }
    requires within { IfOk hunted (λ f. f.parts ≤ limit) }
    requires few { IfOk hunted (λ f. length f.order.items ≤ limit) }
    requires more { IfErr hunted (IfTooMany limit (IsBeyond
        (determinization max form.now.rules) limit)) }
    ensures trees { IfOk result (λ trees. IsCountOf (IsTree form.now.rules) trees) }
    ensures within { IfOk result (λ _. HasReachedWithin (determinizing max form.now).problem
        limit) }
    ensures err { IfErr result (IsMadeFault (IsBeyond (determinizing max form.now).problem limit)
        limit) }
{
    form.grammar();
    let found = match hunted {
        Ok(found) => found,
        Err(HuntError::TooMany { .. }) => return Err(Status::TooMany { limit }),
        Err(HuntError::OutOfMemory) => return Err(Status::OutOfMemory),
    };
    same_series::<Boolean>();
    started_is_deterministic::<Boolean>();
    trees_of_deterministic();
    same_trees();
    match runs_of_vectors(alloc, found) {
        Ok(runs) => Ok(runs),
        Err(AllocError) => Err(Status::OutOfMemory),
    }
}

// The four lines of a grammar with this many trees. `OutOfMemory` only if memory is refused.
fn text_of(
    alloc: Global,
    grammar: &Grammar<Boolean>,
    labels: &Labels,
    trees: Count,
) -> Result<GrowingSink, Status>
    requires grammar { ArePrintable Unweighted labels.now grammar.now.rules }
    requires trees { IsCountOf (IsTree grammar.now.rules) trees }
    ensures text { IfOk result (λ text. HasCountText grammar.now text.bytes) }
    ensures err { IfErr result (λ status. status ≡ Status.OutOfMemory) }
{
    let Ok(kept) = kept_of(alloc, grammar, labels) else {
        return Err(Status::OutOfMemory);
    };
    match counted_text(alloc, kept.states, kept.rules, kept.runs, trees) {
        Ok(text) => Ok(text),
        Err(Failed) => Err(Status::OutOfMemory),
    }
}

/// Four lines: how many states and rules of a grammar are in complete runs, how many runs it has,
/// and how many trees these yield. `TooMany` only where the normal form has more parts than the
/// limit, or where the trees are not endlessly many and the reached set of vectors has; otherwise
/// `OutOfMemory`. The time is that of `trimmed`, of the normal form, and of `count_runs` for both;
/// where the trees are not endlessly many, also that of the edges of the vectors that are reached,
/// and of `count_runs` for these.
pub fn count_of<G: Gate>(
    alloc: Global,
    grammar: &Grammar<Boolean>,
    labels: &Labels,
    limit: u64,
    gate: &G,
) -> Result<GrowingSink, Status>
    requires grammar { ArePrintable Unweighted labels.now grammar.now.rules }
    requires limit { IsLimit limit }
    ensures text { IfOk result (λ text. HasCountText grammar.now text.bytes) }
    ensures within { IfOk result (λ _. (count_makes limit grammar.now).within) }
    ensures err { IfErr result (IsMadeFault (count_makes limit grammar.now).more limit) }
{
    let form = match trimmed_form::<Boolean>(alloc, grammar, limit) {
        Ok(form) => form,
        Err(status) => return Err(status),
    };
    grammar.is_sound();
    forms_have_runs::<Boolean>();
    same_trees();
    let Ok(endless) = is_endless(alloc, &form) else {
        return Err(Status::OutOfMemory);
    };
    if endless {
        return text_of(alloc, grammar, labels, Count::Endless);
    }
    trimmed_forms_have_the_same_rules();
    let hunted = determinize::<Boolean, G>(alloc, &form, limit, gate);
    match trees_of_vectors(alloc, &form, labels, limit, hunted) {
        Ok(trees) => text_of(alloc, grammar, labels, trees),
        Err(status) => Err(status),
    }
}

/// What `count_of` returns, with the vectors hunted by this number of workers, 1 to 16, whatever
/// the order of their steps. It may wait forever, as the hunt by several workers. Errors are those
/// of `count_of`.
pub fn count_of_together<R: Threads + Wait + Sync, G: Gate + Sync>(
    hunters: &Hunters<R, G>,
    alloc: Global,
    grammar: &Grammar<Boolean>,
    labels: &Labels,
    limit: u64,
) -> Result<GrowingSink, Status>
    requires grammar { ArePrintable Unweighted labels.now grammar.now.rules }
    requires workers { (1 ≤ hunters.now.workers) × (hunters.now.workers ≤ 16) }
    requires limit { IsLimit limit }
    ensures text { IfOk result (λ text. HasCountText grammar.now text.bytes) }
    ensures within { IfOk result (λ _. (count_makes limit grammar.now).within) }
    ensures err { IfErr result (IsMadeFault (count_makes limit grammar.now).more limit) }
{
    let form = match trimmed_form::<Boolean>(alloc, grammar, limit) {
        Ok(form) => form,
        Err(status) => return Err(status),
    };
    grammar.is_sound();
    forms_have_runs::<Boolean>();
    same_trees();
    let Ok(endless) = is_endless(alloc, &form) else {
        return Err(Status::OutOfMemory);
    };
    if endless {
        return text_of(alloc, grammar, labels, Count::Endless);
    }
    trimmed_forms_have_the_same_rules();
    let hunted = determinize_together::<Boolean, R, G>(hunters, alloc, &form, limit);
    match trees_of_vectors(alloc, &form, labels, limit, hunted) {
        Ok(trees) => text_of(alloc, grammar, labels, trees),
        Err(status) => Err(status),
    }
}
