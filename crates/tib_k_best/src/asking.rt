// Lists whose start has the k best trees of rules in normal form, whatever other form the rules
// have.
ghost use Rattle.std.specs.Prelude.{◌≡◌, ℕ, ◌<◌, ◌≤◌, ◌+◌, ◌^◌, false, length, IfErr, IfNone, IfOk, IfSome, IsTrue, OnOk};
ghost use Rattle.tib_grammar.specs.Forms.{AreNormal};
ghost use Rattle.tib_ranked_trees.specs.Below.{IsDeterministicBelow};
ghost use Rattle.tib_grammar.specs.Range.{AreInRange};
ghost use Rattle.tib_grammar_file.specs.Printed.{AreLabelled};
ghost use Rattle.tib_ranked_trees.specs.Ranked.{AreRanksOf};
ghost use Rattle.tib_ranked_trees.specs.Best.{IsFrontAt, IsKBest};
ghost use Rattle.tib_ranked_trees.specs.Levels.{IsOrderly};
ghost use Rattle.tib_ranked_trees.specs.Held.{empty_lists, entries_of, IsSound};
ghost use Rattle.tib_lazy_lists.specs.Causes.{IsAskCause};
ghost use Rattle.tib_lazy_lists.specs.Demands.{entries_held, nodes_of};
ghost use Rattle.tib_lazy_lists.specs.Firsts.{AreFirsts, AreTrimmed};
ghost use Rattle.tib_k_best.specs.Causes.{IsCause, IsFaultOf};
ghost use Rattle.tib_k_best.specs.Trimmed.{HaveTreesBelow};
ghost use Rattle.tib_k_best.specs.declared.asking.Form.TheVariants.{Deterministic};

use crate::advancing::next_missing;
use crate::error::KBestError;
use crate::first::first_trees;
use std::alloc::{AllocError, Global};
use tib_cost::Semiring;
use tib_grammar::Rule;
use tib_lazy_lists::{AskError, ask_best, ask_lazily};
use tib_ranked_trees::Lists;
use tib_tree::Labels;

// What is known of the form of rules in normal form.
#[derive(Clone, Copy)]
pub(crate) enum Form {
    // Nothing more.
    Any,
    // They are in deterministic form, so few entries are placed.
    Deterministic,
}

// Lists over rules in normal form, with no trees yet.
fn empty<'a>(
    alloc: Global,
    rules: &'a [Rule<u32>],
    states: usize,
    labels: &'a Labels,
    ranks: &'a [u32],
) -> Result<Lists<'a>, AllocError>
    requires normal { AreNormal rules.now }
    requires range { AreInRange states rules.now }
    requires labelled { AreLabelled (length labels.now) rules.now }
    requires ranks { AreRanksOf labels.now ranks.now }
    ensures sound { IfOk result IsSound }
    ensures empty { IfOk result (λ x. x ≡ empty_lists rules.now labels.now ranks.now states) }
{
    labels.len();
    Lists::new(alloc, rules, labels, ranks, states)
}

// An error of asked lists as an error of the list of best trees.
fn fault_of(error: AskError) -> KBestError
    ensures { IsFaultOf error result }
{
    match error {
        AskError::TreeTooLarge { state } => KBestError::TreeTooLarge { state },
        AskError::OutOfMemory => KBestError::OutOfMemory,
    }
}

// Makes the lists grow from their first trees on, until the list of the start has its k best trees.
fn ask<S: Semiring>(alloc: Global, lists: &mut Lists, k: u32, form: Form) -> Result<(), AskError>
    requires some { 0 < k }
    requires start { 0 < length lists.old.lists }
    requires firsts { AreFirsts S.product lists.old }
    requires trimmed { AreTrimmed lists.old }
    requires orderly { IsOrderly S.product lists.old.rules }
    requires form { form ≡ Deterministic → IsDeterministicBelow lists.old.rules }
    ensures best { OnOk result (IsKBest S.product lists.old.rules lists.old.labels k
        (entries_of lists.new 0)) }
    ensures fronts { OnOk result (form ≡ Deterministic → (q : ℕ) →
        IsFrontAt S.product lists.old.labels lists.old.rules q (entries_of lists.new q)) }
    ensures sound { OnOk result (IsSound lists.new) }
    ensures states { OnOk result (length lists.new.lists ≡ length lists.old.lists) }
    ensures bound { OnOk result (form ≡ Deterministic → entries_held lists.new
        ≤ length lists.old.lists + nodes_of (entries_of lists.new 0)) }
    ensures cause { IfErr result (IsAskCause S.product lists.old k) }
{
    match form {
        Form::Any => ask_best::<S>(alloc, lists, k),
        Form::Deterministic => ask_lazily::<S>(alloc, lists, k),
    }
}

/// Whether each state below a rule has a tree, as `ask_best` and `ask_lazily` of `tib_lazy_lists`
/// require, and as in a trimmed grammar. It takes no memory. Worst case: one pass over the states
/// below each rule.
pub fn have_trees_below(lists: &Lists) -> bool
    requires few { length lists.now.rules < 2 ^ 32 }
    requires sound { IsSound lists.now }
    ensures yes { IsTrue result → AreTrimmed lists.now }
    ensures no { result ≡ false → AreTrimmed lists.now → ⊥ }
{
    for rule in 0..lists.rules() as u32 {
        if next_missing(lists, rule, 0) < lists.count(rule) {
            return false;
        }
    }
    true
}

// Gives the start its k best trees, and returns whether it could: if k is above 1, each state below
// a rule has to have a tree.
fn list_trees<S: Semiring>(
    alloc: Global,
    lists: &mut Lists,
    k: u32,
    form: Form,
) -> Result<bool, KBestError>
    requires few { length lists.old.rules < 2 ^ 32 }
    requires orderly { IsOrderly S.product lists.old.rules }
    requires form { form ≡ Deterministic → IsDeterministicBelow lists.old.rules }
    requires sound { IsSound lists.old }
    requires empty { lists.old ≡ empty_lists lists.old.rules lists.old.labels
        lists.old.label_ranks (length lists.old.lists) }
    requires start { 0 < length lists.old.lists }
    requires some { 0 < k }
    ensures best { IfOk result (λ could. IsTrue could → IsKBest S.product lists.old.rules
        lists.old.labels k (entries_of lists.new 0)) }
    ensures fronts { IfOk result (λ could. IsTrue could → form ≡ Deterministic → (q : ℕ) →
        IsFrontAt S.product lists.old.labels lists.old.rules q (entries_of lists.new q)) }
    ensures sound { OnOk result (IsSound lists.new) }
    ensures states { OnOk result (length lists.new.lists ≡ length lists.old.lists) }
    ensures bound { IfOk result (λ could. IsTrue could → form ≡ Deterministic →
        entries_held lists.new ≤ length lists.old.lists + nodes_of (entries_of lists.new 0)) }
    ensures not { IfOk result (λ could. could ≡ false →
        HaveTreesBelow S.product lists.old.rules → ⊥) }
    ensures cause { IfErr result (IsCause S.product lists.old.labels lists.old.rules k) }
{
    match first_trees::<S>(alloc, lists) {
        Ok(()) => {}
        Err(error) => return Err(error),
    }
    if k == 1 {
        return Ok(true);
    }
    if !have_trees_below(lists) {
        return Ok(false);
    }
    match ask::<S>(alloc, lists, k, form) {
        Ok(()) => Ok(true),
        Err(error) => Err(fault_of(error)),
    }
}

// The lists of all states, where the list of the start has its k best trees. None only if k is
// above 1 and some state below a rule has no tree.
pub(crate) fn lists_of_rules<'a, S: Semiring>(
    alloc: Global,
    rules: &'a [Rule<u32>],
    states: usize,
    labels: &'a Labels,
    ranks: &'a [u32],
    k: u32,
    form: Form,
) -> Result<Option<Lists<'a>>, KBestError>
    requires few { length rules.now < 2 ^ 32 }
    requires start { 0 < states }
    requires normal { AreNormal rules.now }
    requires range { AreInRange states rules.now }
    requires labelled { AreLabelled (length labels.now) rules.now }
    requires ranks { AreRanksOf labels.now ranks.now }
    requires orderly { IsOrderly S.product rules.now }
    requires form { form ≡ Deterministic → IsDeterministicBelow rules.now }
    requires some { 0 < k }
    ensures best { IfOk result (λ found. IfSome found (λ x. IsKBest S.product rules.now labels.now
        k (entries_of x 0))) }
    ensures fronts { IfOk result (λ found. IfSome found (λ x. form ≡ Deterministic → (q : ℕ) →
        IsFrontAt S.product labels.now rules.now q (entries_of x q))) }
    ensures sound { IfOk result (λ found. IfSome found IsSound) }
    ensures states { IfOk result (λ found. IfSome found (λ x. length x.lists ≡ states)) }
    ensures bound { IfOk result (λ found. IfSome found (λ x. form ≡ Deterministic →
        entries_held x ≤ states + nodes_of (entries_of x 0))) }
    ensures none { IfOk result (λ found. IfNone found (HaveTreesBelow S.product rules.now → ⊥)) }
    ensures cause { IfErr result (IsCause S.product labels.now rules.now k) }
{
    let Ok(mut lists) = empty(alloc, rules, states, labels, ranks) else {
        return Err(KBestError::OutOfMemory);
    };
    let could = match list_trees::<S>(alloc, &mut lists, k, form) {
        Ok(could) => could,
        Err(error) => return Err(error),
    };
    if !could {
        return Ok(None);
    }
    Ok(Some(lists))
}
