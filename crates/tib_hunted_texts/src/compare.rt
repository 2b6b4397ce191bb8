// `compare`: whether the same trees have a cost in two grammars, or else the least tree that has
// one in exactly one of them.
ghost use Rattle.std.specs.Prelude.{◌≡◌, ◌≤◌, ◌++◌, ℕ, List, codes, length, max, IfErr, IfOk, OnOk};
ghost use Rattle.tib_cost.specs.declared.Scale.TheVariants.{Unweighted};
ghost use Rattle.tib_tree.specs.Growth.{HasLabels};
ghost use Rattle.tib_tree.specs.Printed.{tree_text};
ghost use Rattle.tib_grammar_file.specs.Printable.{ArePrintable};
ghost use Rattle.tib_grammar_file.specs.Printed.{AreLabelled};
ghost use Rattle.tib_inside.specs.Trimmed.{HasSameSeries};
ghost use Rattle.tib_canon.specs.TrimmedForms.{IsTrimmedForm};
ghost use Rattle.tib_compare.specs.Compared.{IsCompared, IsSmall};
ghost use Rattle.tib_compare.specs.Faults.{IsCause, IsWithin};
ghost use Rattle.tib_operations.specs.Compare.{answer_text, tree_line, HasAnswerLabels, HasCompareText, IsCompareFault, IsFormsFault, compare_makes, forms_of_both};
ghost use Rattle.tib_operations.specs.Made.{IsLimit, IsMadeFault};

use std::alloc::Global;
use std::sync::Wait;
use std::thread::Threads;
use tib_canon::trimmed_forms_have_the_same_rules;
use tib_compare::{CompareError, Compared};
use tib_cost::Boolean;
use tib_expand::Gate;
use tib_grammar::Grammar;
use tib_grammar_file::printable_is_labelled;
use tib_io::{Failed, GrowingSink};
use tib_normal::Normal;
use tib_operations::Status;
use tib_reached::{Hunters, compare_alone, compare_supports};
use tib_texts::{trimmed_form, write_piece};
use tib_tree::{Labels, Tree, print_tree};

// Adds a piece to a text.
fn add_piece(text: &mut GrowingSink, piece: &[u8]) -> Result<(), Failed>
    ensures { OnOk result (text.new.bytes ≡ text.old.bytes ++ piece.now) }
{
    write_piece::<GrowingSink>(text, piece)
}

// Adds a tree to a text.
fn add_tree(text: &mut GrowingSink, tree: &Tree, labels: &Labels) -> Result<(), Failed>
    requires { HasLabels labels.now tree.now }
    ensures { OnOk result (text.new.bytes ≡ text.old.bytes ++ tree_text labels.now tree.now) }
{
    print_tree::<GrowingSink>(tree, labels, text)
}

// The line of a word and a tree. It fails only if memory is refused.
fn line_of(alloc: Global, word: &[u8], tree: &Tree, labels: &Labels) -> Result<GrowingSink, Failed>
    requires { HasLabels labels.now tree.now }
    ensures { IfOk result (λ text. text.bytes ≡ tree_line word.now labels.now tree.now) }
{
    let mut text = GrowingSink::new(alloc);
    add_piece(&mut text, word)?;
    add_tree(&mut text, tree, labels)?;
    add_piece(&mut text, b"\n")?;
    Ok(text)
}

// The line that says that the supports are the same. It fails only if memory is refused.
fn same_line(alloc: Global) -> Result<GrowingSink, Failed>
    ensures { IfOk result (λ text. text.bytes ≡ codes "same\n") }
{
    let mut text = GrowingSink::new(alloc);
    add_piece(&mut text, b"same\n")?;
    Ok(text)
}

// The line of a result. It fails only if memory is refused.
fn answer_line(alloc: Global, answer: &Compared, labels: &Labels) -> Result<GrowingSink, Failed>
    requires { HasAnswerLabels labels.now answer.now }
    ensures { IfOk result (λ text. text.bytes ≡ answer_text labels.now answer.now) }
{
    match answer {
        Compared::Same => same_line(alloc),
        Compared::First(tree) => line_of(alloc, b"first ", tree, labels),
        Compared::Second(tree) => line_of(alloc, b"second ", tree, labels),
    }
}

// The trimmed normal forms of two grammars.
#[derive(Drop)]
struct Forms {
    one: Normal<Boolean>,
    two: Normal<Boolean>,
}

// The trimmed normal forms of both grammars, or the status with which the run ends.
fn both_forms(
    alloc: Global,
    left: &Grammar<Boolean>,
    right: &Grammar<Boolean>,
    limit: u64,
) -> Result<Forms, Status>
    requires limit { IsLimit limit }
    ensures one { IfOk result (λ forms. IsTrimmedForm max left.now forms.one) }
    ensures two { IfOk result (λ forms. IsTrimmedForm max right.now forms.two) }
    ensures first { IfOk result (λ forms. HasSameSeries max left.now forms.one) }
    ensures second { IfOk result (λ forms. HasSameSeries max right.now forms.two) }
    ensures print_one { IfOk result (λ forms. (labels : List (List ℕ)) →
        ArePrintable Unweighted labels left.now.rules → ArePrintable Unweighted labels
        forms.one.rules) }
    ensures print_two { IfOk result (λ forms. (labels : List (List ℕ)) →
        ArePrintable Unweighted labels right.now.rules → ArePrintable Unweighted labels
        forms.two.rules) }
    ensures within { IfOk result (λ _. (forms_of_both limit left.now right.now).within) }
    ensures err { IfErr result (IsMadeFault (forms_of_both limit left.now right.now).more limit) }
{
    let one = match trimmed_form::<Boolean>(alloc, left, limit) {
        Ok(one) => one,
        Err(status) => return Err(status),
    };
    let two = match trimmed_form::<Boolean>(alloc, right, limit) {
        Ok(two) => two,
        Err(status) => return Err(status),
    };
    Ok(Forms { one, two })
}

// The line of what the comparison of two grammars in normal form returned, or the status with which
// the run ends.
fn text_of(
    alloc: Global,
    forms: &Forms,
    labels: &Labels,
    limit: u64,
    compared: Result<Compared, CompareError>,
) -> Result<GrowingSink, Status>
    requires one { AreLabelled (length labels.now) forms.now.one.rules }
    requires two { AreLabelled (length labels.now) forms.now.two.rules }
    requires compared { IfOk compared (IsCompared labels.now forms.now.one.rules
        forms.now.two.rules) }
    requires small { IfOk compared IsSmall }
    requires within { IfOk compared (λ _. IsWithin forms.now.one forms.now.two limit) }
    requires cause { IfErr compared (IsCause forms.now.one forms.now.two limit) }
    ensures text { IfOk result (λ text. HasCompareText labels.now forms.now.one forms.now.two
        text.bytes) }
    ensures within { IfOk result (λ _. IsWithin forms.now.one forms.now.two limit) }
    ensures err { IfErr result (IsFormsFault limit forms.now.one forms.now.two) }
{
    let answer = match compared {
        Ok(answer) => answer,
        Err(CompareError::TooMany { .. }) => return Err(Status::TooMany { limit }),
        Err(CompareError::TreeTooLarge) => return Err(Status::TreeTooLarge),
        Err(CompareError::OutOfMemory) => return Err(Status::OutOfMemory),
    };
    match answer_line(alloc, &answer, labels) {
        Ok(text) => Ok(text),
        Err(Failed) => Err(Status::OutOfMemory),
    }
}

/// The line of the result of comparing the supports of two grammars: `same`, or `first` or `second`
/// and the least tree that has a cost in exactly one of them. `TooMany` only where a normal form or
/// the reached set has more parts than the limit; `TreeTooLarge` only where that least tree has
/// more than 10,000 nodes; otherwise `OutOfMemory`. The time is that of both normal forms and of
/// the vectors of both side by side (`compare_alone` of tib_reached).
pub fn comparison_of<G: Gate>(
    alloc: Global,
    left: &Grammar<Boolean>,
    right: &Grammar<Boolean>,
    labels: &Labels,
    limit: u64,
    gate: &G,
) -> Result<GrowingSink, Status>
    requires left { ArePrintable Unweighted labels.now left.now.rules }
    requires right { ArePrintable Unweighted labels.now right.now.rules }
    requires limit { IsLimit limit }
    ensures text { IfOk result (λ text. HasCompareText labels.now left.now right.now text.bytes) }
    ensures within { IfOk result (λ _. (compare_makes limit left.now right.now).within) }
    ensures err { IfErr result (IsCompareFault limit left.now right.now) }
{
    let forms = match both_forms(alloc, left, right, limit) {
        Ok(forms) => forms,
        Err(status) => return Err(status),
    };
    trimmed_forms_have_the_same_rules();
    printable_is_labelled();
    let compared = compare_alone::<G>(alloc, &forms.one, &forms.two, labels, limit, gate);
    match text_of(alloc, &forms, labels, limit, compared) {
        Ok(text) => Ok(text),
        Err(status) => Err(status),
    }
}

/// What `comparison_of` returns, with the vectors hunted by this number of workers, 1 to 16,
/// whatever the order of their steps. It may wait forever, as the hunt by several workers. Errors
/// are those of `comparison_of`.
pub fn comparison_of_together<R: Threads + Wait + Sync, G: Gate + Sync>(
    hunters: &Hunters<R, G>,
    alloc: Global,
    left: &Grammar<Boolean>,
    right: &Grammar<Boolean>,
    labels: &Labels,
    limit: u64,
) -> Result<GrowingSink, Status>
    requires left { ArePrintable Unweighted labels.now left.now.rules }
    requires right { ArePrintable Unweighted labels.now right.now.rules }
    requires workers { (1 ≤ hunters.now.workers) × (hunters.now.workers ≤ 16) }
    requires limit { IsLimit limit }
    ensures text { IfOk result (λ text. HasCompareText labels.now left.now right.now text.bytes) }
    ensures within { IfOk result (λ _. (compare_makes limit left.now right.now).within) }
    ensures err { IfErr result (IsCompareFault limit left.now right.now) }
{
    let forms = match both_forms(alloc, left, right, limit) {
        Ok(forms) => forms,
        Err(status) => return Err(status),
    };
    trimmed_forms_have_the_same_rules();
    printable_is_labelled();
    let compared = compare_supports::<R, G>(hunters, alloc, &forms.one, &forms.two, labels, limit);
    match text_of(alloc, &forms, labels, limit, compared) {
        Ok(text) => Ok(text),
        Err(status) => Err(status),
    }
}
