// `trim` and `through`: the rules of a grammar that are in complete runs, as its file has them.
ghost use Rattle.std.specs.Prelude.{◌≡◌, length, IfErr, IfOk};
ghost use Rattle.tib_grammar_file.specs.Printable.{ArePrintable};
ghost use Rattle.tib_grammar_file.specs.Printed.{AreLabelled, grammar_text};
ghost use Rattle.tib_operations.specs.Through.{HasThroughText};
ghost use Rattle.tib_operations.specs.Trim.{HasTrimText};

use std::alloc::Global;
use tib_cost::Semiring;
use tib_grammar::Grammar;
use tib_grammar_file::{print_grammar, printable_is_labelled};
use tib_io::{Failed, GrowingSink};
use tib_operations::Status;
use tib_tree::Labels;
use tib_trim::{through_costs, trimmed};

/// The text of a grammar as it stands. It fails only if memory is refused.
fn text_of<S: Semiring>(
    alloc: Global,
    grammar: &Grammar<S>,
    labels: &Labels,
) -> Result<GrowingSink, Status>
    requires { AreLabelled (length labels.now) grammar.now.rules }
    ensures text { IfOk result (λ text. text.bytes
        ≡ grammar_text S.SCALE labels.now grammar.now) }
    ensures err { IfErr result (λ status. status ≡ Status.OutOfMemory) }
{
    let mut text = GrowingSink::new(alloc);
    match print_grammar::<S, GrowingSink>(grammar, labels, &mut text) {
        Ok(()) => Ok(text),
        Err(Failed) => Err(Status::OutOfMemory),
    }
}

/// The text of the rules that are in complete runs, in their order. `OutOfMemory` only if memory is
/// refused. The time is that of `trimmed`, and of the text.
pub fn trimmed_text<S: Semiring + Drop>(
    alloc: Global,
    grammar: Grammar<S>,
    labels: &Labels,
) -> Result<GrowingSink, Status>
    requires { ArePrintable S.SCALE labels.now grammar.rules }
    ensures text { IfOk result (λ text. HasTrimText S.SCALE S.product labels.now grammar
        text.bytes) }
    ensures err { IfErr result (λ status. status ≡ Status.OutOfMemory) }
{
    grammar.is_sound();
    printable_is_labelled();
    match trimmed::<S>(alloc, grammar) {
        Ok(kept) => text_of::<S>(alloc, &kept, labels),
        Err(_) => Err(Status::OutOfMemory),
    }
}

/// The text of the same rules, each with its through cost in place of its weight. `OutOfMemory`
/// only if memory is refused. The time is that of `through_costs`, and of the text.
pub fn through_text<S: Semiring + Drop>(
    alloc: Global,
    grammar: Grammar<S>,
    labels: &Labels,
) -> Result<GrowingSink, Status>
    requires { ArePrintable S.SCALE labels.now grammar.rules }
    ensures text { IfOk result (λ text. HasThroughText S.SCALE S.product labels.now grammar
        text.bytes) }
    ensures err { IfErr result (λ status. status ≡ Status.OutOfMemory) }
{
    grammar.is_sound();
    printable_is_labelled();
    match through_costs::<S>(alloc, grammar) {
        Ok(costed) => text_of::<S>(alloc, &costed, labels),
        Err(_) => Err(Status::OutOfMemory),
    }
}
