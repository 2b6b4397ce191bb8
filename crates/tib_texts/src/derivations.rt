// `runs`: the transducer from the derivations of a grammar to its trees.
ghost use Rattle.std.specs.Prelude.{◌≡◌, ℕ, List, length, IfErr, IfOk};
ghost use Rattle.tib_tree.specs.Grows.{Grows};
ghost use Rattle.tib_grammar_file.specs.ByName.{HasText};
ghost use Rattle.tib_grammar_file.specs.GrammarText.{AreSmallRules};
ghost use Rattle.tib_grammar_file.specs.Printed.{AreLabelled};
ghost use Rattle.tib_transducer.specs.TransducerOf.{TransducerOf};
ghost use Rattle.tib_transducer_file.specs.Printed.{transducer_text};
ghost use Rattle.tib_rulewise.specs.Derivations.{IsDerivations};
ghost use Rattle.tib_operations.specs.Runs.{HasRunsText};

use crate::derived::print_derivations;
use std::alloc::Global;
use tib_cost::Semiring;
use tib_grammar::Grammar;
use tib_grammar_file::printable_is_labelled;
use tib_io::{Failed, GrowingSink};
use tib_operations::Status;
use tib_tree::Labels;

// The text of the transducer of the derivations of a grammar, over each table that has the labels
// of the grammar and of its rules. Err only if memory is refused.
fn text_of<S: Semiring>(
    alloc: Global,
    grammar: &Grammar<S>,
    labels: &Labels,
) -> Result<GrowingSink, Status>
    requires labelled { AreLabelled (length labels.now) grammar.now.rules }
    requires small { AreSmallRules grammar.now.rules }
    ensures text { IfOk result (λ text. (all : List (List ℕ)) (t : TransducerOf) →
        Grows labels.now all → IsDerivations all grammar.now t →
        text.bytes ≡ transducer_text S.SCALE all t) }
    ensures err { IfErr result (λ status. status ≡ Status.OutOfMemory) }
{
    let mut text = GrowingSink::new(alloc);
    match print_derivations::<S, GrowingSink>(grammar, labels, &mut text) {
        Ok(()) => Ok(text),
        Err(Failed) => Err(Status::OutOfMemory),
    }
}

/// The text of the transducer of the derivations of a grammar, over the labels of the grammar and
/// the labels `r1`, `r2` and so on of its rules, which the table need not have: it stays as it is.
/// Each state of the grammar but the start has a rule, and no right-hand side has more than 10,000
/// nodes, as in each grammar that was read. Err only if memory is refused. Each line is printed
/// from the rule of the grammar and its number, without the transducer: the time is that of the
/// text.
pub fn derivations_text<S: Semiring + Drop>(
    alloc: Global,
    grammar: Grammar<S>,
    labels: &mut Labels,
) -> Result<GrowingSink, Status>
    requires text { HasText S.SCALE labels.old grammar }
    requires small { AreSmallRules grammar.rules }
    ensures text { IfOk result (λ text. HasRunsText S.SCALE S.product labels.old grammar
        text.bytes) }
    ensures err { IfErr result (λ status. status ≡ Status.OutOfMemory) }
{
    labels.len();
    printable_is_labelled();
    text_of::<S>(alloc, &grammar, labels)
}
