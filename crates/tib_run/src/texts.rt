// Texts of operations that take more than one call, and the text of what is printed.
ghost use Rattle.std.specs.Prelude.{◌≡◌, IfErr, IfOk};
ghost use Rattle.tib_lex.specs.Lists.{Each};
ghost use Rattle.tib_tree.specs.Growth.{HasLabels};
ghost use Rattle.tib_operations.specs.Check.{HasClasses};
ghost use Rattle.tib_operations.specs.Inside.{HasInsides};
ghost use Rattle.tib_operations.specs.Made.{IsLimit, IsMadeFault};
ghost use Rattle.tib_operations.specs.Weigh.{IsWeighed, weigh_makes};
ghost use Rattle.tib_job.specs.Outcomes.{text_part};

use std::alloc::Global;
use std::thread::Threads;
use tib_canon::{Printed, PrintedTransducer};
use tib_cost::Semiring;
use tib_grammar::Grammar;
use tib_inside::inside;
use tib_io::{Failed, GrowingSink};
use tib_operations::Status;
use tib_texts::{classes_text, costs_of, inside_text, weighed_text};
use tib_transducer::Transducer;
use tib_tree::{Labels, Tree};

/// The lines of trees with their costs by a grammar, or the status where there are none.
pub(crate) fn weighed_trees<S: Semiring + Sync + Drop, R: Threads + Sync>(
    rt: &R,
    alloc: Global,
    grammar: &Grammar<S>,
    trees: &[Tree],
    labels: &Labels,
    limit: u64,
) -> Result<GrowingSink, Status>
    requires labels { Each (HasLabels labels.now) trees.now }
    requires limit { IsLimit limit }
    ensures text { IfOk result (λ text. IsWeighed S.SCALE S.product labels.now grammar.now trees.now
        text.bytes) }
    ensures within { IfOk result (λ _. (weigh_makes S.product limit grammar.now).within) }
    ensures err { IfErr result (IsMadeFault (weigh_makes S.product limit grammar.now).more limit) }
{
    let costs = match costs_of::<S, R>(rt, alloc, grammar, trees, limit) {
        Ok(costs) => costs,
        Err(status) => return Err(status),
    };
    match weighed_text::<S, R>(rt, alloc, trees, labels, &costs) {
        Ok(text) => Ok(text),
        Err(Failed) => Err(Status::OutOfMemory),
    }
}

/// The lines of the inside costs of a grammar, or the status where memory is refused.
pub(crate) fn inside_costs<S: Semiring>(
    alloc: Global,
    grammar: &Grammar<S>,
) -> Result<GrowingSink, Status>
    ensures text { IfOk result (λ text. HasInsides S.SCALE S.product grammar.now text.bytes) }
    ensures err { IfErr result (λ status. status ≡ Status.OutOfMemory) }
{
    let Ok(costs) = inside::<S>(alloc, grammar) else {
        return Err(Status::OutOfMemory);
    };
    match inside_text::<S>(alloc, grammar.names(), &costs) {
        Ok(text) => Ok(text),
        Err(Failed) => Err(Status::OutOfMemory),
    }
}

/// The lines of the classes of a transducer, or the status where memory is refused.
pub(crate) fn classes_of<S>(
    alloc: Global,
    transducer: &Transducer<S>,
) -> Result<GrowingSink, Status>
    ensures text { IfOk result (λ text. HasClasses transducer.now text.bytes) }
    ensures err { IfErr result (λ status. status ≡ Status.OutOfMemory) }
{
    match classes_text::<S>(alloc, transducer) {
        Ok(text) => Ok(text),
        Err(Failed) => Err(Status::OutOfMemory),
    }
}

/// The text of a grammar that was printed.
pub(crate) fn grammar_text<S: Semiring + Drop>(
    made: Result<Printed<S>, Status>,
) -> Result<GrowingSink, Status>
    ensures { result ≡ text_part (λ printed. printed.text) made }
{
    match made {
        Ok(printed) => Ok(printed.text),
        Err(status) => Err(status),
    }
}

/// The text of a transducer that was printed.
pub(crate) fn transducer_text<S: Semiring + Drop>(
    made: Result<PrintedTransducer<S>, Status>,
) -> Result<GrowingSink, Status>
    ensures { result ≡ text_part (λ printed. printed.text) made }
{
    match made {
        Ok(printed) => Ok(printed.text),
        Err(status) => Err(status),
    }
}
