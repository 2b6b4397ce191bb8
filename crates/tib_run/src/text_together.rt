// The whole text of a job by its workers, of the values of its files.
ghost use Rattle.std.specs.Prelude.{◌≤◌, IsSome};
ghost use Rattle.tib_command.specs.Jobs.{meaning};
ghost use Rattle.tib_job.specs.Kinds.{kinds_of};
ghost use Rattle.tib_job.specs.Outcomes.{IsOutcome, setting_of};
ghost use Rattle.tib_job.specs.Values.{AreLent, ArePrintableValues, values_as};
ghost use Rattle.tib_run.specs.Jobs.{IsWellFormed};

use crate::text_alone::{text_of_grammar, text_of_grammars, text_of_lent, text_of_transducer};
use crate::texts::{grammar_text, transducer_text};
use std::alloc::Global;
use std::sync::Wait;
use std::thread::Threads;
use tib_command::{Job, Operation};
use tib_cost::Semiring;
use tib_expand::Gate;
use tib_grammar::Grammar;
use tib_hunted_texts::{
    comparison_of_together, composition_of_together, count_of_together, demo_of_together,
    determinization_of_together, difference_of_together, domain_of_together,
    forward_image_of_together, intersection_of_together, inverse_image_of_together,
    outputs_of_together, parse_of_together,
};
use tib_io::GrowingSink;
use tib_job::Values;
use tib_operations::Status;
use tib_reached::Hunters;
use tib_texts::{demand, demand_plain};
use tib_transducer::Transducer;
use tib_tree::Labels;

/// What `text_of` returns: an operation that hunts does so by the workers of the job, whatever the
/// order of their steps, and may wait forever, as their hunt; each other works as with one worker.
pub(crate) fn text_together<S: Semiring + Sync + Drop, R: Threads + Wait + Sync, G: Gate + Sync>(
    rt: &R,
    alloc: Global,
    job: &Job,
    values: Values<S>,
    labels: Labels,
    gate: &G,
) -> Result<GrowingSink, Status>
    requires job { IsWellFormed job.now }
    requires held { IsSome (values_as values (kinds_of job.now.operation)) }
    requires printable { ArePrintableValues S.SCALE labels values }
    ensures { IsOutcome job.now.operation
        (setting_of S.SCALE S.LEVELLED S.product (meaning job.now) labels) values result }
{
    let hunters = Hunters {
        rt,
        workers: job.workers,
        gate,
    };
    match values {
        Values::Grammar(grammar) => {
            text_of_grammar_together::<S, R, G>(&hunters, alloc, job, grammar, labels)
        }
        Values::Grammars(first, second) => {
            text_of_grammars_together::<S, R, G>(&hunters, alloc, job, first, second, labels)
        }
        Values::Transducer(transducer) => {
            text_of_transducer_together::<S, R, G>(&hunters, alloc, job, transducer, labels)
        }
        values => text_of_lent_together::<S, R, G>(&hunters, alloc, job, &values, &labels),
    }
}

// The same for an operation that takes one grammar.
fn text_of_grammar_together<S: Semiring + Sync + Drop, R: Threads + Wait + Sync, G: Gate + Sync>(
    hunters: &Hunters<R, G>,
    alloc: Global,
    job: &Job,
    grammar: Grammar<S>,
    labels: Labels,
) -> Result<GrowingSink, Status>
    requires job { IsWellFormed job.now }
    requires workers { (1 ≤ hunters.now.workers) × (hunters.now.workers ≤ 16) }
    requires held { IsSome (values_as {S = S} (Values.Grammar grammar)
        (kinds_of job.now.operation)) }
    requires printable { ArePrintableValues {S = S} S.SCALE labels (Values.Grammar grammar) }
    ensures { IsOutcome {S = S} job.now.operation
        (setting_of S.SCALE S.LEVELLED S.product (meaning job.now) labels)
        (Values.Grammar grammar) result }
{
    match job.operation {
        Operation::Determinize => grammar_text(determinization_of_together::<S, R, G>(
            hunters, alloc, &grammar, &labels, job.limit,
        )),
        _ => text_of_grammar::<S, G>(alloc, job, grammar, labels, hunters.gate),
    }
}

// The same for an operation that takes two grammars.
fn text_of_grammars_together<S: Semiring + Sync + Drop, R: Threads + Wait + Sync, G: Gate + Sync>(
    hunters: &Hunters<R, G>,
    alloc: Global,
    job: &Job,
    first: Grammar<S>,
    second: Grammar<S>,
    labels: Labels,
) -> Result<GrowingSink, Status>
    requires job { IsWellFormed job.now }
    requires workers { (1 ≤ hunters.now.workers) × (hunters.now.workers ≤ 16) }
    requires held { IsSome (values_as {S = S} (Values.Grammars first second)
        (kinds_of job.now.operation)) }
    requires printable { ArePrintableValues {S = S} S.SCALE labels
        (Values.Grammars first second) }
    ensures { IsOutcome {S = S} job.now.operation
        (setting_of S.SCALE S.LEVELLED S.product (meaning job.now) labels)
        (Values.Grammars first second) result }
{
    match job.operation {
        Operation::Intersect => grammar_text(intersection_of_together::<S, R, G>(
            hunters, alloc, &first, &second, &labels, job.limit,
        )),
        _ => text_of_grammars::<S, G>(alloc, job, first, second, labels, hunters.gate),
    }
}

// The same for an operation that takes one transducer.
fn text_of_transducer_together<S: Semiring + Sync + Drop, R: Threads + Wait + Sync, G: Gate + Sync>(
    hunters: &Hunters<R, G>,
    alloc: Global,
    job: &Job,
    transducer: Transducer<S>,
    labels: Labels,
) -> Result<GrowingSink, Status>
    requires job { IsWellFormed job.now }
    requires workers { (1 ≤ hunters.now.workers) × (hunters.now.workers ≤ 16) }
    requires held { IsSome (values_as {S = S} (Values.Transducer transducer)
        (kinds_of job.now.operation)) }
    requires printable { ArePrintableValues {S = S} S.SCALE labels
        (Values.Transducer transducer) }
    ensures { IsOutcome {S = S} job.now.operation
        (setting_of S.SCALE S.LEVELLED S.product (meaning job.now) labels)
        (Values.Transducer transducer) result }
{
    match job.operation {
        Operation::Domain => match demand::<S>(&transducer, 1, true, false) {
            Ok(()) => grammar_text(domain_of_together::<S, R, G>(
                hunters, alloc, transducer, &labels, job.limit,
            )),
            Err(status) => Err(status),
        },
        _ => text_of_transducer::<S, G>(alloc, job, transducer, labels, hunters.gate),
    }
}

// The same for an operation that reads the values of its files, and takes none of them apart.
fn text_of_lent_together<S: Semiring + Sync + Drop, R: Threads + Wait + Sync, G: Gate + Sync>(
    hunters: &Hunters<R, G>,
    alloc: Global,
    job: &Job,
    values: &Values<S>,
    labels: &Labels,
) -> Result<GrowingSink, Status>
    requires job { IsWellFormed job.now }
    requires workers { (1 ≤ hunters.now.workers) × (hunters.now.workers ≤ 16) }
    requires lent { AreLent values.now }
    requires held { IsSome (values_as values.now (kinds_of job.now.operation)) }
    requires printable { ArePrintableValues S.SCALE labels.now values.now }
    ensures { IsOutcome job.now.operation
        (setting_of S.SCALE S.LEVELLED S.product (meaning job.now) labels.now) values.now result }
{
    let limit = job.limit;
    match values {
        Values::Supports(first, second) => comparison_of_together::<R, G>(
            hunters,
            alloc,
            &first.grammar,
            &second.grammar,
            labels,
            limit,
        ),
        Values::GrammarAndSupport(grammar, support) => {
            let support = &support.grammar;
            grammar_text(difference_of_together::<S, R, G>(
                hunters, alloc, grammar, support, labels, limit,
            ))
        }
        Values::Support(support) => {
            count_of_together::<R, G>(hunters, alloc, &support.grammar, labels, limit)
        }
        Values::GrammarAndTransducer(grammar, transducer) => {
            match demand::<S>(transducer, 2, true, false) {
                Ok(()) => grammar_text(forward_image_of_together::<S, R, G>(
                    hunters, alloc, grammar, transducer, labels, limit,
                )),
                Err(status) => Err(status),
            }
        }
        Values::TransducerAndGrammar(transducer, grammar) => {
            match demand::<S>(transducer, 1, true, true) {
                Ok(()) => grammar_text(inverse_image_of_together::<S, R, G>(
                    hunters, alloc, transducer, grammar, labels, limit,
                )),
                Err(status) => Err(status),
            }
        }
        Values::Transducers(first, second) => match demand_plain::<S>(second, 2) {
            Ok(()) => transducer_text(composition_of_together::<S, R, G>(
                hunters, alloc, first, second, labels, limit,
            )),
            Err(status) => Err(status),
        },
        Values::TreeAndTransducer(tree, transducer) => grammar_text(outputs_of_together::<S, R, G>(
            hunters, alloc, tree, transducer, labels, limit,
        )),
        Values::StringTransducerAndString(transducer, string) => {
            grammar_text(parse_of_together::<S, R, G>(
                hunters, alloc, transducer, string, labels, limit,
            ))
        }
        Values::Nothing => demo_of_together::<S, R, G>(hunters, alloc, job.demo, limit),
        _ => text_of_lent::<S, R, G>(hunters.rt, alloc, job, values, labels, hunters.gate),
    }
}
