// The whole text of a job by one worker, of the values of its files.
ghost use Rattle.std.specs.Prelude.{IsSome};
ghost use Rattle.tib_command.specs.Jobs.{meaning};
ghost use Rattle.tib_job.specs.Kinds.{kinds_of};
ghost use Rattle.tib_job.specs.Outcomes.{IsOutcome, setting_of};
ghost use Rattle.tib_job.specs.Values.{AreLent, ArePrintableValues, values_as};
ghost use Rattle.tib_run.specs.Jobs.{IsWellFormed};

use crate::texts::{classes_of, grammar_text, inside_costs, transducer_text, weighed_trees};
use std::alloc::Global;
use std::thread::Threads;
use tib_command::{Job, Operation};
use tib_cost::Semiring;
use tib_expand::Gate;
use tib_grammar::Grammar;
use tib_hunted_texts::{
    comparison_of, composition_of, count_of, demo_of, determinization_of, difference_of, domain_of,
    forward_image_of, intersection_of, inverse_image_of, outputs_of, parse_of,
};
use tib_io::GrowingSink;
use tib_job::Values;
use tib_operations::Status;
use tib_texts::{
    canonical_normal, canonical_pruned, demand, demand_invertible, demand_plain, derivations_text,
    inverse_text, kbest_text, through_text, trimmed_text, union_of,
};
use tib_transducer::Transducer;
use tib_tree::Labels;

/// The whole text of a job by one worker, of the values of its files over their table of labels, or
/// the status with which the run ends: that of the first rule outside the class that the operation
/// demands, of more parts than the limit, of a tree that is too large, or that memory was refused.
pub(crate) fn text_of<S: Semiring + Sync + Drop, R: Threads + Sync, G: Gate>(
    rt: &R,
    alloc: Global,
    job: &Job,
    values: Values<S>,
    labels: Labels,
    gate: &G,
) -> Result<GrowingSink, Status>
    requires job { IsWellFormed job.now }
    requires held { IsSome (values_as values (kinds_of job.now.operation)) }
    requires printable { ArePrintableValues S.SCALE labels values }
    ensures { IsOutcome job.now.operation
        (setting_of S.SCALE S.LEVELLED S.product (meaning job.now) labels) values result }
{
    match values {
        Values::Grammar(grammar) => text_of_grammar::<S, G>(alloc, job, grammar, labels, gate),
        Values::Grammars(first, second) => {
            text_of_grammars::<S, G>(alloc, job, first, second, labels, gate)
        }
        Values::Transducer(transducer) => {
            text_of_transducer::<S, G>(alloc, job, transducer, labels, gate)
        }
        values => text_of_lent::<S, R, G>(rt, alloc, job, &values, &labels, gate),
    }
}

/// The same for an operation that reads the values of its files, and takes none of them apart.
pub(crate) fn text_of_lent<S: Semiring + Sync + Drop, R: Threads + Sync, G: Gate>(
    rt: &R,
    alloc: Global,
    job: &Job,
    values: &Values<S>,
    labels: &Labels,
    gate: &G,
) -> Result<GrowingSink, Status>
    requires job { IsWellFormed job.now }
    requires lent { AreLent values.now }
    requires held { IsSome (values_as values.now (kinds_of job.now.operation)) }
    requires printable { ArePrintableValues S.SCALE labels.now values.now }
    ensures { IsOutcome job.now.operation
        (setting_of S.SCALE S.LEVELLED S.product (meaning job.now) labels.now) values.now result }
{
    let limit = job.limit;
    match values {
        Values::GrammarAndTrees(grammar, trees) => {
            weighed_trees::<S, R>(rt, alloc, grammar, trees, labels, limit)
        }
        Values::Supports(first, second) => {
            comparison_of::<G>(alloc, &first.grammar, &second.grammar, labels, limit, gate)
        }
        Values::GrammarAndSupport(grammar, support) => {
            let support = &support.grammar;
            grammar_text(difference_of::<S, G>(alloc, grammar, support, labels, limit, gate))
        }
        Values::Support(support) => count_of::<G>(alloc, &support.grammar, labels, limit, gate),
        Values::GrammarAndTransducer(grammar, transducer) => {
            match demand::<S>(transducer, 2, true, false) {
                Ok(()) => grammar_text(forward_image_of::<S, G>(
                    alloc, grammar, transducer, labels, limit, gate,
                )),
                Err(status) => Err(status),
            }
        }
        Values::TransducerAndGrammar(transducer, grammar) => {
            match demand::<S>(transducer, 1, true, true) {
                Ok(()) => grammar_text(inverse_image_of::<S, G>(
                    alloc, transducer, grammar, labels, limit, gate,
                )),
                Err(status) => Err(status),
            }
        }
        Values::Transducers(first, second) => match demand_plain::<S>(second, 2) {
            Ok(()) => {
                transducer_text(composition_of::<S, G>(alloc, first, second, labels, limit, gate))
            }
            Err(status) => Err(status),
        },
        Values::TreeAndTransducer(tree, transducer) => {
            grammar_text(outputs_of::<S, G>(alloc, tree, transducer, labels, limit, gate))
        }
        Values::StringTransducerAndString(transducer, string) => {
            grammar_text(parse_of::<S, G>(alloc, transducer, string, labels, limit, gate))
        }
        Values::Nothing => demo_of::<S, G>(alloc, job.demo, limit, gate),
        Values::Grammar(_) | Values::Grammars(_, _) | Values::Transducer(_) => unreachable!(),
    }
}

/// The same for an operation that takes one grammar.
pub(crate) fn text_of_grammar<S: Semiring + Drop, G: Gate>(
    alloc: Global,
    job: &Job,
    grammar: Grammar<S>,
    mut labels: Labels,
    gate: &G,
) -> Result<GrowingSink, Status>
    requires job { IsWellFormed job.now }
    requires held { IsSome (values_as {S = S} (Values.Grammar grammar)
        (kinds_of job.now.operation)) }
    requires printable { ArePrintableValues {S = S} S.SCALE labels (Values.Grammar grammar) }
    ensures { IsOutcome {S = S} job.now.operation
        (setting_of S.SCALE S.LEVELLED S.product (meaning job.now) labels)
        (Values.Grammar grammar) result }
{
    let limit = job.limit;
    match job.operation {
        Operation::Inside => inside_costs::<S>(alloc, &grammar),
        Operation::Normal => grammar_text(canonical_normal::<S>(alloc, &grammar, &labels, limit)),
        Operation::KBest => kbest_text::<S>(alloc, &grammar, &labels, limit, job.k),
        Operation::Determinize => {
            grammar_text(determinization_of::<S, G>(alloc, &grammar, &labels, limit, gate))
        }
        Operation::Prune => {
            grammar_text(canonical_pruned::<S>(alloc, &grammar, &labels, limit, job.beam))
        }
        Operation::Trim => trimmed_text::<S>(alloc, grammar, &labels),
        Operation::Through => through_text::<S>(alloc, grammar, &labels),
        Operation::Runs => derivations_text::<S>(alloc, grammar, &mut labels),
        _ => unreachable!(),
    }
}

/// The same for an operation that takes two grammars.
pub(crate) fn text_of_grammars<S: Semiring + Drop, G: Gate>(
    alloc: Global,
    job: &Job,
    first: Grammar<S>,
    second: Grammar<S>,
    labels: Labels,
    gate: &G,
) -> Result<GrowingSink, Status>
    requires job { IsWellFormed job.now }
    requires held { IsSome (values_as {S = S} (Values.Grammars first second)
        (kinds_of job.now.operation)) }
    requires printable { ArePrintableValues {S = S} S.SCALE labels
        (Values.Grammars first second) }
    ensures { IsOutcome {S = S} job.now.operation
        (setting_of S.SCALE S.LEVELLED S.product (meaning job.now) labels)
        (Values.Grammars first second) result }
{
    let limit = job.limit;
    match job.operation {
        Operation::Intersect => {
            grammar_text(intersection_of::<S, G>(alloc, &first, &second, &labels, limit, gate))
        }
        Operation::Union => grammar_text(union_of::<S>(alloc, first, second, &labels, limit)),
        _ => unreachable!(),
    }
}

/// The same for an operation that takes one transducer.
pub(crate) fn text_of_transducer<S: Semiring + Drop, G: Gate>(
    alloc: Global,
    job: &Job,
    transducer: Transducer<S>,
    labels: Labels,
    gate: &G,
) -> Result<GrowingSink, Status>
    requires job { IsWellFormed job.now }
    requires held { IsSome (values_as {S = S} (Values.Transducer transducer)
        (kinds_of job.now.operation)) }
    requires printable { ArePrintableValues {S = S} S.SCALE labels
        (Values.Transducer transducer) }
    ensures { IsOutcome {S = S} job.now.operation
        (setting_of S.SCALE S.LEVELLED S.product (meaning job.now) labels)
        (Values.Transducer transducer) result }
{
    match job.operation {
        Operation::Check => classes_of::<S>(alloc, &transducer),
        Operation::Invert => match demand_invertible::<S>(&transducer, 1) {
            Ok(()) => inverse_text::<S>(alloc, transducer, &labels),
            Err(status) => Err(status),
        },
        Operation::Domain => match demand::<S>(&transducer, 1, true, false) {
            Ok(()) => {
                grammar_text(domain_of::<S, G>(alloc, transducer, &labels, job.limit, gate))
            }
            Err(status) => Err(status),
        },
        _ => unreachable!(),
    }
}
