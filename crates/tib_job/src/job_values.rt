// The values of all files of a job, over one table of labels.
ghost use Rattle.std.specs.Prelude.{[], ◌∷◌, ◌≡◌, Some, length, IfErr, IfOk};
ghost use Rattle.tib_command.specs.Jobs.{meaning, word_count};
ghost use Rattle.tib_job.specs.Kinds.{AreTexts, IsAmong, kinds_of, of_two_files};
ghost use Rattle.tib_job.specs.Causes.{bytes_of, scale_of};
ghost use Rattle.tib_job.specs.Steps.{EndsRun, LeavesFiles, files_seen};
ghost use Rattle.tib_job.specs.Values.{AreValuesOf, ArePrintableValues, IsPrintableValue};

use crate::files::{FileValue, value_in};
use crate::values::Support;
use std::alloc::Global;
use tib_command::{Job, Operation};
use tib_cost::Semiring;
use tib_grammar::Grammar;
use tib_io::Files;
use tib_operations::Status;
use tib_strings::StringTransducer;
use tib_transducer::Transducer;
use tib_tree::{Label, Labels, Tree};

/// What the files of a job hold, in order.
#[derive(Drop)]
pub enum Values<S> {
    /// A grammar and trees.
    GrammarAndTrees(Grammar<S>, Vec<Tree>),
    /// One grammar.
    Grammar(Grammar<S>),
    /// Two grammars.
    Grammars(Grammar<S>, Grammar<S>),
    /// Two grammars of which only their trees count.
    Supports(Support, Support),
    /// A grammar, and one of which only its trees count.
    GrammarAndSupport(Grammar<S>, Support),
    /// One grammar of which only its trees count.
    Support(Support),
    /// A grammar and a transducer.
    GrammarAndTransducer(Grammar<S>, Transducer<S>),
    /// A transducer and a grammar.
    TransducerAndGrammar(Transducer<S>, Grammar<S>),
    /// Two transducers.
    Transducers(Transducer<S>, Transducer<S>),
    /// One transducer.
    Transducer(Transducer<S>),
    /// A tree and a transducer.
    TreeAndTransducer(Tree, Transducer<S>),
    /// A tree-to-string transducer and the words of a string.
    StringTransducerAndString(StringTransducer<S>, Vec<Label>),
    /// No file.
    Nothing,
}

/// The values of the files of a job, read in order over one table of labels that is empty before,
/// or the status with which the run ends: that of the first file that cannot be read, is too long
/// or is not of its kind, or `OutOfMemory`. New labels go into the table, also on an error. No file
/// is read twice. The cost is that of reading each file and its text once.
pub fn values_of<S: Semiring + Drop, F: Files>(
    alloc: Global,
    job: &Job,
    files: &mut F,
    labels: &mut Labels,
) -> Result<Values<S>, Status>
    requires files { length job.now.files.items ≡ word_count job.now.operation }
    requires mode { S.SCALE ≡ scale_of job.now.mode }
    requires labels { labels.old ≡ [] }
    ensures texts { IfOk result (AreValuesOf S.SCALE labels.new
        (bytes_of (meaning job.now) (F.held files.old)) job.now.operation) }
    ensures printable { IfOk result (ArePrintableValues S.SCALE labels.new) }
    ensures status { IfErr result (EndsRun (Some (meaning job.now))
        (files_seen F.held F.sure F.faults files.old)
        (files_seen F.held F.sure F.faults files.new)) }
    ensures files { LeavesFiles (files_seen F.held F.sure F.faults files.old)
        (files_seen F.held F.sure F.faults files.new) }
{
    match job.operation {
        Operation::Inside
        | Operation::Normal
        | Operation::KBest
        | Operation::Determinize
        | Operation::Prune
        | Operation::Trim
        | Operation::Through
        | Operation::Runs => match one_of::<Grammar<S>, F>(alloc, job, files, labels) {
            Ok(grammar) => Ok(Values::Grammar(grammar)),
            Err(status) => Err(status),
        },
        Operation::Check | Operation::Invert | Operation::Domain => {
            match one_of::<Transducer<S>, F>(alloc, job, files, labels) {
                Ok(transducer) => Ok(Values::Transducer(transducer)),
                Err(status) => Err(status),
            }
        }
        Operation::Count => match one_of::<Support, F>(alloc, job, files, labels) {
            Ok(support) => Ok(Values::Support(support)),
            Err(status) => Err(status),
        },
        Operation::Demo => {
            labels.len();
            Ok(Values::Nothing)
        }
        Operation::Weigh
        | Operation::Intersect
        | Operation::Union
        | Operation::Difference
        | Operation::Forward
        | Operation::Backward
        | Operation::Compose
        | Operation::Image
        | Operation::Parse
        | Operation::Compare => values_of_both::<S, F>(alloc, job, files, labels),
    }
}

// The same for an operation that takes two files.
fn values_of_both<S: Semiring + Drop, F: Files>(
    alloc: Global,
    job: &Job,
    files: &mut F,
    labels: &mut Labels,
) -> Result<Values<S>, Status>
    requires both { IsAmong of_two_files job.now.operation }
    requires files { length job.now.files.items ≡ 2 }
    requires mode { S.SCALE ≡ scale_of job.now.mode }
    requires labels { labels.old ≡ [] }
    ensures texts { IfOk result (AreValuesOf S.SCALE labels.new
        (bytes_of (meaning job.now) (F.held files.old)) job.now.operation) }
    ensures printable { IfOk result (ArePrintableValues S.SCALE labels.new) }
    ensures status { IfErr result (EndsRun (Some (meaning job.now))
        (files_seen F.held F.sure F.faults files.old)
        (files_seen F.held F.sure F.faults files.new)) }
    ensures files { LeavesFiles (files_seen F.held F.sure F.faults files.old)
        (files_seen F.held F.sure F.faults files.new) }
{
    match job.operation {
        Operation::Weigh => match two_of(alloc, job, files, labels) {
            Ok((grammar, trees)) => Ok(Values::GrammarAndTrees(grammar, trees)),
            Err(status) => Err(status),
        },
        Operation::Intersect | Operation::Union => match two_of(alloc, job, files, labels) {
            Ok((first, second)) => Ok(Values::Grammars(first, second)),
            Err(status) => Err(status),
        },
        Operation::Difference => match two_of(alloc, job, files, labels) {
            Ok((grammar, support)) => Ok(Values::GrammarAndSupport(grammar, support)),
            Err(status) => Err(status),
        },
        Operation::Forward => match two_of(alloc, job, files, labels) {
            Ok((grammar, transducer)) => Ok(Values::GrammarAndTransducer(grammar, transducer)),
            Err(status) => Err(status),
        },
        Operation::Backward => match two_of(alloc, job, files, labels) {
            Ok((transducer, grammar)) => Ok(Values::TransducerAndGrammar(transducer, grammar)),
            Err(status) => Err(status),
        },
        Operation::Compose => match two_of(alloc, job, files, labels) {
            Ok((first, second)) => Ok(Values::Transducers(first, second)),
            Err(status) => Err(status),
        },
        Operation::Image => match two_of(alloc, job, files, labels) {
            Ok((tree, transducer)) => Ok(Values::TreeAndTransducer(tree, transducer)),
            Err(status) => Err(status),
        },
        Operation::Parse => match two_of(alloc, job, files, labels) {
            Ok((transducer, string)) => Ok(Values::StringTransducerAndString(transducer, string)),
            Err(status) => Err(status),
        },
        Operation::Compare => match two_of(alloc, job, files, labels) {
            Ok((first, second)) => Ok(Values::Supports(first, second)),
            Err(status) => Err(status),
        },
        _ => unreachable!(),
    }
}

// The value of the one file of a job.
fn one_of<V: FileValue + Drop, F: Files>(
    alloc: Global,
    job: &Job,
    files: &mut F,
    labels: &mut Labels,
) -> Result<V, Status>
    requires files { length job.now.files.items ≡ 1 }
    requires kinds { kinds_of job.now.operation ≡ V.kind ∷ [] }
    requires mode { V.suits (scale_of job.now.mode) }
    requires labels { labels.old ≡ [] }
    ensures texts { IfOk result (λ v. AreTexts (scale_of job.now.mode) labels.new
        (bytes_of (meaning job.now) (F.held files.old)) (V.kind ∷ []) (V.value v, tt)) }
    ensures printable { IfOk result (λ v. IsPrintableValue (scale_of job.now.mode) labels.new
        V.kind (V.value v)) }
    ensures status { IfErr result (EndsRun (Some (meaning job.now))
        (files_seen F.held F.sure F.faults files.old)
        (files_seen F.held F.sure F.faults files.new)) }
    ensures files { LeavesFiles (files_seen F.held F.sure F.faults files.old)
        (files_seen F.held F.sure F.faults files.new) }
{
    let value = match value_in::<V, F>(alloc, job, 1, files, labels) {
        Ok(value) => value,
        Err(status) => return Err(status),
    };
    labels.len();
    Ok(value)
}

// The values of the two files of a job.
fn two_of<V: FileValue + Drop, W: FileValue + Drop, F: Files>(
    alloc: Global,
    job: &Job,
    files: &mut F,
    labels: &mut Labels,
) -> Result<(V, W), Status>
    requires files { length job.now.files.items ≡ 2 }
    requires kinds { kinds_of job.now.operation ≡ V.kind ∷ W.kind ∷ [] }
    requires first { V.suits (scale_of job.now.mode) }
    requires second { W.suits (scale_of job.now.mode) }
    requires labels { labels.old ≡ [] }
    ensures texts { IfOk result (λ r. AreTexts (scale_of job.now.mode) labels.new
        (bytes_of (meaning job.now) (F.held files.old)) (V.kind ∷ W.kind ∷ [])
        (V.value r.0, (W.value r.1, tt))) }
    ensures printable { IfOk result (λ r.
        IsPrintableValue (scale_of job.now.mode) labels.new V.kind (V.value r.0)
        × IsPrintableValue (scale_of job.now.mode) labels.new W.kind (W.value r.1)) }
    ensures status { IfErr result (EndsRun (Some (meaning job.now))
        (files_seen F.held F.sure F.faults files.old)
        (files_seen F.held F.sure F.faults files.new)) }
    ensures files { LeavesFiles (files_seen F.held F.sure F.faults files.old)
        (files_seen F.held F.sure F.faults files.new) }
{
    let first = match value_in::<V, F>(alloc, job, 1, files, labels) {
        Ok(first) => first,
        Err(status) => return Err(status),
    };
    let second = match value_in::<W, F>(alloc, job, 2, files, labels) {
        Ok(second) => second,
        Err(status) => return Err(status),
    };
    labels.len();
    Ok((first, second))
}
