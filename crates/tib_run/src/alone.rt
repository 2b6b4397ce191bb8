// The run of a job by one worker.
ghost use Rattle.std.specs.Prelude.{◌≡◌, Some, map, string_bytes};
ghost use Rattle.tib_command.specs.Jobs.{job_of, meaning};
ghost use Rattle.tib_job.specs.Causes.{levelled_of, scale_of, product_of};
ghost use Rattle.tib_job.specs.Run.{IsRunOf, files_seen};
ghost use Rattle.tib_job.specs.Steps.{WritesOutcome};
ghost use Rattle.tib_run.specs.Jobs.{IsWellFormed};

use crate::text_alone::text_of;
use std::alloc::Global;
use std::thread::Threads;
use tib_command::{CommandError, Job, Mode, read_words};
use tib_cost::{Boolean, Bottleneck, MinPlus, Semiring, Widest};
use tib_expand::Gate;
use tib_io::{Failed, Files, GrowingSink, Sink, write_and_finish};
use tib_job::{files_have_no_fault, values_of, within_or_too_many};
use tib_operations::Status;
use tib_tree::Labels;

/// Writes a text, where there is one, and returns the status with which the run ends.
pub(crate) fn write_outcome<O: Sink>(out: &mut O, outcome: Result<GrowingSink, Status>) -> Status
    ensures { WritesOutcome outcome (O.seen out.old) (O.seen out.new) result }
{
    match outcome {
        Ok(text) => match write_and_finish(out, text.bytes()) {
            Ok(()) => Status::Done,
            Err(Failed) => Status::WriteFault,
        },
        Err(status) => status,
    }
}

// Writes the answer of the job, which one worker makes.
fn answer_job<S: Semiring + Sync + Drop, R: Threads + Sync, F: Files, O: Sink, G: Gate>(
    rt: &R,
    alloc: Global,
    job: &Job,
    files: &mut F,
    out: &mut O,
    gate: &G,
) -> Status
    requires job { IsWellFormed job.now }
    requires levelled { S.LEVELLED ≡ levelled_of job.now.mode }
    requires mode { S.SCALE ≡ scale_of job.now.mode }
    requires product { S.product ≡ product_of job.now.mode }
    ensures { IsRunOf (Some (meaning job.now))
        (files_seen F.held F.sure F.faults files.old) (files_seen F.held F.sure F.faults files.new)
        (O.seen out.old) (O.seen out.new) result }
{
    files_have_no_fault();
    within_or_too_many();
    let mut labels = Labels::new(alloc);
    let values = match values_of::<S, F>(alloc, job, files, &mut labels) {
        Ok(values) => values,
        Err(status) => return status,
    };
    write_outcome(
        out,
        text_of::<S, R, G>(rt, alloc, job, values, labels, gate),
    )
}

/// Does a job with one worker.
pub(crate) fn perform_job<R: Threads + Sync, F: Files, O: Sink, G: Gate>(
    rt: &R,
    alloc: Global,
    job: &Job,
    files: &mut F,
    out: &mut O,
    gate: &G,
) -> Status
    requires job { IsWellFormed job.now }
    ensures { IsRunOf (Some (meaning job.now))
        (files_seen F.held F.sure F.faults files.old) (files_seen F.held F.sure F.faults files.new)
        (O.seen out.old) (O.seen out.new) result }
{
    match job.mode {
        Mode::MinPlus => answer_job::<MinPlus, R, F, O, G>(rt, alloc, job, files, out, gate),
        Mode::Bottleneck => answer_job::<Bottleneck, R, F, O, G>(rt, alloc, job, files, out, gate),
        Mode::Widest => answer_job::<Widest, R, F, O, G>(rt, alloc, job, files, out, gate),
        Mode::Boolean => answer_job::<Boolean, R, F, O, G>(rt, alloc, job, files, out, gate),
    }
}

/// Does what the words ask for with one worker: everything but the line on the log.
pub(crate) fn perform<R: Threads + Sync, F: Files, O: Sink, G: Gate>(
    rt: &R,
    alloc: Global,
    words: &[String],
    files: &mut F,
    out: &mut O,
    gate: &G,
) -> Status
    ensures { IsRunOf (job_of (map (λ s. string_bytes s) words.now))
        (files_seen F.held F.sure F.faults files.old) (files_seen F.held F.sure F.faults files.new)
        (O.seen out.old) (O.seen out.new) result }
{
    files_have_no_fault();
    within_or_too_many();
    match read_words(alloc, words) {
        Ok(job) => perform_job::<R, F, O, G>(rt, alloc, &job, files, out, gate),
        Err(CommandError::Usage) => Status::Usage,
        Err(CommandError::OutOfMemory) => Status::OutOfMemory,
    }
}
