// The run of a job by its workers.
ghost use Rattle.std.specs.Prelude.{◌≡◌, Some, map, string_bytes};
ghost use Rattle.tib_command.specs.Jobs.{job_of, meaning};
ghost use Rattle.tib_job.specs.Causes.{levelled_of, scale_of, product_of};
ghost use Rattle.tib_job.specs.Run.{IsRunOf, files_seen};
ghost use Rattle.tib_run.specs.Jobs.{IsWellFormed};

use crate::alone::{perform_job, write_outcome};
use crate::text_together::text_together;
use std::alloc::Global;
use std::sync::Wait;
use std::thread::Threads;
use tib_command::{CommandError, Job, Mode, read_words};
use tib_cost::{Boolean, Bottleneck, MinPlus, Semiring, Widest};
use tib_expand::Gate;
use tib_io::{Files, Sink};
use tib_job::{files_have_no_fault, values_of, within_or_too_many};
use tib_operations::Status;
use tib_tree::Labels;

// Writes the answer of the job, which its workers make.
fn answer_together<
    S: Semiring + Sync + Drop,
    R: Threads + Wait + Sync,
    F: Files,
    O: Sink,
    G: Gate + Sync,
>(rt: &R, alloc: Global, job: &Job, files: &mut F, out: &mut O, gate: &G) -> Status
    requires job { IsWellFormed job.now }
    requires levelled { S.LEVELLED ≡ levelled_of job.now.mode }
    requires mode { S.SCALE ≡ scale_of job.now.mode }
    requires product { S.product ≡ product_of job.now.mode }
    ensures { IsRunOf (Some (meaning job.now))
        (files_seen F.held F.sure F.faults files.old) (files_seen F.held F.sure F.faults files.new)
        (O.seen out.old) (O.seen out.new) result }
{
    files_have_no_fault();
    within_or_too_many();
    let mut labels = Labels::new(alloc);
    let values = match values_of::<S, F>(alloc, job, files, &mut labels) {
        Ok(values) => values,
        Err(status) => return status,
    };
    write_outcome(
        out,
        text_together::<S, R, G>(rt, alloc, job, values, labels, gate),
    )
}

// Does a job by its workers. One worker does it as in `perform_job`, which returns.
fn perform_job_together<R: Threads + Wait + Sync, F: Files, O: Sink, G: Gate + Sync>(
    rt: &R,
    alloc: Global,
    job: &Job,
    files: &mut F,
    out: &mut O,
    gate: &G,
) -> Status
    requires job { IsWellFormed job.now }
    ensures { IsRunOf (Some (meaning job.now))
        (files_seen F.held F.sure F.faults files.old) (files_seen F.held F.sure F.faults files.new)
        (O.seen out.old) (O.seen out.new) result }
{
    if job.workers == 1 {
        return perform_job::<R, F, O, G>(rt, alloc, job, files, out, gate);
    }
    match job.mode {
        Mode::MinPlus => answer_together::<MinPlus, R, F, O, G>(rt, alloc, job, files, out, gate),
        Mode::Bottleneck => answer_together::<Bottleneck, R, F, O, G>(
            rt, alloc, job, files, out, gate,
        ),
        Mode::Widest => answer_together::<Widest, R, F, O, G>(rt, alloc, job, files, out, gate),
        Mode::Boolean => answer_together::<Boolean, R, F, O, G>(rt, alloc, job, files, out, gate),
    }
}

/// Does what the words ask for by the workers that they name: everything but the line on the log.
pub(crate) fn perform_together<R: Threads + Wait + Sync, F: Files, O: Sink, G: Gate + Sync>(
    rt: &R,
    alloc: Global,
    words: &[String],
    files: &mut F,
    out: &mut O,
    gate: &G,
) -> Status
    ensures { IsRunOf (job_of (map (λ s. string_bytes s) words.now))
        (files_seen F.held F.sure F.faults files.old) (files_seen F.held F.sure F.faults files.new)
        (O.seen out.old) (O.seen out.new) result }
{
    files_have_no_fault();
    within_or_too_many();
    match read_words(alloc, words) {
        Ok(job) => perform_job_together::<R, F, O, G>(rt, alloc, &job, files, out, gate),
        Err(CommandError::Usage) => Status::Usage,
        Err(CommandError::OutOfMemory) => Status::OutOfMemory,
    }
}
