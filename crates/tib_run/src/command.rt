// The run of a command.
ghost use Rattle.std.specs.Prelude.{map, string_bytes};
ghost use Rattle.tib_command.specs.Jobs.{job_of};
ghost use Rattle.tib_run.specs.Log.{line_of};
ghost use Rattle.tib_job.specs.Run.{IsRunOf, IsLogged, files_seen};

use crate::alone::perform;
use crate::log::tell;
use crate::together::perform_together;
use std::alloc::Global;
use std::sync::Wait;
use std::thread::Threads;
use tib_expand::Gate;
use tib_io::{Files, Sink};
use tib_operations::Status;

/// Does what the words ask for with one worker, whatever they say of workers, and returns. Its
/// clauses are those of `run`. Cost: that of reading the files, of the operation, and of writing
/// its text.
pub fn run_alone<R: Threads + Sync, F: Files, O: Sink, E: Sink, G: Gate + Sync>(
    rt: &R,
    alloc: Global,
    words: &[String],
    files: &mut F,
    out: &mut O,
    log: &mut E,
    gate: &G,
) -> Status
    ensures run { IsRunOf (job_of (map (λ s. string_bytes s) words.now))
        (files_seen F.held F.sure F.faults files.old) (files_seen F.held F.sure F.faults files.new)
        (O.seen out.old) (O.seen out.new) result }
    ensures log { IsLogged (line_of result) (E.seen log.old) (E.seen log.new) }
{
    let status = perform::<R, F, O, G>(rt, alloc, words, files, out, gate);
    let _ = tell(log, &status);
    status
}

/// Does what the words ask for: `words` are those after the program's name. With one worker, which
/// is the default, it does what `run_alone` does, and returns. Several workers hunt, whatever the
/// order of their steps, and then it may wait forever, as their hunt (`hunt` of tib_hunt). It
/// reports on the log why it did not end with `Done`. Each status comes only with its cause, and
/// after every status but `Done` and `WriteFault` the whole of `out` is as it was. After `Done` the
/// whole answer was written, and `out` is finished; after `WriteFault` a front of it was. What was
/// written on `out` and on the log is taken from the room that they report. It does not finish the
/// log.
pub fn run<R: Threads + Wait + Sync, F: Files, O: Sink, E: Sink, G: Gate + Sync>(
    rt: &R,
    alloc: Global,
    words: &[String],
    files: &mut F,
    out: &mut O,
    log: &mut E,
    gate: &G,
) -> Status
    ensures run { IsRunOf (job_of (map (λ s. string_bytes s) words.now))
        (files_seen F.held F.sure F.faults files.old) (files_seen F.held F.sure F.faults files.new)
        (O.seen out.old) (O.seen out.new) result }
    ensures log { IsLogged (line_of result) (E.seen log.old) (E.seen log.new) }
{
    let status = perform_together::<R, F, O, G>(rt, alloc, words, files, out, gate);
    let _ = tell(log, &status);
    status
}
