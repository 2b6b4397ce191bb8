//! The word language of the command line: options `-m`, `-k`, `-w`, `--limit` and `--beam` in all
//! their forms, anywhere among the words and each at most once, then the operation and the names of
//! its files, or the number of `demo`. `read_words` returns a job exactly where the words are of
//! the language, for all lists of words. `clap` says what each word belongs to, and takes each
//! value as a text; this crate reads the texts and counts them and the files.
#![tactic(auto)]

ghost use Rattle.std.specs.Prelude.{◌≡◌, ◌≤◌, IfOk, IfErr, None, Some, length, map};
ghost use Rattle.std.specs.String.{string_bytes};
ghost use Rattle.tib_command.specs.declared.job.CommandError.TheVariants.{Usage};
ghost use Rattle.tib_command.specs.declared.job.Operation.TheVariants.{Demo};
ghost use Rattle.tib_command.specs.Jobs.{job_of, meaning, most_beam, most_demo, most_parts, most_trees, most_workers, word_count};

mod job;
mod options;
mod values;

pub use job::{CommandError, Job, Mode, Operation};
use options::matches_of;
use std::alloc::Global;
use values::{beam_once, mode_once, number_once, read_task};

/// The greatest number of trees that may be asked for (`-k`).
pub const MOST_TREES: u64 = 10_000;

/// The greatest number of workers (`-w`).
pub const MOST_WORKERS: u64 = 16;

/// The greatest limit on parts (`--limit`), that of a hunt, which holds where none is given.
pub const MOST_PARTS: u64 = tib_expand::MOST_PARTS;

/// The greatest beam (`--beam`), which is the greatest cost.
pub const MOST_BEAM: u64 = tib_cost::MOST;

/// The greatest number that `demo` takes.
pub const MOST_DEMO: u64 = 16;

/// The limits that clauses cite are these constants.
pub fn words_have_limits()
    ensures trees { MOST_TREES ≡ most_trees }
    ensures workers { MOST_WORKERS ≡ most_workers }
    ensures parts { MOST_PARTS ≡ most_parts }
    ensures beam { MOST_BEAM ≡ most_beam }
    ensures demo { MOST_DEMO ≡ most_demo }
{}

/// The job that the words ask for, which are those after the program's name. `Usage` comes exactly
/// where they are not of the word language, `OutOfMemory` only if memory is refused. Cost: that of
/// `clap` for these words, and a few passes over the values.
pub fn read_words(alloc: Global, words: &[String]) -> Result<Job, CommandError>
    ensures ok { IfOk result (λ job. job_of (map (λ s. string_bytes s) words.now)
        ≡ Some (meaning job)) }
    ensures k { IfOk result (λ job. (1 ≤ job.k) × (job.k ≤ most_trees)) }
    ensures workers { IfOk result (λ job. (1 ≤ job.workers) × (job.workers ≤ most_workers)) }
    ensures limit { IfOk result (λ job. (1 ≤ job.limit) × (job.limit ≤ most_parts)) }
    ensures beam { IfOk result (λ job. job.beam ≤ most_beam) }
    ensures files { IfOk result (λ job. length job.files.items ≡ word_count job.operation) }
    ensures demo { IfOk result (λ job. job.operation ≡ Demo → 1 ≤ job.demo) }
    ensures most { IfOk result (λ job. job.demo ≤ most_demo) }
    ensures err { IfErr result (λ e. e ≡ Usage →
        job_of (map (λ s. string_bytes s) words.now) ≡ None) }
{
    let matches = matches_of(alloc, words)?;
    let Some(mode) = mode_once(matches.get_strs("m")) else {
        return Err(CommandError::Usage);
    };
    let Some(k) = number_once(matches.get_strs("k"), 1, MOST_TREES) else {
        return Err(CommandError::Usage);
    };
    let Some(workers) = number_once(matches.get_strs("w"), 1, MOST_WORKERS) else {
        return Err(CommandError::Usage);
    };
    let Some(limit) = number_once(matches.get_strs("limit"), MOST_PARTS, MOST_PARTS) else {
        return Err(CommandError::Usage);
    };
    let Some(beam) = beam_once(matches.get_strs("beam")) else {
        return Err(CommandError::Usage);
    };
    let Some(task) = read_task(alloc, matches.get_strs("places"))? else {
        return Err(CommandError::Usage);
    };
    Ok(Job {
        mode,
        k: k as u32,
        workers: workers as u32,
        limit,
        beam,
        operation: task.operation,
        files: task.files,
        demo: task.demo,
    })
}
