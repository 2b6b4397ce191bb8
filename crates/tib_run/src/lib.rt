//! What the program `tiburon` does: weighs trees by weighted regular tree grammars over exact whole
//! numbers, and more. `run` is the one call that it makes: from words, files, an output and a log
//! to a status, each of which comes only with its cause. The values of a job's files are read in
//! order, then its whole text is made of them, by one worker or by those of the job, and then it is
//! written. It builds on all crates below it.
#![tactic(auto)]

mod alone;
mod command;
mod log;
mod text_alone;
mod text_together;
mod texts;
mod together;

pub use command::{run, run_alone};
pub use log::tell;
pub use tib_job::{
    answers_are_one, answers_exclude_too_many, answers_exist, files_have_no_fault,
    in_class_or_outside, jobs_have_answers, runs_end_alike, statuses_are_one, texts_are_one,
    within_or_too_many,
};
pub use tib_operations::Status;
