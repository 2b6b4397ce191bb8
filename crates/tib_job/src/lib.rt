//! What a run of the program promises, over the words, the files, the output and the log that it
//! sees, with the laws of its answers: a job whose files are known is answered by one text and ends
//! with one status; and the values of a command's files, or the status with which the run ends:
//! each kind of file, and all files of each operation. All labels of a command are in one table.
//! What each operation's text is, is in `tib_operations`; no text is made here.
#![tactic(auto)]

mod files;
mod job_values;
mod laws;
mod values;

pub use job_values::{Values, values_of};
pub use laws::{
    answers_are_one, answers_exclude_too_many, answers_exist, files_have_no_fault,
    in_class_or_outside, jobs_have_answers, runs_end_alike, statuses_are_one, texts_are_one,
    within_or_too_many,
};
pub use values::Support;
