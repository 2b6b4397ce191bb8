// What holds of the answers of jobs.
ghost use Rattle.tib_job.specs.Kinds.{KindsHaveNoFault};
ghost use Rattle.tib_job.specs.Answers.{WithinIsNotTooMuch};
ghost use Rattle.tib_job.specs.Laws.{AnswersAreInClass, InClassIsNotOutside, IsInClassOrOutside, JobsHaveNotOutside, TextsAreOne, TextsExist, AnswersAreOne, AnswersAreWithin, AnswersAreNotTooMuch, IsWithinOrTooMuch, JobsAreAnswered, JobsHaveOne, JobsHaveNotBoth, StatusesAreOne};
ghost use Rattle.tib_job.specs.Run.{RunsEndAlike};

use tib_grammar_file::faults_have_no_text;
use tib_tree::{one_tree_or_fault, texts_mean_one};

/// Over known files the text of each operation is one, whatever the tables of labels and the normal
/// forms by which it is defined.
pub fn texts_are_one()
    ensures { TextsAreOne }
{}

/// Where the bytes of each file of a job are known, one text answers it.
pub fn answers_are_one()
    ensures { AnswersAreOne }
{}

/// Where the bytes of each file of a job are known, an answer is within the limit of the job: a
/// text that answers it and too many parts exclude each other.
pub fn answers_exclude_too_many()
    ensures within { AnswersAreWithin }
    ensures apart { AnswersAreNotTooMuch }
{}

/// A file of its kind has no fault.
pub fn files_have_no_fault()
    ensures { KindsHaveNoFault }
{
    faults_have_no_text();
    texts_mean_one();
    one_tree_or_fault();
}

/// What a job makes of files of their kinds is within its limit or has more parts than it: not
/// both, and it cannot be that neither holds.
pub fn within_or_too_many()
    ensures apart { WithinIsNotTooMuch }
    ensures either { IsWithinOrTooMuch }
{}

/// Files of a job are of the class that its operation demands or have a first rule that is not: not
/// both, where they are of their kinds it cannot be that neither holds, and an answer is of files
/// of that class.
pub fn in_class_or_outside()
    ensures answers { AnswersAreInClass }
    ensures apart { InClassIsNotOutside }
    ensures either { IsInClassOrOutside }
{}

/// Where the files of an operation are of their kinds and of the class that it demands, what it
/// makes of them is within the limit, and it lists no tree of more than 10,000 nodes, it cannot be
/// that no text answers. Where a grammar is made the product meets its laws.
pub fn answers_exist()
    ensures { TextsExist }
{}

/// Where the files of a job that words ask for are of their kinds and it lists no tree of more than
/// 10,000 nodes, it has an answer, a rule outside the class that it demands, or too many parts, and
/// an answer with neither of the others: what is of that class and within its limit cannot lack an
/// answer, and that none of the three is there cannot be.
pub fn jobs_have_answers()
    ensures within { JobsAreAnswered }
    ensures either { JobsHaveOne }
    ensures apart { JobsHaveNotBoth }
    ensures outside { JobsHaveNotOutside }
{}

/// A job whose files are known ends with one status in all runs in which no count rises and no
/// memory is refused. Only where the job lists trees may one run list them and another meet a tree
/// of more than 10,000 nodes at some state.
pub fn statuses_are_one()
    ensures { StatusesAreOne }
{}

/// The same for the promise of `run`: two runs of a job whose files are known, over files that
/// report the same bytes, in which no count rises, end with one status, unless memory was refused,
/// or the job lists trees and one run lists them where the other meets a tree that is too large.
pub fn runs_end_alike()
    ensures { RunsEndAlike }
{}
