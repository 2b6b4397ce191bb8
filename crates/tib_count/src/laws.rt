// Laws of the counts of runs and of trees.
ghost use Rattle.tib_count.specs.Laws.{RunsHaveOneCount, TreesHaveOneCount, TreesOfDeterministic};
ghost use Rattle.tib_count.specs.Laws.{SameTrees, AsManyTrees, EndlessTrees, FewTrees};
ghost use Rattle.tib_count.specs.Laws.{FormIsFree, TrimmedIsFree, TrimmedFormIsFree};
ghost use Rattle.tib_count.specs.Laws.{CanonicalIsFree, TrimmedKeepsRuns, TrimmedFileHasRuns};
ghost use Rattle.tib_count.specs.Laws.{TrimmedHasRuns, TrimmedFormHasRuns, CanonicalHasRuns};

use tib_cost::Semiring;

/// The runs of a grammar have one count, and so do its trees.
pub fn one_count()
    ensures runs { RunsHaveOneCount }
    ensures trees { TreesHaveOneCount }
{}

/// In deterministic form there are as many trees as runs, since no two runs from the start yield
/// one tree.
pub fn trees_of_deterministic()
    ensures { TreesOfDeterministic }
{}

/// Grammars with the same series whose rules cost nothing have the same trees, so both have one
/// count of them.
pub fn same_trees()
    ensures same { SameTrees }
    ensures many { AsManyTrees }
{}

/// In normal form a grammar with endlessly many runs has endlessly many trees. One whose runs have
/// a number has no more trees, in any form.
pub fn endless_trees()
    ensures endless { EndlessTrees }
    ensures few { FewTrees }
{}

/// Where the rules of a grammar cost nothing, so do those of its normal form, those that trimming
/// keeps, and those of its trimmed normal form and of its canonical form.
pub fn forms_are_free()
    ensures normal { FormIsFree }
    ensures trimmed { TrimmedIsFree }
    ensures form { TrimmedFormIsFree }
    ensures canonical { CanonicalIsFree }
{}

/// Each state in the right side of a rule that trimming keeps has a run, and so has each one in
/// that of a rule of a trimmed normal form or of a canonical form.
pub fn forms_have_runs<S: Semiring>()
    ensures trimmed { TrimmedHasRuns S.product }
    ensures form { TrimmedFormHasRuns S.product }
    ensures canonical { CanonicalHasRuns S.product }
{}

/// Where the rules of a grammar cost nothing, those that are in complete runs have as many runs
/// from the start.
pub fn trimmed_keeps_runs()
    ensures { TrimmedKeepsRuns }
{}

/// Where each rule is in a complete run, each state in a right side has a run.
pub fn trimmed_file_has_runs<S: Semiring>()
    ensures { TrimmedFileHasRuns S.product }
{}
