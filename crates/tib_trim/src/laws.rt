// Laws of complete runs and of the grammar of runs.
ghost use Rattle.tib_trim.specs.Laws.{HasTheRuns, YieldsTheRuns, CostsTheSame, IsInNormalForm, ThroughCostsAreLeast, CompleteRunsHaveCosts};

use tib_cost::Semiring;

/// The grammar of the runs of a grammar is in normal form. Its runs are the runs of the grammar, so
/// each of these is a tree of it, as which it yields itself, and has one run there.
pub fn runs_are_trees()
    ensures normal { IsInNormalForm }
    ensures runs { HasTheRuns }
    ensures yields { YieldsTheRuns }
{}

/// And each run has the cost that it has in the grammar.
pub fn runs_cost_the_same<S: Semiring>()
    ensures { CostsTheSame S.product }
{}

/// The product of the outside cost of a rule's left state, of its cost and of the inside costs of
/// the states in its right side is the least cost of a complete run in which the rule is.
pub fn through_costs_are_least<S: Semiring>()
    ensures { ThroughCostsAreLeast S.product }
{}

/// A rule is in a complete run exactly where it has a through cost.
pub fn complete_runs_have_costs<S: Semiring>()
    ensures { CompleteRunsHaveCosts S.product }
{}
