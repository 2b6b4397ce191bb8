// Laws of contexts, of outside costs, and of pruning.
ghost use Rattle.std.specs.Prelude.{◌≡◌, ℕ, ◌+◌, [], ◌∷◌, Some};
ghost use Rattle.tib_grammar.specs.Run.{rule_at};
ghost use Rattle.tib_prune.specs.Contexts.{plug, AreRunsAround, cost_around};
ghost use Rattle.tib_prune.specs.Outside.{through};
ghost use Rattle.tib_prune.specs.Pruned.{ArePruned, AreCosts};
ghost use Rattle.tib_prune.specs.Settling.{told};
ghost use Rattle.tib_prune.specs.Examples.{branching, insides as worked_insides, outsides as worked_outsides, leaf, fork, without_first, without_second};
ghost use Rattle.tib_prune.specs.Laws.{PluggingMakesRuns, CuttingMakesContexts, CheapTreesKeepTheirCosts, NoTreeGetsCheaper, PrunedTreesHadNoGreaterCosts, KeptRulesStandInCheapRuns, ToldCostsAreContextCosts, OutsidesMeetTheirEquation, ThroughCostsAreComputed, KeepingIsDecided, NothingIsKeptWithoutRuns, BeamsKeepRulesInRuns};

use tib_cost::Semiring;

/// A run in place of what a context run leaves out makes a run, at the product of both costs.
pub fn plugging_makes_runs<S: Semiring>()
    ensures { PluggingMakesRuns S.product }
{}

/// A rule that occurs in runs cuts them into a context and the runs below the rule.
pub fn cutting_makes_contexts()
    ensures { CuttingMakesContexts }
{}

/// A tree whose cost is not above the bound has the same cost by the rules that are kept.
pub fn cheap_trees_keep_their_costs<S: Semiring>()
    ensures { CheapTreesKeepTheirCosts S.product }
{}

/// No tree costs less by the rules that are kept.
pub fn no_tree_gets_cheaper<S: Semiring>()
    ensures { NoTreeGetsCheaper S.product }
{}

/// In normal form, a tree that has a cost by the rules that are kept had one that is not greater.
pub fn pruned_trees_had_no_greater_costs<S: Semiring>()
    ensures { PrunedTreesHadNoGreaterCosts S.product }
{}

/// Each rule that is kept occurs in a run from the start, of kept rules alone, whose cost is not
/// above the bound.
pub fn kept_rules_stand_in_cheap_runs<S: Semiring>()
    ensures { KeptRulesStandInCheapRuns S.product }
{}

/// What a rule tells a state in its right side is the cost of a context run to the state.
pub fn told_costs_are_context_costs<S: Semiring>()
    ensures { ToldCostsAreContextCosts S.product }
{}

/// The outside cost of a state is the least of what rules tell it, and of 0 at the start.
pub fn outsides_meet_their_equation<S: Semiring>()
    ensures { OutsidesMeetTheirEquation S.product }
{}

/// The through cost of a rule is the product of the outside cost of its left state, of its own
/// cost, and of the inside costs of the states in its right side.
pub fn through_costs_are_computed<S: Semiring>()
    ensures { ThroughCostsAreComputed S.product }
{}

/// A rule is kept if its through cost is at most the plain sum of the inside cost of the start and
/// the beam.
pub fn keeping_is_decided<S: Semiring>()
    ensures { KeepingIsDecided S.product }
{}

/// No rule is kept where the start has no inside cost.
pub fn nothing_is_kept_without_runs<S: Semiring>()
    ensures { NothingIsKeptWithoutRuns S.product }
{}

/// The rules that some beam keeps are those that occur in some run within the greatest cost.
pub fn beams_keep_rules_in_runs<S: Semiring>()
    ensures { BeamsKeepRulesInRuns S.product }
{}

/// By `0 -> S(0 0) # 1` and `0 -> a # 2`, the run 0(1 1) without one of its sub-runs is a context
/// run to state 0 that costs 3.
pub fn context_runs_compute()
    ensures first { AreRunsAround branching 0 (0 ∷ []) without_first }
    ensures second { AreRunsAround branching 0 (0 ∷ []) without_second }
    ensures cost { cost_around ◌+◌ branching without_first ≡ 3 }
    ensures plugged { plug without_first leaf ≡ fork }
    ensures told { told ◌+◌ worked_insides worked_outsides (rule_at branching 0) 1 ≡ Some 3 }
    ensures through { through ◌+◌ worked_insides worked_outsides (rule_at branching 0) ≡ Some 5 }
    ensures other { through ◌+◌ worked_insides worked_outsides (rule_at branching 1) ≡ Some 2 }
{}

/// The inside cost of the start is 2, and the first rule's through cost is 5: a beam of 2 keeps the
/// second rule alone, and one of 3 keeps both.
pub fn pruning_computes()
    ensures costs { AreCosts ◌+◌ branching worked_insides worked_outsides }
    ensures narrow { ArePruned ◌+◌ branching 2 (rule_at branching 1 ∷ []) }
    ensures wide { ArePruned ◌+◌ branching 3 branching }
{}
