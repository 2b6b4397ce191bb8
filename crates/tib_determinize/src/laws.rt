//! What holds of determinization, in every semiring.

ghost use Rattle.tib_determinize.specs.Determinization.{IsAnOperation, HasOneStep, IsOneSet};
ghost use Rattle.tib_determinize.specs.VectorGrammar.{ReachedIsVectorGrammar, IsDetermined};
ghost use Rattle.tib_determinize.specs.Started.{IsSameSeries, StartedIsDeterministic};
ghost use Rattle.tib_determinize.specs.Candidates.{EdgesAreListed, SeedsAreListed, MatchesAreCandidates, WalkFindsMatches, FirstPlacesFindMatches};

use tib_cost::Semiring;

/// A label over some vectors has at most one step.
pub fn one_step<S: Semiring>()
    ensures { HasOneStep S.product }
{}

/// Determinization keeps what a hunt asks of its operation.
pub fn is_an_operation<S: Semiring>()
    ensures { IsAnOperation S.product }
{}

/// A grammar has at most one reached set.
pub fn reached_set_is_one<S: Semiring>()
    ensures { IsOneSet S.product }
{}

/// The reached set, as rules over the positions of its order, has the step of each label over
/// positions, and no other rule.
pub fn reached_is_vector_grammar<S: Semiring>()
    ensures { ReachedIsVectorGrammar S.product }
{}

/// A tree has at most one run to a vector; its cost times the residual of a state is the series at
/// that state; and a tree without such a run has no cost.
pub fn determined<S: Semiring>()
    ensures { IsDetermined S.product }
{}

/// With its fresh start the grammar of the reached set has the series of the grammar.
pub fn same_series<S: Semiring>()
    ensures { IsSameSeries S.product }
{}

/// With its fresh start it is in deterministic form.
pub fn started_is_deterministic<S: Semiring>()
    ensures { StartedIsDeterministic S.product }
{}

/// The edges of a position are those of its candidates: labels and lists of positions, which
/// include all those at which some state has a cost.
pub fn edges_are_listed<S: Semiring>()
    ensures { EdgesAreListed S.product }
{}

/// The edges of the seeds are those of the labels at which some state has a cost over no vector.
pub fn seeds_are_listed<S: Semiring>()
    ensures { SeedsAreListed S.product }
{}

/// The labels and lists of positions that some rule matches are candidates.
pub fn matches_are_candidates<S: Semiring>()
    ensures { MatchesAreCandidates S.product }
{}

/// A walk over child places that keeps the rules that are alive finds what some rule matches, each
/// once.
pub fn walk_finds_matches()
    ensures { WalkFindsMatches }
{}

/// So does a walk for each place at which the position is first.
pub fn first_places_find_matches()
    ensures { FirstPlacesFindMatches }
{}
