// What holds for lists of best trees, in every semiring.
ghost use Rattle.std.specs.Prelude.{IsTrue};
ghost use Rattle.tib_ranked_trees.specs.Best.{CostsAreOrdered, AreRanked, OneKBest, FrontsGrow, LargeIsListed};
ghost use Rattle.tib_ranked_trees.specs.Levels.{GrowsAlongRules};
ghost use Rattle.tib_ranked_trees.specs.Pass.{PassListsBest, PassGoesOn};
ghost use Rattle.tib_ranked_trees.specs.Firsts.{FirstsAreBest};
ghost use Rattle.tib_ranked_trees.specs.Lazy.{AskingListsBest, AskingKeeps, NoDuplicates};
ghost use Rattle.tib_ranked_trees.specs.Leveling.{LevelsListBest};
ghost use Rattle.tib_ranked_trees.specs.Walks.{WalksAreShort};

use tib_cost::Semiring;

/// Trees with costs are in a strict order. It is total on the trees to which a grammar gives a
/// cost.
pub fn costs_are_ranked<S: Semiring>()
    ensures { AreRanked S.product }
{}

/// The three-way order of trees with costs is total on all trees with costs.
pub fn costs_are_ordered()
    ensures { CostsAreOrdered }
{}

/// There is one list of the k best trees.
pub fn one_k_best<S: Semiring>()
    ensures { OneKBest S.product }
{}

/// A rule's tree comes earlier if one child does, and every child comes before it.
pub fn order_goes_up_the_rules<S: Semiring>()
    ensures { GrowsAlongRules S.product }
{}

/// If a pass over all states takes the least candidate, it takes the next tree of that candidate's
/// state. If no candidate waits, every list is complete or full.
pub fn pass_lists_best<S: Semiring>()
    ensures { PassListsBest S.product }
{}

/// If the children of a state were asked, its least candidate is its next tree. If none waits, its
/// list is complete.
pub fn asking_lists_best<S: Semiring>()
    ensures { AskingListsBest S.product }
{}

/// If the product is the greater cost, the best trees are those of the levels, from the least on,
/// each level giving those that no earlier one gave.
pub fn levels_list_best<S: Semiring>()
    ensures { IsTrue S.LEVELLED → LevelsListBest S.product }
{}

/// What each state keeps between two asks is kept while lists grow, when the states below were
/// asked, and when a candidate is taken.
pub fn asking_goes_on<S: Semiring>()
    ensures { AskingKeeps S.product }
{}

/// What holds between two steps of the pass holds after a step.
pub fn pass_goes_on<S: Semiring>()
    ensures { PassGoesOn S.product }
{}

/// A front grows by the next tree, and is the list of the k best when it has k trees, or all.
pub fn fronts_grow<S: Semiring>()
    ensures { FrontsGrow S.product }
{}

/// Of the trees that rules make of first trees, one that is no later than others of its state, and
/// no larger than any, is the first tree of its state.
pub fn firsts_are_best<S: Semiring>()
    ensures { FirstsAreBest S.product }
{}

/// In deterministic form two candidates stand for different trees, so no tree is taken twice.
pub fn candidates_are_apart<S: Semiring>()
    ensures { NoDuplicates S.product }
{}

/// A large tree that comes next after a front shorter than k is in every list of the k least trees.
pub fn large_is_listed<S: Semiring>()
    ensures { LargeIsListed S.product }
{}

/// A round asks no more states than the tree that it goes down has nodes.
pub fn walks_are_short<S: Semiring>()
    ensures { WalksAreShort S.product }
{}
