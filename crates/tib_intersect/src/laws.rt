//! What holds of the grammar of the pairs, in every semiring.

ghost use Rattle.tib_intersect.specs.PairGrammar.{PairsMean};
ghost use Rattle.tib_intersect.specs.Intersection.{OrderIsFree, IsOneSet};

use tib_cost::Semiring;

/// The grammar of the pairs has the product of the two series.
pub fn pairs_mean<S: Semiring>()
    ensures { PairsMean S.product }
{}

/// The reached set is the same for grammars whose rules differ in their order alone.
pub fn order_is_free<S: Semiring>()
    ensures { OrderIsFree S.product }
{}

/// Two grammars reach the same pairs in the same order, and the same edges.
pub fn reached_set_is_one<S: Semiring>()
    ensures { IsOneSet S.product }
{}
