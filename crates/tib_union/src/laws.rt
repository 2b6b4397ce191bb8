//! What holds of the sum of two grammars, in every semiring.
ghost use Rattle.tib_union.specs.Sum.{SumHasLesserSeries};

use tib_cost::Semiring;

/// The sum gives each tree the lesser of the costs that both grammars give it; where one is none,
/// the other.
pub fn sum_has_the_lesser_series<S: Semiring>()
    ensures { SumHasLesserSeries S.product }
{}
