//! What holds of the reached set of a difference.

ghost use Rattle.tib_difference.specs.Difference.{OrderIsFree, IsOneSet};
ghost use Rattle.tib_difference.specs.Series.{ReachedHasSeries};

use tib_cost::Semiring;

/// The reached set with its fresh start gives each tree the cost of the first grammar where it has
/// no run in the second, and none otherwise.
pub fn reached_has_series<S: Semiring>()
    ensures { ReachedHasSeries S.product }
{}

/// The reached set is the same for grammars whose rules differ in their order alone.
pub fn order_is_free()
    ensures { OrderIsFree }
{}

/// Two grammars reach the same keys in the same order, and the same edges.
pub fn reached_set_is_one()
    ensures { IsOneSet }
{}
