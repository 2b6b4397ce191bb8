// What holds of tree-to-string transducers in every semiring.
ghost use Rattle.tib_strings.specs.Series.{OneStringCost};

use tib_cost::Semiring;

/// A tree and a string have at most one cost.
pub fn one_string_cost<S: Semiring>()
    ensures { OneStringCost S.product }
{}
