//! What holds of forward and backward application, in every semiring.
ghost use Rattle.tib_apply.specs.Forward.{ForwardMeans};
ghost use Rattle.tib_apply.specs.Backward.{BackwardMeans};
ghost use Rattle.tib_apply.specs.Operations.{ForwardIsReached, BackwardIsReached, OneSetEach};
ghost use Rattle.tib_apply.specs.LeastOfAll.{ForwardIsLeast, BackwardIsLeast};
ghost use Rattle.tib_apply.specs.TableEdges.{TableEdgesAreForward};

use tib_cost::Semiring;

/// The grammar of the keys that forward application reaches has its series.
pub fn forward_means<S: Semiring>()
    ensures { ForwardMeans S.product }
{}

/// The grammar of the keys that backward application reaches has its series.
pub fn backward_means<S: Semiring>()
    ensures { BackwardMeans S.product }
{}

/// The reached set of forward application is that grammar.
pub fn forward_is_reached<S: Semiring>()
    ensures { ForwardIsReached S.product }
{}

/// The reached set of backward application is that grammar.
pub fn backward_is_reached<S: Semiring>()
    ensures { BackwardIsReached S.product }
{}

/// The series of forward application is the least product of two series.
pub fn forward_is_least<S: Semiring>()
    ensures { ForwardIsLeast S.product }
{}

/// The series of backward application is the least product of two series.
pub fn backward_is_least<S: Semiring>()
    ensures { BackwardIsLeast S.product }
{}

/// Each application has one reached set: the same keys in the same order, and the same edges.
pub fn one_set_each<S: Semiring>()
    ensures { OneSetEach S.product }
{}

/// `Forward` looks up in tables what the parts cost that a rule leaves out. Where these hold the
/// least costs, as those of `Forward::new` do, its edges are those of forward application, and the
/// set that is reached along them is the same.
pub fn table_edges_are_forward<S: Semiring>()
    ensures { TableEdgesAreForward S.product }
{}
