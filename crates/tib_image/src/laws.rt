//! What holds of the image of one tree, in every semiring.
ghost use Rattle.tib_image.specs.Image.{ImageMeans, ImageIsReached, OneImageSet};

use tib_cost::Semiring;

/// The grammar of the keys that are reached gives each tree the cost of the transducer at the tree
/// and it, for every transducer.
pub fn image_means<S: Semiring>()
    ensures { ImageMeans S.product }
{}

/// The reached set is that grammar.
pub fn image_is_reached()
    ensures { ImageIsReached }
{}

/// There is one reached set: the same keys in the same order, and the same edges.
pub fn one_set()
    ensures { OneImageSet }
{}
