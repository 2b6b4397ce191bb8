// What holds for trees by numbers.
ghost use Rattle.tib_ranked_trees.specs.Numbers.{NumbersNameTrees};

/// A number names one tree, and a tree has one number if no shape is there twice. So two rows of
/// trees compare as the first two trees whose numbers differ.
pub fn numbers_name_trees()
    ensures { NumbersNameTrees }
{}
