// What holds of the order of trees.
ghost use Rattle.tib_tree.specs.Order.{AreOrdered};

/// The order of trees over texts is total, and only a tree itself is equal to it.
pub fn trees_are_ordered()
    ensures { AreOrdered }
{}
