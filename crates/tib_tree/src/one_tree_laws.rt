// What holds of every file of one tree.
ghost use Rattle.tib_tree.specs.OneTreeLaws.{TextsHaveNone, FaultsAreOne};

/// The text of one tree has no fault, and bytes have at most one fault.
pub fn one_tree_or_fault()
    ensures none { TextsHaveNone }
    ensures one { FaultsAreOne }
{}
