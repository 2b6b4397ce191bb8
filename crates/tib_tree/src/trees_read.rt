// What the lines of a file that were read have: no tree, one, or several.
ghost use Rattle.std.specs.Prelude.{◌≡◌};
ghost use Rattle.tib_tree.specs.TreesRead.{with_tree};

use crate::Tree;

/// How many trees were read.
#[derive(Drop)]
pub(crate) enum TreesRead {
    Nothing,
    One(Tree),
    /// Several, the second in the line with this number.
    Second(u32),
}

impl TreesRead {
    /// One more tree, in the line with this number.
    pub(crate) fn add(&mut self, tree: Tree, line: u32)
        ensures { self.new ≡ with_tree line tree self.old }
    {
        match self {
            TreesRead::Nothing => *self = TreesRead::One(tree),
            TreesRead::One(_) => *self = TreesRead::Second(line),
            TreesRead::Second(_) => {}
        }
    }
}
