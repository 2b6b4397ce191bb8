// What holds of every tree file: its trees, its faults, and its printing.
ghost use Rattle.tib_tree.specs.Laws.{GivesTexts, GivesFaults, MeansOne, FaultsAlone, PrintsBack, PrintsText};
ghost use Rattle.tib_tree.specs.Machine.{ReadsTrees};

/// The nodes that are read from tokens are those of the tree that the tokens spell.
pub fn nodes_are_read()
    ensures { ReadsTrees }
{}
/// The function that says what a file holds gives its trees exactly if it is the text of small
/// trees, and otherwise its first fault.
pub fn texts_are_read()
    ensures trees { GivesTexts }
    ensures faults { GivesFaults }
{}

/// A file is the text of at most one list of trees over one table, and has no fault if they are
/// small.
pub fn texts_mean_one()
    ensures one { MeansOne }
    ensures alone { FaultsAlone }
{}

/// What is printed of a tree reads back as this tree.
pub fn printed_trees_are_read()
    ensures line { PrintsBack }
    ensures text { PrintsText }
{}
