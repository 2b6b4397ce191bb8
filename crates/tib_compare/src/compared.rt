// The result of a comparison.
use tib_tree::Tree;

/// The result of a comparison of the supports of two grammars.
#[derive(Drop)]
pub enum Compared {
    /// Every tree has a cost in both or in neither.
    Same,
    /// The least tree that has a cost in exactly one has it in the first.
    First(Tree),
    /// The least tree that has a cost in exactly one has it in the second.
    Second(Tree),
}
