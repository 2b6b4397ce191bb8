// What items and rules in normal form carry: states, and the label at a root.
ghost use Rattle.std.specs.Prelude.{◌≡◌, length, map};
ghost use Rattle.tib_tree.specs.Trees.{count};
ghost use Rattle.tib_grammar.specs.Forms.{IsNormalSide};
ghost use Rattle.tib_grammar.specs.Items.{state_in};
ghost use Rattle.tib_grammar.specs.Sides.{holes, label as label_symbol};

use crate::{Item, Rule};
use tib_tree::Label;

impl Item<u32> {
    /// The state that the item carries, and 0 if it is a label. It takes no memory.
    pub fn state(&self) -> u32
        ensures { result ≡ state_in self.now }
    {
        match self {
            Item::Label { .. } => 0,
            Item::Hole(state) => *state,
        }
    }
}

impl Rule<u32> {
    /// The label at the root of a right-hand side in normal form, and how many states are below it.
    /// It takes no memory.
    pub fn root(&self) -> (Label, u32)
        requires { IsNormalSide self.now.right }
        ensures label { self.now.right.label ≡ label_symbol result.0 }
        ensures rank { result.1 ≡ count self.now.right.kids }
    {
        match &self.right.items()[0] {
            Item::Label { label, rank } => (*label, *rank),
            Item::Hole(_) => unreachable!(),
        }
    }

    /// The states below the root of a right-hand side in normal form, each as an item. It takes no
    /// memory.
    pub fn states_below(&self) -> &[Item<u32>]
        requires { IsNormalSide self.now.right }
        ensures states { map state_in result.now ≡ holes self.now.right.kids }
        ensures many { length result.now ≡ count self.now.right.kids }
    {
        &self.right.items()[1..]
    }
}
