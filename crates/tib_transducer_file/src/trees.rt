// Right sides that are trees.
ghost use Rattle.std.specs.Prelude.{◌≡◌, ◌≤◌, length};
ghost use Rattle.tib_tree.specs.Trees.{preorder_of, most_nodes, IsOneTree};
ghost use Rattle.tib_grammar.specs.Items.{pairs_of};
ghost use Rattle.tib_transducer_file.specs.Built.{AreOneTree};
ghost use Rattle.tib_transducer_file.specs.Reader.{IsWholeSide};
ghost use Rattle.tib_transducer_file.specs.Value.{tree_view, view_of};

use crate::right::RightReader;
use crate::sides::right_item;
use indexmap::IndexSet;
use std::alloc::{AllocError, Global};
use tib_cost::Cost;
use tib_grammar::{Item, Side};
use tib_lex::Token;
use tib_transducer::{Pair, TransducerRule, Variable};
use tib_tree::{Labels, Place, Reader, ShapeError};

/// Reads right sides that are trees.
#[derive(Drop)]
pub(crate) struct Trees {
    pub reader: Reader,
}

// The tree of some items in preorder.
fn right_side(items: Vec<Item<Pair<u32>>>) -> Side<Pair<u32>>
    requires few { length items.items ≤ most_nodes }
    requires tree { IsOneTree (pairs_of items.items) }
    ensures { preorder_of result ≡ pairs_of items.items }
{
    match Side::from_preorder(items) {
        Ok(side) => side,
        Err(ShapeError::NotATree) => unreachable!(),
        Err(ShapeError::OutOfMemory) => unreachable!(),
    }
}

impl RightReader for Trees {
    ghost use Rattle.tib_tree.specs.Machine.{nodes_of, IsTree};
    ghost use Rattle.tib_grammar.specs.Items.{pair_of};
    ghost use Rattle.tib_transducer_file.specs.Built.{AreOneTree};
    ghost use Rattle.tib_transducer_file.specs.Formats.{trees};
    ghost use Rattle.tib_transducer_file.specs.Value.{tree_view};

    type Node = Item<Pair<u32>>;

    type Rule = TransducerRule<u32>;

    ghost spells = { IsTree };

    ghost reads = { nodes_of };

    ghost is_whole = { AreOneTree };

    ghost is_node = { λ _. Unit {0} };

    ghost places_of = { λ r. r.reader.places.items };

    ghost symbol_of = { pair_of };

    ghost view = { tree_view };

    fn new(alloc: Global) -> Trees {
        Trees {
            reader: Reader::new(alloc),
        }
    }

    fn read_right(&mut self, _line: &[u8], tokens: &[Token]) -> Result<bool, AllocError> {
        self.reader.read(tokens)
    }

    fn places(&self) -> &[Place] {
        &self.reader.places
    }

    fn read_node(
        line: &[u8],
        place: Place,
        variables: &IndexSet<u32>,
        names: &mut Labels,
        labels: &mut Labels,
        text: &mut Vec<u8>,
    ) -> Result<Item<Pair<u32>>, AllocError> {
        right_item(line, place, variables, names, labels, text)
    }

    fn rule(
        state: u32,
        left: Side<Variable>,
        nodes: Vec<Item<Pair<u32>>>,
        cost: Cost,
    ) -> TransducerRule<u32>
        requires few { length nodes.items ≤ most_nodes }
        requires whole { IsWholeSide AreOneTree (pairs_of nodes.items) }
        ensures { tree_view result ≡ view_of state left (pairs_of nodes.items) cost }
    {
        TransducerRule {
            state,
            left,
            right: right_side(nodes),
            cost,
        }
    }

    ghost format = { trees };
}
