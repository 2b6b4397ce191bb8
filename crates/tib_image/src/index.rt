//! The rules of a transducer by their states and the labels and ranks at the roots of their
//! left-hand sides.

use tib_grammar::Item;
use tib_key_edges::{Shape, Shaping};
use tib_transducer::TransducerRule;

/// By the state of a rule, and the label and the rank at the root of its left-hand side.
pub(crate) struct ByRoot;

impl Shaping for ByRoot {
    ghost use Rattle.tib_transducer.specs.Range.{IsShaped};
    ghost use Rattle.tib_image.specs.Shapes.{has_shape};

    type Rule = TransducerRule<u32>;

    ghost has_shape = { has_shape };

    ghost is_shaped = { IsShaped };

    fn shape_of(rule: &TransducerRule<u32>) -> Shape {
        match &rule.left.items()[0] {
            Item::Label { label, rank } => (rule.state, *label, *rank),
            Item::Hole(_) => unreachable!(),
        }
    }
}
