//! The rules of the second transducer by their states and by the labels and ranks that they read.

use tib_grammar::Item;
use tib_key_edges::{Shape, Shaping};
use tib_transducer::TransducerRule;

/// By the state of a rule, and the label and the rank that it reads.
pub(crate) struct ByReading;

impl Shaping for ByReading {
    ghost use Rattle.tib_compose.specs.Readers.{IsFlat, has_shape};

    type Rule = TransducerRule<u32>;

    ghost has_shape = { has_shape };

    ghost is_shaped = { IsFlat };

    fn shape_of(rule: &TransducerRule<u32>) -> Shape {
        match &rule.left.items()[0] {
            Item::Label { label, rank } => (rule.state, *label, *rank),
            Item::Hole(_) => unreachable!(),
        }
    }
}
