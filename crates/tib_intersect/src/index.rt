//! The rules of a grammar in normal form by their left states and the labels and ranks of their
//! right-hand sides.

use tib_grammar::Rule;
use tib_key_edges::{Shape, Shaping};

/// By the left state of a rule, the label at its root and its rank.
pub(crate) struct ByLeft;

impl Shaping for ByLeft {
    ghost use Rattle.tib_grammar.specs.Forms.{IsNormalSide};
    ghost use Rattle.tib_intersect.specs.Matching.{has_shape};

    type Rule = Rule<u32>;

    ghost has_shape = { has_shape };

    ghost is_shaped = { λ r. IsNormalSide r.right };

    fn shape_of(rule: &Rule<u32>) -> Shape {
        let (label, rank) = rule.root();
        (rule.left, label, rank)
    }
}
