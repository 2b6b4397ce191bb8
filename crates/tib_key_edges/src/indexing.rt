//! Rules by their shapes.

ghost use Rattle.std.specs.Prelude.{◌≡◌, ℕ, ◌<◌, ◌^◌, All, Bool, IfOk, length};
ghost use Rattle.tib_grammar.specs.ShapeBuckets.{same_shape};
ghost use Rattle.tib_key_edges.specs.Positions.{IsIndex};

use crate::buckets::{Shape, ShapeIndex};
use std::alloc::{AllocError, Global};

/// How rules get their shapes.
pub trait Shaping {
    /// A rule.
    type Rule;

    // Whether a rule has a shape.
    ghost has_shape: { ℕ × ℕ × ℕ → Self.Rule → Bool };

    // Of such a rule the shape can be told.
    ghost is_shaped: { Self.Rule → Type 0 };

    /// The one shape that a rule has.
    fn shape_of(rule: &Self::Rule) -> Shape
        requires { is_shaped rule.now }
        ensures { (s : ℕ × ℕ × ℕ) → has_shape s rule.now ≡ same_shape result s };
}

/// The positions of rules by the shapes that `H` gives them, ascending. Err only if memory is
/// refused. Cost: one look-up by hash for each rule, and what `H` takes to tell its shape.
pub fn index_rules<H: Shaping>(alloc: Global, rules: &[H::Rule]) -> Result<ShapeIndex, AllocError>
    requires few { length rules.now < 2 ^ 32 }
    requires shaped { All H.is_shaped rules.now }
    ensures { IfOk result (IsIndex H.has_shape rules.now) }
{
    let mut index = ShapeIndex::new(alloc);
    for (n, rule) in rules.iter().enumerate() {
        index.add(alloc, H::shape_of(rule), n as u32)?;
    }
    Ok(index)
}
