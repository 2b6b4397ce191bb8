//! The rules of the second grammar by the state at their first place, their label and their rank.

ghost use Rattle.std.specs.Prelude.{◌≡◌};
ghost use Rattle.tib_grammar.specs.Forms.{IsNormalSide};
ghost use Rattle.tib_difference.specs.Shapes.{first_state};

use tib_grammar::Rule;
use tib_key_edges::{Shape, Shaping};

// The state at the first place of a rule, 0 where there is none.
fn first_place(rule: &Rule<u32>) -> u32
    requires { IsNormalSide rule.now.right }
    ensures { result ≡ first_state rule.now }
{
    match rule.states_below().first() {
        Some(item) => item.state(),
        None => 0,
    }
}

/// By the state at the first place of a rule, the label at its root and its rank.
pub(crate) struct ByFirst;

impl Shaping for ByFirst {
    ghost use Rattle.tib_grammar.specs.Forms.{IsNormalSide};
    ghost use Rattle.tib_difference.specs.Shapes.{has_shape};

    type Rule = Rule<u32>;

    ghost has_shape = { has_shape };

    ghost is_shaped = { λ r. IsNormalSide r.right };

    fn shape_of(rule: &Rule<u32>) -> Shape {
        let (label, rank) = rule.root();
        (first_place(rule), label, rank)
    }
}
