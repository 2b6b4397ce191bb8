//! The labels and ranks of the rules of a grammar in normal form.

ghost use Rattle.std.specs.Prelude.{◌≡◌, IfOk};
ghost use Rattle.tib_grammar.specs.Forms.{AreNormal, IsNormalSide};
ghost use Rattle.tib_determinize.specs.Shapes.{root_of, shapes_in};

use indexmap::IndexSet;
use std::alloc::{AllocError, Global};
use tib_grammar::Rule;
use tib_tree::Label;

// The label and the rank of a rule.
fn shape_of(rule: &Rule<u32>) -> (Label, u32)
    requires { IsNormalSide rule.now.right }
    ensures { result ≡ root_of rule.now }
{
    rule.root()
}

// The keys of a set, in its order.
fn list_keys(alloc: Global, keys: IndexSet<(Label, u32)>) -> Result<Vec<(Label, u32)>, AllocError>
    ensures { IfOk result (λ r. r.items ≡ keys.keys) }
{
    Vec::from_iter(alloc, keys)
}

/// The labels of some rules with their ranks, each once, by first sight.
pub(crate) fn shapes_of(alloc: Global, rules: &[Rule<u32>]) -> Result<Vec<(Label, u32)>, AllocError>
    requires { AreNormal rules.now }
    ensures { IfOk result (λ shapes. shapes.items ≡ shapes_in rules.now) }
{
    let mut shapes: IndexSet<(Label, u32)> = IndexSet::new(alloc);
    for rule in rules {
        shapes.insert(shape_of(rule))?;
    }
    list_keys(alloc, shapes)
}
