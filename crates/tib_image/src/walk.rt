//! The match of a left-hand side at a node: its items are walked beside the nodes of the tree.

ghost use Rattle.std.specs.Prelude.{◌≡◌, ◌<◌, ◌^◌, length, Ok, true, false, Some, None};
ghost use Rattle.tib_grammar.specs.Items.{pairs_of};
ghost use Rattle.tib_image.specs.Walk.{binds, walk};

use std::alloc::AllocError;
use tib_grammar::Item;
use tib_transducer::Variable;
use tib_tree::{Label, Node};

/// Whether a variable with this label, or without one, binds trees with the other label at the
/// root.
fn binds_root(label: Option<Label>, root: Label) -> bool
    ensures { result ≡ binds label root }
{
    match label {
        Some(own) => own == root,
        None => true,
    }
}

/// Whether the left-hand side with these items matches at the node with the number `first`. Then
/// `found` has the nodes at its variables, in preorder. Err only if memory is refused. Cost: one
/// step for each item, whatever the variables bind.
pub(crate) fn match_items(
    nodes: &[Node],
    first: u32,
    left: &[Item<Variable>],
    found: &mut Vec<u32>,
) -> Result<bool, AllocError>
    requires { length nodes.now < 2 ^ 32 }
    ensures yes { result ≡ Ok true →
        walk (pairs_of left.now) nodes.now first ≡ Some found.new.items }
    ensures no { result ≡ Ok false → walk (pairs_of left.now) nodes.now first ≡ None }
{
    found.clear();
    let mut next = first as usize;
    for item in left {
        let Some(node) = nodes.get(next) else {
            return Ok(false);
        };
        match item {
            Item::Label { label, rank } => {
                if node.label != *label || node.rank != *rank {
                    return Ok(false);
                }
                next += 1;
            }
            Item::Hole(variable) => {
                if !binds_root(variable.label, node.label) {
                    return Ok(false);
                }
                found.push(next as u32)?;
                next += node.size as usize;
            }
        }
    }
    Ok(true)
}
