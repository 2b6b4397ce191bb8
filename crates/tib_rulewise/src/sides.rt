// Sides from items, and what they have.
ghost use Rattle.std.specs.Prelude.{◌≡◌, length, IfOk};
ghost use Rattle.tib_tree.specs.Trees.{preorder_of, IsOneTree};
ghost use Rattle.tib_grammar.specs.Items.{pairs_of, holes_in};
ghost use Rattle.tib_grammar.specs.Sides.{over as over_of};
ghost use Rattle.tib_rulewise.specs.Placed.{variables_from};

use smallvec::SmallVec;
use std::alloc::{AllocError, Global};
use tib_grammar::{Item, Side};
use tib_transducer::Variable;
use tib_tree::{Label, ShapeError};

/// How many holes are among some items. Cost: one pass over them.
pub fn count_holes<P>(items: &[Item<P>]) -> usize
    ensures { result ≡ length (holes_in items.now) }
{
    let mut count: usize = 0;
    for item in items {
        if let Item::Hole(_) = item {
            count += 1;
        }
    }
    count
}

/// The side with some items. Err only if they are 2^32 or more; the items are then gone. Cost: one
/// pass over them.
pub fn side_of<P: Drop>(items: SmallVec<Item<P>, 3>) -> Result<Side<P>, AllocError>
    requires { IsOneTree (pairs_of items.items) }
    ensures { IfOk result (λ s. preorder_of s ≡ pairs_of items.items) }
{
    if items.len() > 4_294_967_295 {
        return Err(AllocError);
    }
    match Side::from_items(items) {
        Ok(side) => Ok(side),
        Err(ShapeError::NotATree) => unreachable!(),
        Err(ShapeError::OutOfMemory) => unreachable!(),
    }
}

/// One label over the variables 0, 1 and so on, this many. Err only if memory is refused, or they
/// are 2^32 - 1 or more. Cost: in proportion to the count.
pub fn over_variables(alloc: Global, label: Label, count: u32) -> Result<Side<Variable>, AllocError>
    ensures { IfOk result (λ s. s ≡ over_of label (variables_from 0 count)) }
{
    let mut items = SmallVec::new(alloc);
    items.push(Item::Label { label, rank: count })?;
    for number in 0..count {
        items.push(Item::Hole(Variable {
            number,
            label: None,
        }))?;
    }
    side_of(items)
}
