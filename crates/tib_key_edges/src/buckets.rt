//! Buckets of positions, one for each shape.

ghost use Rattle.std.specs.Prelude.{◌≡◌, ℕ, ◌+◌, ◌≤◌, OnOk, OnErr, length};
ghost use Rattle.tib_grammar.specs.ShapeBuckets.{AddsPosition, AreNumbered, held};

use std::alloc::{AllocError, Global};
use std::collections::HashMap;
use tib_tree::Label;

/// A shape: a state, a label and a rank.
pub type Shape = (u32, Label, u32);

/// Positions by shape. For each shape: the positions that were added with it, in that order.
#[derive(Drop)]
pub struct ShapeIndex {
    pub(crate) shapes: HashMap<Shape, u32>,
    pub(crate) buckets: Vec<Vec<u32>>,
    pub ghost numbered: { AreNumbered shapes buckets.items },
}

/// Appends a position to the bucket of a shape. Err if memory is refused; each shape then has the
/// positions that it had.
pub(crate) fn add_to(
    alloc: Global,
    shapes: &mut HashMap<Shape, u32>,
    buckets: &mut Vec<Vec<u32>>,
    shape: Shape,
    position: u32,
) -> Result<(), AllocError>
    requires numbered { AreNumbered shapes.old buckets.old.items }
    requires few { length buckets.old.items ≤ position }
    ensures numbered { AreNumbered shapes.new buckets.new.items }
    ensures added { OnOk result (AddsPosition shape position shapes.old buckets.old.items shapes.new
        buckets.new.items) }
    ensures kept { OnErr result ((s : ℕ × ℕ × ℕ) →
        held shapes.new buckets.new.items s ≡ held shapes.old buckets.old.items s) }
    ensures few { length buckets.new.items ≤ position + 1 }
{
    if let Some(number) = shapes.get(&shape).copied() {
        buckets[number as usize].push(position)?;
        return Ok(());
    }
    let mut bucket = Vec::new(alloc);
    bucket.push(position)?;
    let number = buckets.len() as u32;
    buckets.push(bucket)?;
    shapes.insert(shape, number)?;
    Ok(())
}
