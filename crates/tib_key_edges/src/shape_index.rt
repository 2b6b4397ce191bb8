//! Positions by the shapes of what is there.

ghost use Rattle.std.specs.Prelude.{◌≡◌, ℕ, ◌+◌, ◌≤◌, OnOk, OnErr, []};
ghost use Rattle.tib_key_edges.specs.Positions.{positions_of, shape_count, GetsPosition};

use crate::buckets::{Shape, ShapeIndex, add_to};
use std::alloc::{AllocError, Global};
use std::collections::HashMap;
use tib_tree::Label;

impl ShapeIndex {
    /// An index without positions. It takes no memory.
    pub fn new(alloc: Global) -> ShapeIndex
        ensures none { (s : ℕ × ℕ × ℕ) → positions_of result s ≡ [] }
        ensures few { shape_count result ≡ 0 }
    {
        ShapeIndex {
            shapes: HashMap::new(alloc),
            buckets: Vec::new(alloc),
        }
    }

    /// Adds a position after those of a shape. If the positions are 0, 1, 2 and so on, there are
    /// never more shapes than the next position says. Err only if memory is refused; each shape
    /// then has the positions that it had. Cost: one look-up by hash.
    pub fn add(&mut self, alloc: Global, shape: Shape, position: u32) -> Result<(), AllocError>
        requires few { shape_count self.old ≤ position }
        ensures added { OnOk result (GetsPosition shape position self.old self.new) }
        ensures kept { OnErr result ((s : ℕ × ℕ × ℕ) →
            positions_of self.new s ≡ positions_of self.old s) }
        ensures few { shape_count self.new ≤ position + 1 }
    {
        add_to(alloc, &mut self.shapes, &mut self.buckets, shape, position)
    }

    /// The positions that were added with a state, a label and a rank as their shape, in the order
    /// in which they were added. It takes no memory. Cost: one look-up by hash.
    pub fn find(&self, state: u32, label: Label, rank: u32) -> &[u32]
        ensures { result.now ≡ positions_of self.now (state, label, rank) }
    {
        match self.shapes.get(&(state, label, rank)) {
            Some(number) => &self.buckets[*number as usize],
            None => &[],
        }
    }
}
