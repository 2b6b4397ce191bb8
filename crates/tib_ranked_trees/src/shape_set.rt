// Distinct shapes of trees, numbered in the order of first sight, in a hash table.
ghost use Rattle.std.specs.Prelude.{◌≡◌, ℕ, ◌+◌, ◌-◌, ◌^◌, ◌<◌, ◌≤◌, List, [], ◌∷◌, ◌++◌, length, IfOk, OnErr, slice_get, Some, Contains, IfSome, None};
ghost use Rattle.tib_tree.specs.Grows.{Adds, AreDistinct};

use indexmap::IndexSet;
use std::alloc::{AllocError, Global};
use std::marker::Model;

/// Distinct lists of numbers, in the order of first sight. A list's number is its place.
#[derive(Drop)]
pub(crate) struct ShapeSet {
    shapes: IndexSet<Vec<u32>>,
    alloc: Global,
}

impl Model for ShapeSet {
    ghost use Rattle.std.specs.Prelude.{ℕ, List};

    ghost Value = { List (List ℕ) };

    ghost use Rattle.tib_ranked_trees.specs.ShapeList.{shapes_of, IsShapeSet};

    ghost view = { shapes_of };

    ghost invariant = { IsShapeSet };
}

impl ShapeSet {
    /// No shapes. It takes no memory.
    pub fn new(alloc: Global) -> ShapeSet
        ensures { result ≡ [] }
    {
        ShapeSet {
            shapes: IndexSet::new(alloc),
            alloc,
        }
    }

    /// How many shapes there are. They are distinct. It takes no memory.
    pub fn len(&self) -> usize
        ensures value { result ≡ length self.now }
        ensures few { length self.now < 2 ^ 32 }
        ensures distinct { AreDistinct self.now }
    {
        self.shapes.len()
    }

    /// The number of a shape, if the set has it. It takes no memory. Cost: one look-up by hash.
    pub fn find(&self, shape: &[u32]) -> Option<u32>
        ensures found { IfSome result (λ n. slice_get self.now n ≡ Some shape.now) }
        ensures none { result ≡ None → Contains self.now shape.now → ⊥ }
    {
        match self.shapes.get_index_of(shape) {
            Some(i) => Some(i as u32),
            None => None,
        }
    }

    /// Appends a new shape. Err only if memory is refused; the set is then unchanged. Cost: one
    /// look-up by hash, and a copy of the shape.
    pub fn add(&mut self, shape: &[u32]) -> Result<(), AllocError>
        requires new { Contains self.old shape.now → ⊥ }
        requires room { length self.old < 2 ^ 32 - 1 }
        ensures added { IfOk result (λ _. self.new ≡ self.old ++ shape.now ∷ []) }
        ensures err { OnErr result (self.new ≡ self.old) }
    {
        let owned = shape.to_vec(self.alloc)?;
        self.shapes.insert(owned)?;
        Ok(())
    }

    /// The shape of a number. It takes no memory.
    pub fn shape(&self, number: u32) -> &[u32]
        requires { number < length self.now }
        ensures { slice_get self.now number ≡ Some result.now }
    {
        &self.shapes[number as usize]
    }
}
