// Trees that share their subtrees.
ghost use Rattle.std.specs.Prelude.{◌≡◌, ℕ, ◌+◌, ◌-◌, ◌^◌, ◌<◌, ◌≤◌, List, [], ◌∷◌, ◌++◌, length, IfOk, OnErr, slice_get, Some, Contains, get_or, min};
ghost use Rattle.tib_lex.specs.Lists.{total};
ghost use Rattle.tib_tree.specs.Trees.{tree, Trees as TreesOf, Tree as TreeOf};
ghost use Rattle.tib_tree.specs.Grows.{Grows, Adds, AreDistinct};
ghost use Rattle.tib_ranked_trees.specs.Numbers.{AreNamed, IsNamed, NumbersBelow, label_at, children_at, told_size, most_size};

use crate::shape_set::ShapeSet;
use std::alloc::{AllocError, Global};
use std::marker::Model;
use tib_tree::Label;

/// Distinct trees, numbered in the order of first sight. A tree is kept as its shape: its label,
/// followed by the numbers of its children, which are less than its own. So equal numbers are equal
/// trees, and a tree takes only the room of its root.
#[derive(Drop)]
pub struct Trees {
    shapes: ShapeSet,
    sizes: Vec<u32>,
    shape: Vec<u32>,
}

impl Model for Trees {
    ghost use Rattle.std.specs.Prelude.{ℕ, List};
    ghost use Rattle.tib_ranked_trees.specs.Kept.{AreKept};

    ghost Value = { List (List ℕ) };

    ghost view = { λ t. t.shapes };

    ghost invariant = { λ t. AreKept t.shapes t.sizes.items };
}

// Writes a shape: a label, followed by the children's numbers.
fn write_shape(shape: &mut Vec<u32>, label: Label, children: &[u32]) -> Result<(), AllocError>
    ensures { IfOk result (λ _. shape.new.items ≡ label ∷ children.now) }
{
    shape.clear();
    shape.push(label)?;
    shape.extend_from_slice(children)?;
    Ok(())
}

// The size of a tree over some children whose sizes are stored: one more than theirs, or the
// greatest size that is stored.
fn size_over(sizes: &[u32], children: &[u32]) -> u32
    requires { NumbersBelow (length sizes.now) children.now }
    ensures { result ≡ min (1 + total (λ m. get_or sizes.now m 0) children.now) most_size }
{
    let mut size: u32 = 1;
    for child in children {
        size = size.saturating_add(sizes[*child as usize]);
    }
    size
}

// Appends a new shape, with the size of its tree. After an error nothing has changed.
fn add_tree(
    shapes: &mut ShapeSet,
    sizes: &mut Vec<u32>,
    shape: &[u32],
    size: u32,
) -> Result<(), AllocError>
    requires new { Contains shapes.old shape.now → ⊥ }
    requires room { length shapes.old < 2 ^ 32 - 1 }
    ensures shapes { IfOk result (λ _. shapes.new ≡ shapes.old ++ shape.now ∷ []) }
    ensures sizes { IfOk result (λ _. sizes.new.items ≡ sizes.old.items ++ size ∷ []) }
    ensures same_shapes { OnErr result (shapes.new ≡ shapes.old) }
    ensures same_sizes { OnErr result (sizes.new.items ≡ sizes.old.items) }
{
    sizes.push(size)?;
    match shapes.add(shape) {
        Ok(()) => Ok(()),
        Err(error) => {
            let kept = sizes.len() - 1;
            sizes.truncate(kept);
            Err(error)
        }
    }
}

impl Trees {
    /// No trees. It takes no memory.
    pub fn new(alloc: Global) -> Trees
        ensures { result ≡ [] }
    {
        Trees {
            shapes: ShapeSet::new(alloc),
            sizes: Vec::new(alloc),
            shape: Vec::new(alloc),
        }
    }

    /// How many trees there are. Their shapes are distinct. It takes no memory.
    pub fn len(&self) -> usize
        ensures value { result ≡ length self.now }
        ensures few { length self.now < 2 ^ 32 }
        ensures distinct { AreDistinct self.now }
    {
        self.shapes.len()
    }

    /// The number of the tree with this label over these children. A new tree is appended. Err only
    /// if memory is refused or there are 4,294,967,295 trees; the trees are then unchanged. Cost:
    /// one look-up by hash of c + 1 numbers for c children, and the memory of a new shape.
    pub fn insert(&mut self, label: Label, children: &[u32]) -> Result<u32, AllocError>
        requires { NumbersBelow (length self.old) children.now }
        ensures shape { IfOk result (λ n. slice_get self.new n ≡ Some (label ∷ children.now)) }
        ensures below { IfOk result (λ n. n < length self.new) }
        ensures adds { IfOk result (λ _. Adds self.old (label ∷ children.now) self.new) }
        ensures err { OnErr result (self.new ≡ self.old) }
        ensures grows { Grows self.old self.new }
        ensures named { IfOk result (λ n. (kids : TreesOf ℕ) → AreNamed self.old children.now kids →
            IsNamed self.new n (record { label = label; kids = kids })) }
    {
        write_shape(&mut self.shape, label, children)?;
        if let Some(tree) = self.shapes.find(&self.shape) {
            return Ok(tree);
        }
        let count = self.shapes.len();
        if count >= u32::MAX as usize {
            return Err(AllocError);
        }
        let size = size_over(&self.sizes, children);
        add_tree(&mut self.shapes, &mut self.sizes, &self.shape, size)?;
        Ok(count as u32)
    }

    // The shape of a tree.
    fn shape(&self, tree: u32) -> &[u32]
        requires { tree < length self.now }
        ensures at { slice_get self.now tree ≡ Some result.now }
        ensures rooted { result.now ≡ label_at self.now tree ∷ children_at self.now tree }
        ensures low { NumbersBelow tree (children_at self.now tree) }
    {
        self.shapes.shape(tree)
    }

    /// The label of a tree's root. It takes no memory.
    pub fn label(&self, tree: u32) -> Label
        requires { tree < length self.now }
        ensures value { result ≡ label_at self.now tree }
        ensures shape { slice_get self.now tree ≡ Some (result ∷ children_at self.now tree) }
    {
        self.shape(tree)[0]
    }

    /// The numbers of a tree's children, from left to right, each less than the tree's own. It
    /// takes no memory.
    pub fn children(&self, tree: u32) -> &[u32]
        requires { tree < length self.now }
        ensures value { result.now ≡ children_at self.now tree }
        ensures shape { slice_get self.now tree ≡ Some (label_at self.now tree ∷ result.now) }
        ensures low { NumbersBelow tree result.now }
    {
        &self.shape(tree)[1..]
    }

    /// How many nodes a tree has, or 4,294,967,295 if it has more. It takes no memory.
    pub fn size(&self, tree: u32) -> u32
        requires { tree < length self.now }
        ensures value { (t : TreeOf ℕ) → IsNamed self.now tree t → result ≡ told_size t }
        ensures named { (t : TreeOf ℕ) × IsNamed self.now tree t × (result ≡ told_size t) }
    {
        self.sizes[tree as usize]
    }
}
