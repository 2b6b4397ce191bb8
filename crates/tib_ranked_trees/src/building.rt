// Builds the tree of a number.
ghost use Rattle.std.specs.Prelude.{◌≡◌, ℕ, ◌<◌, ◌≤◌, ◌++◌, length, IfOk};
ghost use Rattle.tib_tree.specs.Trees.{preorder_of, most_nodes, size, Tree as TreeOf};
ghost use Rattle.tib_ranked_trees.specs.Numbers.{IsNamed, back};

use crate::kept::Trees;
use std::alloc::{AllocError, Global};
use tib_tree::{Label, ShapeError, Tree};

// Pushes numbers on a stack, the last one first.
fn stack_up(stack: &mut Vec<u32>, numbers: &[u32]) -> Result<(), AllocError>
    ensures { IfOk result (λ _. back stack.new.items ≡ numbers.now ++ back stack.old.items) }
{
    let mut i = numbers.len();
    while i > 0 {
        i -= 1;
        stack.push(numbers[i])?;
    }
    Ok(())
}

impl Trees {
    // The labels of a tree's nodes with their numbers of children, each before its children.
    fn preorder(&self, alloc: Global, tree: u32) -> Result<Vec<(Label, u32)>, AllocError>
        requires below { tree < length self.now }
        requires small { (t : TreeOf ℕ) → IsNamed self.now tree t → size t ≤ most_nodes }
        ensures { IfOk result (λ nodes. (t : TreeOf ℕ) → IsNamed self.now tree t →
            nodes.items ≡ preorder_of t) }
    {
        self.size(tree);
        let mut nodes = Vec::new(alloc);
        let mut stack = Vec::new(alloc);
        stack.push(tree)?;
        while let Some(next) = stack.pop() {
            let children = self.children(next);
            nodes.push((self.label(next), children.len() as u32))?;
            stack_up(&mut stack, children)?;
        }
        Ok(nodes)
    }

    /// The tree of a number, with all its nodes, at most 10,000. Err only if memory is refused.
    /// Worst case: O(n) steps and memory for n nodes.
    pub fn tree(&self, alloc: Global, tree: u32) -> Result<Tree, AllocError>
        requires below { tree < length self.now }
        requires small { (t : TreeOf ℕ) → IsNamed self.now tree t → size t ≤ most_nodes }
        ensures { IfOk result (λ t. IsNamed self.now tree t) }
    {
        self.size(tree);
        let nodes = self.preorder(alloc, tree)?;
        match Tree::from_preorder(alloc, &nodes) {
            Ok(tree) => Ok(tree),
            Err(ShapeError::OutOfMemory) => Err(AllocError),
            Err(ShapeError::NotATree) => unreachable!(),
        }
    }
}
