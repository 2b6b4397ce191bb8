//! What is left to be put out of a right-hand side that is translated in part.

ghost use Rattle.std.specs.Prelude.{◌≡◌, ℕ, List, [], take, OnOk};
ghost use Rattle.tib_grammar.specs.Sides.{Symbol};
ghost use Rattle.tib_cost.specs.Least.{times};
ghost use Rattle.tib_transducer.specs.declared.Pair.{Pair as PairOf};
ghost use Rattle.tib_transducer.specs.declared.TransducerRule.{TransducerRule as RuleOf};
ghost use Rattle.tib_key_edges.specs.Pieces.{Piece as PieceOf};
ghost use Rattle.tib_compose.specs.Pending.{BoundsAll, Holds, IsPushed, TakesNext};

use std::alloc::{AllocError, Global};
use tib_cost::{Cost, Semiring};
use tib_tree::Label;

/// What is still to be put out.
#[derive(Clone, Copy, Debug, Drop)]
pub enum Piece {
    /// A label with its number of children.
    Put { label: Label, rank: u32 },
    /// The tree of a node of the first transducer's right-hand side, translated by a state of the
    /// second.
    Read { node: u32, state: u32 },
}

/// A piece, and the number of the task after it: tasks are numbered from 1, and 0 says that nothing
/// is left. What is left from the piece on costs at least the bound, and more than the greatest
/// cost where this is none.
#[derive(Drop)]
pub struct PendingPiece {
    /// The piece.
    pub piece: Piece,
    /// The number of the task after it.
    pub rest: usize,
    /// The bound.
    pub bound: Option<Cost>,
}

/// The product of two costs, none where one is none or it is above the greatest.
pub(crate) fn product_of<S: Semiring>(one: Option<Cost>, two: Option<Cost>) -> Option<Cost>
    ensures { result ≡ times S.product one two }
{
    let Some(one) = one else {
        return None;
    };
    let Some(two) = two else {
        return None;
    };
    S::times(one, two)
}

/// What is left: the task with a number, and those after it. Tasks stay in the list when they are
/// taken, so that a search can come back to them.
#[derive(Drop)]
pub struct Pending {
    /// All tasks.
    pub tasks: Vec<PendingPiece>,
    /// The number of the next one.
    pub next: usize,
}

impl Pending {
    /// Nothing is left. It takes no memory and one step.
    pub fn new(alloc: Global) -> Pending
        ensures tasks { result.tasks.items ≡ [] }
        ensures next { result.next ≡ 0 }
    {
        Pending {
            tasks: Vec::new(alloc),
            next: 0,
        }
    }

    /// Takes the next piece, none if nothing is left. It takes no memory and one step.
    pub fn pop(&mut self) -> Option<Piece>
        ensures { TakesNext self.old self.new result }
    {
        if self.next == 0 {
            return None;
        }
        let last = self.next - 1;
        let Some(task) = self.tasks.get(last) else {
            return None;
        };
        let piece = task.piece;
        let rest = task.rest;
        self.next = if rest < last { rest } else { last };
        Some(piece)
    }

    /// What all that is left costs at least, none if it is more than the greatest cost. It takes no
    /// memory and one step.
    pub fn bound(&self) -> Option<Cost>
        ensures { (product : ℕ → ℕ → ℕ) → (two : List (RuleOf ℕ)) →
            (pairs : List (Symbol ℕ (PairOf ℕ) × ℕ)) → (ws : List PieceOf) →
            Holds product two pairs self.now ws → BoundsAll product two ws result }
    {
        if self.next == 0 {
            return Cost::new(0);
        }
        match self.tasks.get(self.next - 1) {
            Some(task) => task.bound,
            None => Cost::new(0),
        }
    }

    /// Puts a piece, which costs at least its bound, before what is left. Err only if memory is
    /// refused; then nothing is put there. Cost: one step, and now and then a copy of all tasks.
    pub fn push<S: Semiring>(&mut self, piece: Piece, bound: Option<Cost>) -> Result<(), AllocError>
        ensures { OnOk result (IsPushed S.product piece bound self.old self.new) }
    {
        let all = product_of::<S>(bound, self.bound());
        let rest = self.next;
        self.tasks.push(PendingPiece {
            piece,
            rest,
            bound: all,
        })?;
        self.next = self.tasks.len();
        Ok(())
    }

    /// Comes back to what was left when this many tasks were there, and this was the number of the
    /// next. It takes no memory, and one step for each task that is dropped.
    pub fn back_to(&mut self, tasks: usize, next: usize)
        ensures tasks { self.new.tasks.items ≡ take tasks self.old.tasks.items }
        ensures next { self.new.next ≡ next }
    {
        self.tasks.truncate(tasks);
        self.next = next;
    }
}
