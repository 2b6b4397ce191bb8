//! What translations of the trees of a right-hand side cost at least.

ghost use Rattle.std.specs.Prelude.{◌≡◌, ℕ, List, Some, OnOk};
ghost use Rattle.tib_grammar.specs.Sides.{Symbol};
ghost use Rattle.tib_transducer.specs.declared.Pair.{Pair as PairOf};
ghost use Rattle.tib_transducer.specs.declared.TransducerRule.{TransducerRule as RuleOf};
ghost use Rattle.tib_compose.specs.Bounds.{AreBounds, bound_of, same_pair, SetsBound};
ghost use Rattle.tib_compose.specs.Pending.{BoundsPiece};
ghost use Rattle.tib_compose.specs.PieceViews.{piece_of};

use crate::pending::Piece;
use std::alloc::{AllocError, Global};
use std::collections::HashMap;
use tib_cost::Cost;

/// For nodes of a right-hand side and states what each translation costs at least, none if it is
/// more than the greatest cost. What is not there is 0.
#[derive(Drop)]
pub struct Bounds {
    table: HashMap<(u32, u32), Option<Cost>>,
}

impl Bounds {
    /// Every bound is 0. It takes no memory and one step.
    pub fn new(alloc: Global) -> Bounds
        ensures { (i p : ℕ) → bound_of result i p ≡ Some 0 }
    {
        Bounds {
            table: HashMap::new(alloc),
        }
    }

    /// The bound of a node and a state. Cost: one look-up by hash.
    pub fn of(&self, node: u32, state: u32) -> Option<Cost>
        ensures { result ≡ bound_of self.now node state }
    {
        match self.table.get(&(node, state)) {
            Some(bound) => *bound,
            None => Cost::new(0),
        }
    }

    /// The bound of a piece; a label that is put out has 0. Cost: one look-up by hash.
    pub fn of_piece(&self, piece: &Piece) -> Option<Cost>
        ensures { (product : ℕ → ℕ → ℕ) → (two : List (RuleOf ℕ)) →
            (pairs : List (Symbol ℕ (PairOf ℕ) × ℕ)) → AreBounds product two pairs self.now →
            BoundsPiece product two (piece_of pairs piece.now) result }
    {
        match piece {
            Piece::Put { .. } => Cost::new(0),
            Piece::Read { node, state } => self.of(*node, *state),
        }
    }

    /// Sets the bound of a node and a state. Err only if memory is refused; the bounds are then
    /// unspecified. Cost: one look-up by hash.
    pub fn set(&mut self, node: u32, state: u32, bound: Option<Cost>) -> Result<(), AllocError>
        ensures { OnOk result (SetsBound node state bound self.old self.new) }
    {
        self.table.insert((node, state), bound)?;
        Ok(())
    }
}
