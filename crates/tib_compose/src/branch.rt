//! Right-hand sides that are translated in part.

ghost use Rattle.std.specs.Prelude.{IfOk, length};
ghost use Rattle.tib_compose.specs.Branches.{IsTaken, IsAdvanced};
ghost use Rattle.tib_compose.specs.Pending.{AreNodesBelow, IsNodeBelow};

use crate::pending::{Pending, Piece};
use std::alloc::AllocError;
use tib_cost::Cost;
use tib_grammar::Item;
use tib_key_edges::StatePair;
use tib_transducer::Pair;
use tib_tree::Label;

/// A label that the second transducer is to read from a state.
#[derive(Clone, Copy, Debug, Drop)]
pub struct Reading {
    /// The node of the label.
    pub node: u32,
    /// The label.
    pub label: Label,
    /// Its number of children.
    pub rank: u32,
    /// The state.
    pub state: u32,
}

/// A right-hand side that is translated in part: what was put out at a cost, and what is left.
#[derive(Drop)]
pub struct Branch {
    /// The cost of the rules so far.
    pub cost: Cost,
    /// What was put out.
    pub done: Vec<Item<Pair<StatePair>>>,
    /// What is left.
    pub pending: Pending,
}

impl Branch {
    /// Puts out a piece, unless it is a label that is to be read: then this is returned. Err only
    /// if memory is refused.
    fn take(
        &mut self,
        items: &[Item<Pair<u32>>],
        piece: Piece,
    ) -> Result<Option<Reading>, AllocError>
        requires node { IsNodeBelow (length items.now) piece }
        ensures taken { IfOk result (λ reading. IsTaken items.now piece self.old self.new reading) }
    {
        match piece {
            Piece::Put { label, rank } => {
                self.done.push(Item::Label { label, rank })?;
                Ok(None)
            }
            Piece::Read { node, state } => match items.get(node as usize) {
                Some(Item::Hole(pair)) => {
                    self.done.push(Item::Hole(Pair {
                        state: StatePair::new(pair.state, state),
                        variable: pair.variable,
                    }))?;
                    Ok(None)
                }
                Some(Item::Label { label, rank }) => Ok(Some(Reading {
                    node,
                    label: *label,
                    rank: *rank,
                    state,
                })),
                None => unreachable!(),
            },
        }
    }

    /// Puts out pieces up to the next label that is to be read, and returns this; none where all is
    /// put out. Err only if memory is refused; some pieces are then put out. Cost: one step for
    /// each piece.
    pub fn advance(&mut self, items: &[Item<Pair<u32>>]) -> Result<Option<Reading>, AllocError>
        requires nodes { AreNodesBelow (length items.now) self.old.pending.tasks.items }
        ensures advanced { IfOk result (λ reading. IsAdvanced items.now self.old self.new reading) }
    {
        while let Some(piece) = self.pending.pop() {
            let taken = self.take(items, piece)?;
            if let Some(reading) = taken {
                return Ok(Some(reading));
            }
        }
        Ok(None)
    }
}
