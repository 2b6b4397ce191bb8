//! The pieces of a rule's right-hand side in place of a node.

ghost use Rattle.std.specs.Prelude.{◌≡◌, ℕ, ◌+◌, ◌<◌, ◌≤◌, ◌^◌, List, length, drop, OnOk};
ghost use Rattle.tib_tree.specs.Trees.{count, parse};
ghost use Rattle.tib_grammar.specs.Sides.{Symbol};
ghost use Rattle.tib_transducer.specs.declared.Pair.{Pair as PairOf};
ghost use Rattle.tib_compose.specs.Ends.{AreEnds};
ghost use Rattle.tib_compose.specs.Pending.{IsNodeBelow};
ghost use Rattle.tib_compose.specs.PieceViews.{IsKnown, piece_below, piece_of};
ghost use Rattle.tib_compose.specs.Sources.{PutsPieces};

use crate::ends::skip;
use crate::pending::{Pending, Piece};
use crate::source::Source;
use std::alloc::AllocError;
use tib_cost::Semiring;
use tib_grammar::Item;
use tib_transducer::Pair;

/// The piece of an item of a rule's right-hand side that is put in place of a node. A variable
/// stands for a child of the node. Cost: one step for each child before it.
pub(crate) fn piece_for(item: &Item<Pair<u32>>, ends: &[u32], node: u32) -> Piece
    requires node { node < length ends.now }
    requires few { length ends.now < 2 ^ 32 }
    ensures piece { (pairs : List (Symbol ℕ (PairOf ℕ) × ℕ)) → length pairs ≡ length ends.now →
        AreEnds pairs ends.now 0 →
        piece_of pairs result ≡ piece_below pairs node item.now }
    ensures node { (pairs : List (Symbol ℕ (PairOf ℕ) × ℕ)) → length pairs ≡ length ends.now →
        AreEnds pairs ends.now 0 → (rank : ℕ) → IsKnown rank item.now →
        rank ≤ count (parse (drop (node + 1) pairs)) → IsNodeBelow (length pairs) result }
{
    match item {
        Item::Label { label, rank } => Piece::Put {
            label: *label,
            rank: *rank,
        },
        Item::Hole(pair) => Piece::Read {
            node: skip(ends, node + 1, pair.variable),
            state: pair.state,
        },
    }
}

/// Puts the pieces of a rule's right-hand side in place of a node, before what is left. Err only if
/// memory is refused. Cost: for each variable one step for each child before it, and a look-up by
/// hash.
pub(crate) fn push_pieces<S: Semiring>(
    pending: &mut Pending,
    right: &[Item<Pair<u32>>],
    source: &Source,
    node: u32,
) -> Result<(), AllocError>
    requires node { node < length source.now.ends.items }
    ensures pieces { OnOk result (PutsPieces S.product right.now source.now node pending.old
        pending.new) }
{
    let mut i = right.len();
    while i > 0 {
        i -= 1;
        let piece = piece_for(&right[i], &source.ends, node);
        let bound = source.bounds.of_piece(&piece);
        pending.push::<S>(piece, bound)?;
    }
    Ok(())
}
