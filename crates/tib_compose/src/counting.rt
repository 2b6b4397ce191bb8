//! A lower bound on the translations of a right-hand side, found from the last trees to the first,
//! before any translation is made.

ghost use Rattle.std.specs.Prelude.{◌<◌, length, IfSome, IsTrue, OnOk};
ghost use Rattle.tib_compose.specs.Bounding.{KeepsSource};
ghost use Rattle.tib_compose.specs.CompositionListing.{IsWithinBudget};
ghost use Rattle.tib_compose.specs.Counting.{LabelAdds, PieceAdds, RightAdds, RuleAddsAt, SideOverruns};

use crate::branch::Reading;
use crate::composite::Composite;
use crate::listing::CompositionListing;
use crate::pending::Piece;
use crate::plenty::{Plenty, added_plenty, product_plenty};
use crate::putting::piece_for;
use crate::source::Source;
use std::alloc::AllocError;
use tib_cost::Semiring;
use tib_grammar::Item;
use tib_transducer::{Pair, TransducerRule};

/// What is known of a piece: a label that is put out and a pair have one translation of one item.
fn piece_plenty<S: Semiring>(source: &Source, piece: &Piece) -> Option<Plenty>
    ensures { IfSome result (PieceAdds S.product source.now piece.now) }
{
    let single = Plenty {
        count: 1,
        items: 1,
        worst: S::one(),
    };
    match piece {
        Piece::Put { .. } => Some(single),
        Piece::Read { node, state } => match source.items.get(*node as usize) {
            Some(Item::Hole(_)) => Some(single),
            _ => source.plenties.of(*node, *state),
        },
    }
}

/// What the pieces of a rule's right-hand side in place of a node have together; none where nothing
/// is known of one of them. Cost: for each variable one step for each child before it, and a
/// look-up by hash.
fn right_plenty<S: Semiring>(
    source: &Source,
    right: &[Item<Pair<u32>>],
    node: u32,
) -> Option<Plenty>
    ensures { IfSome result (RightAdds S.product source.now right.now node) }
{
    if node as usize >= source.ends.len() {
        return None;
    }
    let mut total = Plenty {
        count: 1,
        items: 0,
        worst: S::one(),
    };
    let mut i = right.len();
    while i > 0 {
        i -= 1;
        let piece = piece_for(&right[i], &source.ends, node);
        let Some(own) = piece_plenty::<S>(source, &piece) else {
            return None;
        };
        let Some(next) = product_plenty::<S>(&own, &total) else {
            return None;
        };
        total = next;
    }
    Some(total)
}

/// Whether the translations of a whole right-hand side by a state, each with the left-hand side of
/// the rule, are shown to have more parts than the budget leaves. Cost: one look-up by hash.
pub(crate) fn overruns<S: Semiring>(
    source: &Source,
    rule: &TransducerRule<u32>,
    state: u32,
    listing: &CompositionListing,
) -> bool
    requires within { IsWithinBudget listing.now }
    ensures { IsTrue result → SideOverruns S.product source.now rule.now state listing.now }
{
    let Some(found) = piece_plenty::<S>(source, &Piece::Read { node: 0, state }) else {
        return false;
    };
    let Some(_whole) = S::times(rule.cost, found.worst) else {
        return false;
    };
    let each = 1 + rule.left.items().len() as u64;
    let parts = found.count.saturating_mul(each).saturating_add(found.items);
    parts > listing.budget - listing.parts
}

impl<'a, S: Semiring> Composite<'a, S> {
    /// How many translations of the tree of a node the rule at a position has at least, none where
    /// nothing is known.
    fn rule_plenty(&self, source: &Source, node: u32, position: u32) -> Option<Plenty>
        requires below { position < length self.now.second.now.rules }
        ensures { IfSome result (RuleAddsAt S.product source.now self.now.second.now.rules node
            position) }
    {
        let rule = &self.second.rule_list()[position as usize];
        let Some(inner) = right_plenty::<S>(source, rule.right.items(), node) else {
            return None;
        };
        let Some(worst) = S::times(rule.cost, inner.worst) else {
            return None;
        };
        Some(Plenty {
            count: inner.count,
            items: inner.items,
            worst,
        })
    }

    /// How many translations the tree of a label has at least, none where nothing is known.
    fn label_plenty(&self, source: &Source, reading: Reading) -> Option<Plenty>
        ensures { IfSome result (LabelAdds S.product source.now self.now.second.now.rules reading) }
    {
        let mut total = None;
        for position in self.index.find(reading.state, reading.label, reading.rank) {
            let own = self.rule_plenty(source, reading.node, *position);
            total = added_plenty(total, own);
        }
        total
    }

    /// Sets how many translations the tree of a node has at least by a state, from what is set for
    /// the trees below it. Err only if memory is refused. Cost: for each rule that reads the label
    /// there one pass over the rule's right-hand side.
    pub(crate) fn set_plenty(
        &self,
        source: &mut Source,
        node: u32,
        state: u32,
    ) -> Result<(), AllocError>
        ensures { OnOk result (KeepsSource S.product self.now.second.now.rules source.old
            source.new) }
    {
        let Some(Item::Label { label, rank }) = source.items.get(node as usize) else {
            return Ok(());
        };
        let reading = Reading {
            node,
            label: *label,
            rank: *rank,
            state,
        };
        let Some(plenty) = self.label_plenty(source, reading) else {
            return Ok(());
        };
        source.plenties.set(node, state, plenty)?;
        Ok(())
    }
}
