//! Right-hand sides of one label over pairs. Each rule that reads the label translates such a side,
//! in one way, so no search is begun.

ghost use Rattle.std.specs.Prelude.{◌≡◌, ℕ, ◌<◌, IfSome, IsTrue, OnOk, Err, length};
ghost use Rattle.tib_grammar.specs.Items.{pairs_of};
ghost use Rattle.tib_tree.specs.Trees.{IsOneTree, preorder_of};
ghost use Rattle.tib_transducer.specs.Rules.{transducer_rule};
ghost use Rattle.tib_compose.specs.FlatSides.{
  ArePairsFrom,
  IsFlatOver,
  KeptOverruns,
  ListsKept,
  ListsReader,
  PutsBelow,
  PutsRight,
  ReaderOverruns,
  ReadsFlat,
};
ghost use Rattle.tib_compose.specs.KeyEdges.{ListsRule, RuleOverruns};
ghost use Rattle.tib_compose.specs.CompositionListing.{IsWithinBudget};
ghost use Rattle.tib_compose.specs.PieceViews.{AreKnown, IsKnown};

use crate::composite::Composite;
use crate::listing::CompositionListing;
use std::alloc::{AllocError, Global};
use tib_cost::{Cost, Semiring};
use tib_expand::ExpandError;
use tib_grammar::{Item, Side};
use tib_key_edges::StatePair;
use tib_transducer::{Pair, TransducerRule, Variable};
use tib_tree::Label;

/// Whether all items after the first are pairs.
fn are_pairs(items: &[Item<Pair<u32>>]) -> bool
    ensures { IsTrue result → ArePairsFrom 1 items.now }
{
    let mut i = items.len();
    while i > 1 {
        i -= 1;
        match &items[i] {
            Item::Label { .. } => return false,
            Item::Hole(_) => {}
        }
    }
    true
}

/// The label of a right-hand side that is one label over pairs, with the number of these. Cost: one
/// pass over the items.
pub(crate) fn flat_root(items: &[Item<Pair<u32>>]) -> Option<(Label, u32)>
    ensures { IfSome result (λ r. IsFlatOver (pairs_of items.now) r.0 r.1) }
{
    if are_pairs(items) {
        match items.get(0) {
            Some(Item::Label { label, rank }) => Some((*label, *rank)),
            _ => None,
        }
    } else {
        None
    }
}

/// Puts out an item of a rule's right-hand side, where a variable stands for a pair of one label
/// over pairs. Err only if memory is refused.
fn put_below(
    items: &[Item<Pair<u32>>],
    item: &Item<Pair<u32>>,
    done: &mut Vec<Item<Pair<StatePair>>>,
) -> Result<(), AllocError>
    requires pairs { ArePairsFrom 1 items.now }
    requires known { (n : ℕ) × (n < length items.now) × IsKnown n item.now }
    ensures { OnOk result (PutsBelow items.now item.now done.old.items done.new.items) }
{
    match item {
        Item::Label { label, rank } => {
            done.push(Item::Label {
                label: *label,
                rank: *rank,
            })?;
            Ok(())
        }
        Item::Hole(pair) => match items.get(pair.variable as usize + 1) {
            Some(Item::Hole(below)) => {
                let state = StatePair::new(below.state, pair.state);
                done.push(Item::Hole(Pair {
                    state,
                    variable: below.variable,
                }))?;
                Ok(())
            }
            Some(Item::Label { .. }) => unreachable!(),
            None => unreachable!(),
        },
    }
}

/// Puts out a rule's right-hand side in place of one label over pairs. Err only if memory is
/// refused.
fn put_right(
    items: &[Item<Pair<u32>>],
    right: &[Item<Pair<u32>>],
    done: &mut Vec<Item<Pair<StatePair>>>,
) -> Result<(), AllocError>
    requires pairs { ArePairsFrom 1 items.now }
    requires known { (n : ℕ) × (n < length items.now) × AreKnown n right.now }
    ensures { OnOk result (PutsRight items.now right.now done.new.items) }
{
    done.clear();
    for item in right {
        put_below(items, item, done)?;
    }
    Ok(())
}

/// Lists the edge that reads a left-hand side and puts out some items, unless it costs more than
/// the greatest cost.
fn list_kept<'a>(
    alloc: Global,
    left: &'a Side<Variable>,
    done: &[Item<Pair<StatePair>>],
    cost: Option<Cost>,
    listing: &mut CompositionListing<'a>,
) -> Result<(), ExpandError>
    requires within { IsWithinBudget listing.old }
    requires tree { IsOneTree (pairs_of done.now) }
    ensures listed { OnOk result (ListsKept left.now done.now cost listing.old listing.new) }
    ensures more { result ≡ Err ExpandError.More → KeptOverruns left.now done.now cost listing.old }
    ensures within { OnOk result (IsWithinBudget listing.new) }
    ensures budget { OnOk result (listing.new.budget ≡ listing.old.budget) }
{
    match cost {
        Some(cost) => match listing.add(alloc, left, done, cost) {
            Ok(()) => Ok(()),
            Err(fault) => Err(fault),
        },
        None => Ok(()),
    }
}

impl<'a, S: Semiring> Composite<'a, S> {
    /// Lists the edge along a rule of the first transducer, whose right-hand side is one label over
    /// pairs, by the rule of the second at a position, which reads the label.
    fn list_reader(
        &self,
        alloc: Global,
        rule: &'a TransducerRule<u32>,
        items: &[Item<Pair<u32>>],
        position: u32,
        done: &mut Vec<Item<Pair<StatePair>>>,
        listing: &mut CompositionListing<'a>,
    ) -> Result<(), ExpandError>
        requires below { position < length self.now.second.now.rules }
        requires pairs { ArePairsFrom 1 items.now }
        requires reads { ReadsFlat self.now.second.now.rules items.now position }
        requires within { IsWithinBudget listing.old }
        ensures listed { OnOk result (ListsReader S.product self.now.second.now.rules rule.now
            items.now position listing.old listing.new) }
        ensures more { result ≡ Err ExpandError.More →
            ReaderOverruns S.product self.now.second.now.rules rule.now items.now position
            listing.old }
        ensures within { OnOk result (IsWithinBudget listing.new) }
        ensures budget { OnOk result (listing.new.budget ≡ listing.old.budget) }
    {
        self.second.is_sound();
        let reader = &self.second.rule_list()[position as usize];
        let Ok(()) = put_right(items, reader.right.items(), done) else {
            return Err(ExpandError::OutOfMemory);
        };
        let cost = S::times(rule.cost, reader.cost);
        match list_kept(alloc, &rule.left, done, cost, listing) {
            Ok(()) => Ok(()),
            Err(fault) => Err(fault),
        }
    }

    /// Lists the edges of a pair along the rule of the first transducer at a position, whose
    /// right-hand side is this label over this many pairs. `More` exactly where they have more
    /// parts than the budget leaves. Cost: a look-up by hash, and for each rule of the second
    /// transducer that reads the label one pass over its right-hand side.
    pub(crate) fn list_flat(
        &self,
        alloc: Global,
        key: StatePair,
        position: u32,
        label: Label,
        rank: u32,
        listing: &mut CompositionListing<'a>,
    ) -> Result<(), ExpandError>
        requires below { position < length self.now.first.now.rules }
        requires flat { IsFlatOver (preorder_of (transducer_rule self.now.first.now.rules
            position).right) label rank }
        requires within { IsWithinBudget listing.old }
        ensures listed { OnOk result (ListsRule S.product self.now.first.now.rules
            self.now.second.now.rules key position listing.old listing.new) }
        ensures more { result ≡ Err ExpandError.More → RuleOverruns S.product
            self.now.first.now.rules self.now.second.now.rules key position listing.old }
        ensures within { OnOk result (IsWithinBudget listing.new) }
        ensures budget { OnOk result (listing.new.budget ≡ listing.old.budget) }
    {
        self.second.is_sound();
        let rule = &self.first.rule_list()[position as usize];
        let items = rule.right.items();
        let mut done = Vec::new(alloc);
        for reader in self.index.find(key.second(), label, rank) {
            match self.list_reader(alloc, rule, items, *reader, &mut done, listing) {
                Ok(()) => {}
                Err(fault) => return Err(fault),
            }
        }
        Ok(())
    }
}
