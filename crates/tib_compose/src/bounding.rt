//! What each translation of the trees of a right-hand side costs at least, found from the last
//! trees to the first.

ghost use Rattle.std.specs.Prelude.{ℕ, ◌<◌, length, IfOk, OnOk};
ghost use Rattle.tib_compose.specs.Bounding.{BoundsNode, BoundsReader, KeepsSource};
ghost use Rattle.tib_compose.specs.Pending.{IsAtLeast};

use crate::branch::Reading;
use crate::composite::Composite;
use crate::ends::skip;
use crate::pending::{Pending, product_of};
use crate::putting::push_pieces;
use crate::source::Source;
use std::alloc::{AllocError, Global};
use std::collections::HashMap;
use tib_cost::{Cost, Semiring};
use tib_grammar::Item;
use tib_transducer::Pair;

/// The lesser of two bounds, where `None` is more than the greatest cost.
fn lesser_of(one: Option<Cost>, two: Option<Cost>) -> Option<Cost>
    ensures first { (n : ℕ) → IsAtLeast one n → IsAtLeast result n }
    ensures second { (n : ℕ) → IsAtLeast two n → IsAtLeast result n }
{
    let Some(one) = one else {
        let Some(two) = two else {
            return None;
        };
        two.get();
        return Some(two);
    };
    one.get();
    let Some(two) = two else {
        return Some(one);
    };
    if two.get() < one.get() {
        Some(two)
    } else {
        Some(one)
    }
}

/// Asks for the nodes at which the pairs of a rule's right-hand side are below a node, each by its
/// state, unless they were asked for.
fn ask_rule(
    right: &[Item<Pair<u32>>],
    source: &Source,
    node: u32,
    seen: &mut HashMap<(u32, u32), bool>,
    asked: &mut Vec<(u32, u32)>,
) -> Result<(), AllocError>
    requires node { node < length source.now.ends.items }
{
    for item in right {
        if let Item::Hole(pair) = item {
            let child = skip(&source.ends, node + 1, pair.variable);
            if seen.get(&(child, pair.state)).is_none() {
                seen.insert((child, pair.state), true)?;
                asked.push((child, pair.state))?;
            }
        }
    }
    Ok(())
}

/// Whether a label is below the root of a right-hand side.
fn has_label_below(items: &[Item<Pair<u32>>]) -> bool {
    for i in 1..items.len() {
        if let Item::Label { .. } = &items[i] {
            return true;
        }
    }
    false
}

impl<'a, S: Semiring> Composite<'a, S> {
    /// Asks for what the rules that read the label at a node by a state ask for.
    fn ask_below(
        &self,
        source: &Source,
        node: u32,
        state: u32,
        seen: &mut HashMap<(u32, u32), bool>,
        asked: &mut Vec<(u32, u32)>,
    ) -> Result<(), AllocError> {
        let Some(Item::Label { label, rank }) = source.items.get(node as usize) else {
            return Ok(());
        };
        for position in self.index.find(state, *label, *rank) {
            if let Some(rule) = self.second.rule_list().get(*position as usize) {
                ask_rule(rule.right.items(), source, node, seen, asked)?;
            }
        }
        Ok(())
    }

    /// The nodes and states that a search from the root by a state may come to, each before those
    /// below it.
    fn asked_by(
        &self,
        alloc: Global,
        source: &Source,
        state: u32,
    ) -> Result<Vec<(u32, u32)>, AllocError> {
        let mut seen = HashMap::new(alloc);
        let mut asked = Vec::new(alloc);
        asked.push((0u32, state))?;
        let mut i = 0;
        while i < asked.len() {
            let (node, state) = asked[i];
            self.ask_below(source, node, state, &mut seen, &mut asked)?;
            i += 1;
        }
        Ok(asked)
    }

    /// What each translation of the tree of a node by the rule at a position costs at least.
    fn reader_bound(
        &self,
        alloc: Global,
        source: &Source,
        node: u32,
        position: u32,
    ) -> Result<Option<Cost>, AllocError>
        requires below { position < length self.now.second.now.rules }
        requires node { node < length source.now.ends.items }
        ensures { IfOk result (BoundsReader S.product self.now.second.now.rules source.now node
            position) }
    {
        let rule = &self.second.rule_list()[position as usize];
        let mut pending = Pending::new(alloc);
        push_pieces::<S>(&mut pending, rule.right.items(), source, node)?;
        Ok(product_of::<S>(Some(rule.cost), pending.bound()))
    }

    /// What each translation of the tree of a label costs at least.
    fn label_bound(
        &self,
        alloc: Global,
        source: &Source,
        reading: Reading,
    ) -> Result<Option<Cost>, AllocError>
        requires node { reading.node < length source.now.ends.items }
        ensures { IfOk result (BoundsNode S.product self.now.second.now.rules source.now reading) }
    {
        let mut least = None;
        for position in self.index.find(reading.state, reading.label, reading.rank) {
            let bound = self.reader_bound(alloc, source, reading.node, *position)?;
            least = lesser_of(least, bound);
        }
        Ok(least)
    }

    /// Sets the bound of a node and a state.
    fn set_bound(
        &self,
        alloc: Global,
        source: &mut Source,
        node: u32,
        state: u32,
    ) -> Result<(), AllocError>
        ensures { OnOk result (KeepsSource S.product self.now.second.now.rules source.old
            source.new) }
    {
        let Some(Item::Label { label, rank }) = source.items.get(node as usize) else {
            return Ok(());
        };
        let reading = Reading {
            node,
            label: *label,
            rank: *rank,
            state,
        };
        let bound = self.label_bound(alloc, source, reading)?;
        source.bounds.set(node, state, bound)?;
        Ok(())
    }

    /// Sets the bounds of all nodes and states that a search from the root by a state may come to,
    /// and how many translations they have at least. A right-hand side of one label needs none:
    /// each rule that reads it gives a translation. Cost: for each of them and each rule that reads
    /// the label there two passes over the rule's right-hand side.
    pub(crate) fn set_bounds(
        &self,
        alloc: Global,
        source: &mut Source,
        state: u32,
    ) -> Result<(), AllocError>
        ensures { OnOk result (KeepsSource S.product self.now.second.now.rules source.old
            source.new) }
    {
        if !has_label_below(source.items) {
            return Ok(());
        }
        let mut asked = self.asked_by(alloc, source, state)?;
        while let Some((node, state)) = asked.pop() {
            self.set_bound(alloc, source, node, state)?;
            self.set_plenty(source, node, state)?;
        }
        Ok(())
    }
}
