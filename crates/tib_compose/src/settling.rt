//! Rules over places with positions in place of these.

ghost use Rattle.std.specs.Prelude.{◌≡◌, ℕ, ◌<◌, ◌^◌, length, map, IfOk};
ghost use Rattle.tib_lex.specs.Lists.{Each};
ghost use Rattle.tib_tree.specs.Trees.{IsOneTree, only, preorder_of};
ghost use Rattle.tib_grammar.specs.Items.{pairs_of};
ghost use Rattle.tib_grammar.specs.Sides.{side_map};
ghost use Rattle.tib_expand.specs.EdgeLists.{IsWithin, position_of};
ghost use Rattle.tib_transducer.specs.NamedPairs.{named_pair, named_item};
ghost use Rattle.tib_key_edges.specs.Named.{named_transducer_rule};
ghost use Rattle.tib_compose.specs.EdgeLaws.{all_states, places_of, rule_of};
ghost use Rattle.tib_compose.specs.NamedItems.{IsItemWithin, HolesAreWithin};

use crate::placed_rule::PlacedRule;
use std::alloc::{AllocError, Global};
use tib_expand::Place;
use tib_grammar::{Item, Side};
use tib_transducer::{Pair, TransducerRule, Variable};
use tib_tree::ShapeError;

/// The position of a place.
fn position_at(place: Place, ends: &[u32]) -> u32
    requires { (known : ℕ) × IsWithin known (length ends.now) place }
    ensures { result ≡ position_of ends.now place }
{
    match place {
        Place::Known(position) => position,
        Place::End(number) => ends[number as usize],
    }
}

/// An item with the position of its place.
fn settled_item(item: &Item<Pair<Place>>, ends: &[u32]) -> Item<Pair<u32>>
    requires { (known : ℕ) × IsItemWithin known (length ends.now) item.now }
    ensures { result ≡ named_item (position_of ends.now) item.now }
{
    match item {
        Item::Label { label, rank } => Item::Label {
            label: *label,
            rank: *rank,
        },
        Item::Hole(pair) => Item::Hole(Pair {
            state: position_at(pair.state, ends),
            variable: pair.variable,
        }),
    }
}

/// The items with the positions of their places.
fn settled_items(
    alloc: Global,
    items: &[Item<Pair<Place>>],
    ends: &[u32],
) -> Result<Vec<Item<Pair<u32>>>, AllocError>
    requires { (known : ℕ) × HolesAreWithin known (length ends.now) items.now }
    ensures { IfOk result (λ v. v.items ≡ map (named_item (position_of ends.now)) items.now) }
{
    let mut settled = Vec::with_capacity(alloc, items.len())?;
    for item in items {
        settled.push(settled_item(item, ends))?;
    }
    Ok(settled)
}

/// A copy of an item of a left-hand side.
fn copied_item(item: &Item<Variable>) -> Item<Variable>
    ensures { result ≡ item.now }
{
    match item {
        Item::Label { label, rank } => Item::Label {
            label: *label,
            rank: *rank,
        },
        Item::Hole(variable) => Item::Hole(Variable {
            number: variable.number,
            label: variable.label,
        }),
    }
}

/// A copy of the items of a left-hand side.
fn copied_items(alloc: Global, items: &[Item<Variable>]) -> Result<Vec<Item<Variable>>, AllocError>
    ensures { IfOk result (λ v. v.items ≡ items.now) }
{
    let mut copied = Vec::with_capacity(alloc, items.len())?;
    for item in items {
        copied.push(copied_item(item))?;
    }
    Ok(copied)
}

/// The side of some items. Err where they are too many to be counted.
fn side_of<P: Drop>(items: Vec<Item<P>>) -> Result<Side<P>, AllocError>
    requires tree { IsOneTree (pairs_of items.items) }
    ensures { IfOk result (λ s. preorder_of s ≡ pairs_of items.items) }
{
    if items.len() > 4_000_000_000 {
        return Err(AllocError);
    }
    match Side::from_preorder(items) {
        Ok(side) => Ok(side),
        Err(ShapeError::NotATree) => unreachable!(),
        Err(ShapeError::OutOfMemory) => unreachable!(),
    }
}

/// A copy of a left-hand side. Err only if memory is refused.
fn copied_left(alloc: Global, left: &Side<Variable>) -> Result<Side<Variable>, AllocError>
    ensures { IfOk result (λ s. s ≡ left.now) }
{
    let items = copied_items(alloc, left.items())?;
    side_of(items)
}

/// A right-hand side with the positions of its places. Err only if memory is refused.
fn settled_right(
    alloc: Global,
    right: &Side<Pair<Place>>,
    ends: &[u32],
) -> Result<Side<Pair<u32>>, AllocError>
    requires { (known : ℕ) × Each (IsWithin known (length ends.now)) (all_states (only right.now)) }
    ensures { IfOk result (λ s. s ≡ side_map (named_pair (position_of ends.now)) right.now) }
{
    let items = settled_items(alloc, right.items(), ends)?;
    side_of(items)
}

/// A rule with each of its places replaced by that place's position. Err only if memory is refused.
pub(crate) fn settled_rule(
    alloc: Global,
    rule: &PlacedRule,
    ends: &[u32],
) -> Result<TransducerRule<u32>, AllocError>
    requires { (known : ℕ) × Each (IsWithin known (length ends.now))
        (places_of (rule_of rule.now)) }
    ensures { IfOk result (λ r. r ≡ named_transducer_rule (position_of ends.now)
        (rule_of rule.now)) }
{
    let left = copied_left(alloc, rule.left)?;
    let right = settled_right(alloc, &rule.right, ends)?;
    Ok(TransducerRule {
        state: rule.position,
        left,
        right,
        cost: rule.cost,
    })
}
