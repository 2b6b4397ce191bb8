// What an edge of backward application leads to: the keys of the variables, and sides over their
// numbers.
ghost use Rattle.std.specs.Prelude.{◌≡◌, ◌^◌, ◌+◌, ◌<◌, ◌≤◌, ◌++◌, ◌∷◌, [], ℕ, length, map, IfOk, OnOk, slice_index};
ghost use Rattle.std.proofs.Common.{get_or};
ghost use Rattle.tib_lex.specs.Lists.{Each};
ghost use Rattle.tib_tree.specs.Trees.{preorder_of, size};
ghost use Rattle.tib_grammar.specs.Sides.{Side as SideFor, side_map, holes_of};
ghost use Rattle.tib_grammar.specs.Items.{holes_in, pairs_of};
ghost use Rattle.tib_apply.specs.Backward.{states_at};
ghost use Rattle.tib_apply.specs.BackwardLists.{item_with, number_from, variable_key};

use crate::key::Key;
use crate::restrictions::Restrictions;
use std::alloc::{AllocError, Global};
use tib_grammar::{Item, Side};
use tib_transducer::{Pair, Variable};

/// For each number below the count the state of the pair with that variable and the state at its
/// place, where pairs are among the items at these states.
pub(crate) fn states_by_variable(
    alloc: Global,
    items: &[Item<Pair<u32>>],
    states: &[u32],
    count: usize,
) -> Result<Vec<(u32, u32)>, AllocError>
    requires as_many { length states.now ≡ length (holes_in items.now) }
    requires known { Each (λ x. x.variable < count) (holes_in items.now) }
    ensures long { IfOk result (λ v. length v.items ≡ count) }
    ensures at { IfOk result (λ v. (i : ℕ) → i < count → get_or v.items i (0, 0)
        ≡ states_at i (holes_in items.now) states.now) }
{
    let mut by_variable = vec![in alloc; (0, 0); count]?;
    let mut place = states.len();
    let mut i = items.len();
    while i > 0 {
        i -= 1;
        if let Item::Hole(pair) = &items[i] {
            place -= 1;
            by_variable[pair.variable as usize] = (pair.state, states[place]);
        }
    }
    Ok(by_variable)
}

// Appends the key of the variable that an item may carry.
fn push_key(
    restrictions: &Restrictions,
    item: &Item<Variable>,
    states: &[(u32, u32)],
    ends: &mut Vec<Key>,
) -> Result<(), AllocError>
    requires { Each (λ x. x.number < length states.now) (holes_in (item.now ∷ [])) }
    ensures { OnOk result (ends.new.items ≡ ends.old.items
        ++ map (variable_key restrictions.now states.now) (holes_in (item.now ∷ []))) }
{
    if let Item::Hole(variable) = item {
        let (first, second) = states[variable.number as usize];
        let restriction = restrictions.number(variable.label);
        ends.push(Key::new(first, second, restriction))?;
    }
    Ok(())
}

/// Appends the keys of the variables among some items, whose states are listed by their numbers.
pub(crate) fn push_keys(
    restrictions: &Restrictions,
    items: &[Item<Variable>],
    states: &[(u32, u32)],
    ends: &mut Vec<Key>,
) -> Result<(), AllocError>
    requires { Each (λ x. x.number < length states.now) (holes_in items.now) }
    ensures { OnOk result (ends.new.items ≡ ends.old.items
        ++ map (variable_key restrictions.now states.now) (holes_in items.now)) }
{
    for item in items {
        push_key(restrictions, item, states, ends)?;
    }
    Ok(())
}

// The side whose preorder the items are.
fn side_of(items: Vec<Item<u32>>) -> Side<u32>
    requires few { length items.items < 2 ^ 32 }
    requires there { (s : SideFor ℕ ℕ) × (preorder_of s ≡ pairs_of items.items) }
    ensures { (s : SideFor ℕ ℕ) → preorder_of s ≡ pairs_of items.items → result ≡ s }
{
    match Side::from_preorder(items) {
        Ok(side) => side,
        Err(_) => unreachable!(),
    }
}

// An item with the number of its variable, counted from the first, in place of that.
fn numbered_item(item: &Item<Variable>, first: u32) -> Item<u32>
    requires { Each (λ x. number_from first x < 2 ^ 32) (holes_in (item.now ∷ [])) }
    ensures { result ≡ item_with (number_from first) item.now }
{
    match item {
        Item::Label { label, rank } => Item::Label {
            label: *label,
            rank: *rank,
        },
        Item::Hole(variable) => Item::Hole(first + variable.number),
    }
}

/// A side with the numbers of its variables, counted from the first, in place of these. Err only if
/// memory is refused.
pub(crate) fn number_variables(
    alloc: Global,
    side: &Side<Variable>,
    first: u32,
) -> Result<Side<u32>, AllocError>
    requires few { size side.now < 2 ^ 32 }
    requires numbers { Each (λ x. number_from first x < 2 ^ 32) (holes_of side.now) }
    ensures { IfOk result (λ s. s ≡ side_map (number_from first) side.now) }
{
    let items = side.items();
    let mut numbered = Vec::with_capacity(alloc, items.len())?;
    for item in items {
        numbered.push(numbered_item(item, first))?;
    }
    Ok(side_of(numbered))
}

// An item with the position of an end in place of its number.
fn placed_item(item: &Item<u32>, ends: &[u32]) -> Item<u32>
    requires { Each (λ i. i < length ends.now) (holes_in (item.now ∷ [])) }
    ensures { result ≡ item_with (slice_index ends.now) item.now }
{
    match item {
        Item::Label { label, rank } => Item::Label {
            label: *label,
            rank: *rank,
        },
        Item::Hole(end) => Item::Hole(ends[*end as usize]),
    }
}

/// A side with the positions of ends in place of their numbers. Err if memory is refused, or the
/// side has more than 4,000,000,000 items.
pub(crate) fn place_ends(
    alloc: Global,
    side: &Side<u32>,
    ends: &[u32],
) -> Result<Side<u32>, AllocError>
    requires { Each (λ i. i < length ends.now) (holes_of side.now) }
    ensures { IfOk result (λ s. s ≡ side_map (slice_index ends.now) side.now) }
{
    let items = side.items();
    if items.len() > 4_000_000_000 {
        return Err(AllocError);
    }
    let mut placed = Vec::with_capacity(alloc, items.len())?;
    for item in items {
        placed.push(placed_item(item, ends))?;
    }
    Ok(side_of(placed))
}
