//! The edges of a rule of the first grammar, over all lists of positions in which a position is
//! last at one place.

ghost use Rattle.std.specs.Prelude.{◌≡◌, ℕ, ◌+◌, ◌<◌, ◌≤◌, ◌^◌, ◌∷◌, ◌++◌, [], length, map, IfOk, OnOk, Err, false};
ghost use Rattle.tib_lex.specs.Lists.{Each, Has};
ghost use Rattle.tib_grammar.specs.Forms.{AreNormal, IsNormalSide};
ghost use Rattle.tib_grammar.specs.Run.{rule_at};
ghost use Rattle.tib_expand.specs.Reached.{most_parts};
ghost use Rattle.tib_difference.specs.Lefts.{AreAscending};
ghost use Rattle.tib_difference.specs.Listing.{Adds, Exceed, HasAll, IsWithinBudget, Overruns};
ghost use Rattle.tib_key_edges.specs.Positions.{IsIndex};
ghost use Rattle.tib_difference.specs.Shapes.{has_shape};
ghost use Rattle.tib_difference.specs.Held.{AreHolders};
ghost use Rattle.tib_difference.specs.Tries.{leaf_try, leaves_of, states_in, tries_at};

use crate::choices::{is_stuck, push_choices};
use crate::holders::Holders;
use crate::listing::KeyListing;
use crate::subset::{Second, subset_over};
use crate::subset_key::SubsetKey;
use smallvec::SmallVec;
use std::alloc::Global;
use tib_expand::ExpandError;
use tib_grammar::Rule;

/// What a walk goes over: the edges of a rule of the first grammar over keys of an order, where a
/// position is last at a place. The holders are the positions of the order by the states of their
/// keys.
#[derive(Clone, Copy)]
pub(crate) struct Walk<'w> {
    pub first: &'w [Rule<u32>],
    pub second: Second<'w>,
    pub order: &'w [SubsetKey],
    pub holders: &'w Holders,
    pub rule: u32,
    pub place: u32,
    pub position: u32,
}

/// Lists the edge of a rule of the first grammar over the keys at some positions.
pub(crate) fn list_edge(
    alloc: Global,
    walk: &Walk<'_>,
    positions: SmallVec<u32, 4>,
    listing: &mut KeyListing,
) -> Result<(), ExpandError>
    requires first { AreNormal walk.now.first.now }
    requires second { AreNormal walk.now.second.rules.now }
    requires indexed { IsIndex has_shape walk.now.second.rules.now walk.now.second.index.now }
    requires rule { walk.now.rule < length walk.now.first.now }
    requires positions { Each (λ p. p < length walk.now.order.now) positions.items }
    requires ascending { AreAscending walk.now.order.now }
    requires few { length positions.items < 2 ^ 32 }
    requires within { IsWithinBudget listing.old }
    ensures added { OnOk result (Adds walk.now.first.now walk.now.second.rules.now
        walk.now.order.now ((walk.now.rule, positions.items) ∷ []) listing.old listing.new) }
    ensures more { result ≡ Err ExpandError.More → Overruns walk.now.first.now
        walk.now.second.rules.now walk.now.order.now ((walk.now.rule, positions.items) ∷ [])
        listing.old }
    ensures within { OnOk result (IsWithinBudget listing.new) }
    ensures budget { listing.new.budget ≡ listing.old.budget }
{
    let rule = &walk.first[walk.rule as usize];
    let (label, _) = rule.root();
    let Ok(subset) = subset_over(alloc, &walk.second, label, walk.order, positions.as_slice())
    else {
        return Err(ExpandError::OutOfMemory);
    };
    listing.add(
        label,
        positions,
        rule.cost,
        SubsetKey::new(rule.left, subset),
    )
}

// Lists the edge of a rule of the first grammar, if it has no states.
fn list_leaf(
    alloc: Global,
    first: &[Rule<u32>],
    second: &Second<'_>,
    number: u32,
    listing: &mut KeyListing,
) -> Result<(), ExpandError>
    requires first { AreNormal first.now }
    requires second { AreNormal second.now.rules.now }
    requires indexed { IsIndex has_shape second.now.rules.now second.now.index.now }
    requires rule { number < length first.now }
    requires within { IsWithinBudget listing.old }
    ensures added { OnOk result (Adds first.now second.now.rules.now []
        (leaf_try number (rule_at first.now number)) listing.old listing.new) }
    ensures more { result ≡ Err ExpandError.More → Overruns first.now second.now.rules.now []
        (leaf_try number (rule_at first.now number)) listing.old }
    ensures within { OnOk result (IsWithinBudget listing.new) }
    ensures budget { listing.new.budget ≡ listing.old.budget }
{
    let rule = &first[number as usize];
    let (_, rank) = rule.root();
    if rank != 0 {
        return Ok(());
    }
    let holders = Holders::new(alloc);
    let walk = Walk {
        first,
        second: *second,
        order: &[],
        holders: &holders,
        rule: number,
        place: 0,
        position: 0,
    };
    list_edge(alloc, &walk, SmallVec::new(alloc), listing)
}

/// Lists the edges of the rules of the first grammar without states.
pub(crate) fn list_leaves(
    alloc: Global,
    first: &[Rule<u32>],
    second: &Second<'_>,
    budget: u64,
) -> Result<KeyListing, ExpandError>
    requires first { AreNormal first.now }
    requires second { AreNormal second.now.rules.now }
    requires indexed { IsIndex has_shape second.now.rules.now second.now.index.now }
    requires few { length first.now < 2 ^ 32 }
    requires budget { budget ≤ most_parts }
    ensures listed { IfOk result (HasAll first.now second.now.rules.now [] (leaves_of first.now)) }
    ensures more { result ≡ Err ExpandError.More → Exceed first.now second.now.rules.now []
        (leaves_of first.now) budget }
    ensures within { IfOk result IsWithinBudget }
    ensures budget { IfOk result (λ l. l.budget ≡ budget) }
{
    let mut listing = KeyListing::new(alloc, budget);
    for number in 0..first.len() {
        match list_leaf(alloc, first, second, number as u32, &mut listing) {
            Ok(()) => {}
            Err(fault) => return Err(fault),
        }
    }
    Ok(listing)
}

// Lists the edge of a rule with one place over a position. A list has no other positions.
fn list_single(alloc: Global, walk: &Walk<'_>, listing: &mut KeyListing) -> Result<(), ExpandError>
    requires first { AreNormal walk.now.first.now }
    requires second { AreNormal walk.now.second.rules.now }
    requires indexed { IsIndex has_shape walk.now.second.rules.now walk.now.second.index.now }
    requires rule { walk.now.rule < length walk.now.first.now }
    requires place { walk.now.place < length (states_in walk.now.first.now walk.now.rule) }
    requires position { walk.now.position < length walk.now.order.now }
    requires ascending { AreAscending walk.now.order.now }
    requires single { length (states_in walk.now.first.now walk.now.rule) ≡ 1 }
    requires within { IsWithinBudget listing.old }
    ensures added { OnOk result (Adds walk.now.first.now walk.now.second.rules.now
        walk.now.order.now (tries_at walk.now.first.now walk.now.order.now walk.now.position
        walk.now.rule walk.now.place) listing.old listing.new) }
    ensures more { result ≡ Err ExpandError.More → Overruns walk.now.first.now
        walk.now.second.rules.now walk.now.order.now (tries_at walk.now.first.now
        walk.now.order.now walk.now.position walk.now.rule walk.now.place) listing.old }
    ensures within { OnOk result (IsWithinBudget listing.new) }
    ensures budget { listing.new.budget ≡ listing.old.budget }
{
    let mut positions = SmallVec::new(alloc);
    let Ok(()) = positions.push(walk.position) else {
        return Err(ExpandError::OutOfMemory);
    };
    list_edge(alloc, walk, positions, listing)
}

// Lists the edges of a rule over all lists of positions in which a position is last at a place. It
// goes over prefixes of these lists, each with a choice at its next place, and over none where some
// place has no choice.
fn list_prefixes(
    alloc: Global,
    walk: &Walk<'_>,
    listing: &mut KeyListing,
) -> Result<(), ExpandError>
    requires first { AreNormal walk.now.first.now }
    requires second { AreNormal walk.now.second.rules.now }
    requires indexed { IsIndex has_shape walk.now.second.rules.now walk.now.second.index.now }
    requires rule { walk.now.rule < length walk.now.first.now }
    requires place { walk.now.place < length (states_in walk.now.first.now walk.now.rule) }
    requires position { walk.now.position < length walk.now.order.now }
    requires ascending { AreAscending walk.now.order.now }
    requires holders { AreHolders walk.now.order.now walk.now.holders.now.lists.items }
    requires within { IsWithinBudget listing.old }
    ensures added { OnOk result (Adds walk.now.first.now walk.now.second.rules.now
        walk.now.order.now (tries_at walk.now.first.now walk.now.order.now walk.now.position
        walk.now.rule walk.now.place) listing.old listing.new) }
    ensures more { result ≡ Err ExpandError.More → Overruns walk.now.first.now
        walk.now.second.rules.now walk.now.order.now (tries_at walk.now.first.now
        walk.now.order.now walk.now.position walk.now.rule walk.now.place) listing.old }
    ensures within { OnOk result (IsWithinBudget listing.new) }
    ensures budget { listing.new.budget ≡ listing.old.budget }
{
    let rule = &walk.first[walk.rule as usize];
    let (_, rank) = rule.root();
    let states = rule.states_below();
    if is_stuck(walk, states, rank) {
        return Ok(());
    }
    let mut stack = Vec::new(alloc);
    let Ok(()) = stack.push(SmallVec::new(alloc)) else {
        return Err(ExpandError::OutOfMemory);
    };
    for _turn in 0..u64::MAX {
        let Some(prefix) = stack.pop() else {
            return Ok(());
        };
        if prefix.len() < rank as usize {
            let Ok(()) = push_choices(alloc, walk, states, prefix.as_slice(), &mut stack) else {
                return Err(ExpandError::OutOfMemory);
            };
            continue;
        }
        match list_edge(alloc, walk, prefix, listing) {
            Ok(()) => {}
            Err(fault) => return Err(fault),
        }
    }
    Err(ExpandError::OutOfMemory)
}

/// Lists the edges of a rule over all lists of positions in which a position is last at a place.
/// `More` exactly where an edge has more parts than the budget leaves. Worst case: one step for
/// each choice of each list that is begun, so at most as many for each edge as the rule has places.
pub(crate) fn list_tries(
    alloc: Global,
    walk: &Walk<'_>,
    listing: &mut KeyListing,
) -> Result<(), ExpandError>
    requires first { AreNormal walk.now.first.now }
    requires second { AreNormal walk.now.second.rules.now }
    requires indexed { IsIndex has_shape walk.now.second.rules.now walk.now.second.index.now }
    requires rule { walk.now.rule < length walk.now.first.now }
    requires place { walk.now.place < length (states_in walk.now.first.now walk.now.rule) }
    requires position { walk.now.position < length walk.now.order.now }
    requires ascending { AreAscending walk.now.order.now }
    requires holders { AreHolders walk.now.order.now walk.now.holders.now.lists.items }
    requires within { IsWithinBudget listing.old }
    ensures added { OnOk result (Adds walk.now.first.now walk.now.second.rules.now
        walk.now.order.now (tries_at walk.now.first.now walk.now.order.now walk.now.position
        walk.now.rule walk.now.place) listing.old listing.new) }
    ensures more { result ≡ Err ExpandError.More → Overruns walk.now.first.now
        walk.now.second.rules.now walk.now.order.now (tries_at walk.now.first.now
        walk.now.order.now walk.now.position walk.now.rule walk.now.place) listing.old }
    ensures within { OnOk result (IsWithinBudget listing.new) }
    ensures budget { listing.new.budget ≡ listing.old.budget }
{
    let (_, rank) = walk.first[walk.rule as usize].root();
    if rank == 1 {
        return list_single(alloc, walk, listing);
    }
    list_prefixes(alloc, walk, listing)
}
