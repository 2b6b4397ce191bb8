//! Lists by numbers, as of places of rules by the states that are there.

ghost use Rattle.std.specs.Prelude.{◌≡◌, ℕ, ◌<◌, ◌^◌, ◌++◌, length, map, IfOk, OnOk};
ghost use Rattle.std.proofs.Common.{get_or};
ghost use Rattle.tib_grammar.specs.Forms.{AreNormal};
ghost use Rattle.tib_grammar.specs.Items.{state_in};
ghost use Rattle.tib_difference.specs.Held.{HoldSame, HoldsMore, held};
ghost use Rattle.tib_difference.specs.Tries.{places_with, states_in, users_of};

use std::alloc::{AllocError, Global};
use tib_grammar::{Item, Rule};

// Makes a list for a number, and for each one below it.
fn make_room<T: Drop>(alloc: Global, lists: &mut Vec<Vec<T>>, number: u32) -> Result<(), AllocError>
    ensures same { OnOk result (HoldSame lists.old.items lists.new.items) }
    ensures room { OnOk result (number < length lists.new.items) }
{
    while lists.len() <= number as usize {
        lists.push(Vec::new(alloc))?;
    }
    Ok(())
}

/// Adds a value to the list of a number. Err only if memory is refused. It takes one step, and one
/// for each number up to this one that has no list yet.
pub(crate) fn add<T: Drop>(
    alloc: Global,
    lists: &mut Vec<Vec<T>>,
    number: u32,
    value: T,
) -> Result<(), AllocError>
    ensures { OnOk result (HoldsMore number value lists.old.items lists.new.items) }
{
    make_room(alloc, lists, number)?;
    lists[number as usize].push(value)?;
    Ok(())
}

/// The list of a number, empty where there is none.
pub(crate) fn list_of<T>(lists: &[Vec<T>], number: u32) -> &[T]
    ensures { result.now ≡ held lists.now number }
{
    match lists.get(number as usize) {
        Some(list) => list,
        None => &[],
    }
}

/// The state that the item at a place carries, 0 where there is none.
pub(crate) fn state_at(states: &[Item<u32>], place: u32) -> u32
    ensures { result ≡ get_or (map state_in states.now) place 0 }
{
    match states.get(place as usize) {
        Some(item) => item.state(),
        None => 0,
    }
}

// Adds the places of a rule to the lists of their states.
fn add_places(
    alloc: Global,
    lists: &mut Vec<Vec<(u32, u32)>>,
    rules: &[Rule<u32>],
    number: u32,
) -> Result<(), AllocError>
    requires normal { AreNormal rules.now }
    requires below { number < length rules.now }
    ensures { OnOk result ((q : ℕ) → held lists.new.items q ≡ held lists.old.items q
        ++ map (λ j. (number, j)) (places_with q (states_in rules.now number))) }
{
    let rule = &rules[number as usize];
    let (_, rank) = rule.root();
    let states = rule.states_below();
    for place in 0..rank {
        let state = state_at(states, place);
        add(alloc, lists, state, (number, place))?;
    }
    Ok(())
}

/// The rules, each with a place, by the states that are there. Err only if memory is refused. Cost:
/// one step for each place of each rule.
pub(crate) fn users_by_state(
    alloc: Global,
    rules: &[Rule<u32>],
) -> Result<Vec<Vec<(u32, u32)>>, AllocError>
    requires few { length rules.now < 2 ^ 32 }
    requires normal { AreNormal rules.now }
    ensures { IfOk result (λ lists. (q : ℕ) → held lists.items q
        ≡ users_of rules.now q (length rules.now)) }
{
    let mut lists = Vec::new(alloc);
    for number in 0..rules.len() {
        add_places(alloc, &mut lists, rules, number as u32)?;
    }
    Ok(lists)
}
