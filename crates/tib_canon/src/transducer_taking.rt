// Rules taken out in another order.
ghost use Rattle.std.specs.Prelude.{IsTrue, ◌≡◌, ◌<◌, ℕ, Some, None, length, map, set, IfOk};
ghost use Rattle.std.proofs.Common.{get_or};
ghost use Rattle.tib_lex.specs.Lists.{Distinct};
ghost use Rattle.tib_transducer.specs.Rules.{transducer_rule};

use std::alloc::{AllocError, Global};
use tib_transducer::TransducerRule;

// Each rule in a place from which it can be taken.
fn places_of(
    alloc: Global,
    rules: Vec<TransducerRule<u32>>,
) -> Result<Vec<Option<TransducerRule<u32>>>, AllocError>
    ensures { IfOk result (λ places. places.items ≡ map (λ r. Some r) rules.items) }
{
    let mut places = Vec::with_capacity(alloc, rules.len())?;
    for rule in rules {
        places.push(Some(rule))?;
    }
    Ok(places)
}

// Takes the rule out of a place.
fn take_from(
    places: &mut Vec<Option<TransducerRule<u32>>>,
    position: u32,
) -> Option<TransducerRule<u32>>
    requires { position < length places.old.items }
    ensures value { result ≡ get_or places.old.items position None }
    ensures after { places.new.items ≡ set places.old.items position None }
{
    places[position as usize].take()
}

// The rules at some positions, in the order of the positions. Each is moved to its new place.
fn moved_rules(
    alloc: Global,
    rules: Vec<TransducerRule<u32>>,
    positions: &[u32],
) -> Result<Vec<TransducerRule<u32>>, AllocError>
    requires below { (i : ℕ) → i < length positions.now → get_or positions.now i 0
        < length rules.items }
    requires apart { Distinct positions.now }
    ensures { IfOk result (λ v. v.items ≡ map (transducer_rule rules.items) positions.now) }
{
    let mut places = places_of(alloc, rules)?;
    let mut taken = Vec::with_capacity(alloc, positions.len())?;
    for position in positions {
        match take_from(&mut places, *position) {
            Some(rule) => taken.push(rule)?,
            None => unreachable!(),
        }
    }
    Ok(taken)
}

// Whether the positions are the first ones, each in its place.
fn are_in_place(positions: &[u32], count: usize) -> bool
    ensures many { IsTrue result → length positions.now ≡ count }
    ensures each { IsTrue result → (i : ℕ) → i < count → get_or positions.now i 0 ≡ i }
{
    if positions.len() != count {
        return false;
    }
    for n in 0..count {
        if positions[n] as usize != n {
            return false;
        }
    }
    true
}

/// The rules at some positions, in the order of the positions. They are moved, and the others are
/// dropped. If each rule is already in its place, nothing is done. Err only if memory is refused;
/// the rules are then gone.
pub(crate) fn rules_at(
    alloc: Global,
    rules: Vec<TransducerRule<u32>>,
    positions: &[u32],
) -> Result<Vec<TransducerRule<u32>>, AllocError>
    requires below { (i : ℕ) → i < length positions.now → get_or positions.now i 0
        < length rules.items }
    requires apart { Distinct positions.now }
    ensures { IfOk result (λ v. v.items ≡ map (transducer_rule rules.items) positions.now) }
{
    if are_in_place(positions, rules.len()) {
        return Ok(rules);
    }
    moved_rules(alloc, rules, positions)
}
