// Rules taken out in another order.
ghost use Rattle.std.specs.Prelude.{◌≡◌, ◌<◌, Some, None, length, map, set, IfOk};
ghost use Rattle.std.proofs.Common.{get_or};
ghost use Rattle.tib_lex.specs.Lists.{Each, Distinct};
ghost use Rattle.tib_grammar.specs.Run.{rule_at};

use crate::lines::Line;
use std::alloc::{AllocError, Global};
use tib_grammar::Rule;

// Each rule in a place from which it can be taken.
fn places_of(alloc: Global, rules: Vec<Rule<u32>>) -> Result<Vec<Option<Rule<u32>>>, AllocError>
    ensures { IfOk result (λ places. places.items ≡ map (λ r. Some r) rules.items) }
{
    let mut places = Vec::with_capacity(alloc, rules.len())?;
    for rule in rules {
        places.push(Some(rule))?;
    }
    Ok(places)
}

// Takes the rule out of a place.
fn take_from(places: &mut Vec<Option<Rule<u32>>>, position: u32) -> Option<Rule<u32>>
    requires { position < length places.old.items }
    ensures value { result ≡ get_or places.old.items position None }
    ensures after { places.new.items ≡ set places.old.items position None }
{
    places[position as usize].take()
}

/// The rules at the positions of some lines, in the order of the lines. They are moved. Err only if
/// memory is refused; the rules are then gone.
pub(crate) fn rules_at(
    alloc: Global,
    rules: Vec<Rule<u32>>,
    lines: &[Line],
) -> Result<Vec<Rule<u32>>, AllocError>
    requires below { Each (λ line. line.position < length rules.items) lines.now }
    requires apart { Distinct (map (λ line. line.position) lines.now) }
    ensures { IfOk result (λ v. v.items ≡ map (λ line. rule_at rules.items line.position)
        lines.now) }
{
    let mut places = places_of(alloc, rules)?;
    let mut taken = Vec::with_capacity(alloc, lines.len())?;
    for line in lines {
        match take_from(&mut places, line.position) {
            Some(rule) => taken.push(rule)?,
            None => unreachable!(),
        }
    }
    Ok(taken)
}
