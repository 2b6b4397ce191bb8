// The cheapest of the rules that agree in their states and sides.
ghost use Rattle.std.specs.Prelude.{◌≡◌, ◌<◌, ◌^◌, length, map, IfOk};
ghost use Rattle.tib_canon.specs.TransducerMerging.{IsNoted, IsCheaper, AreCheapest};

use indexmap::IndexSet;
use std::alloc::{AllocError, Global};
use tib_grammar::Item;
use tib_transducer::{Pair, TransducerRule, Variable};

// Notes the state and the sides of a rule after those noted before. If they are among them, returns
// their place.
fn note<'a>(
    sides: &mut IndexSet<(u32, &'a [Item<Variable>], &'a [Item<Pair<u32>>])>,
    state: u32,
    left: &'a [Item<Variable>],
    right: &'a [Item<Pair<u32>>],
) -> Result<Option<usize>, AllocError>
    ensures { IfOk result (λ r. IsNoted (map (λ k. (k.0, k.1.now, k.2.now)) sides.old.keys)
        (state, left.now, right.now) r (map (λ k. (k.0, k.1.now, k.2.now)) sides.new.keys)) }
{
    let (place, is_new) = sides.insert_full((state, left, right))?;
    Ok(if is_new { None } else { Some(place) })
}

// The position of the cheaper of two rules.
fn cheaper(rules: &[TransducerRule<u32>], first: u32, second: u32) -> u32
    requires first { first < length rules.now }
    requires second { second < length rules.now }
    ensures { IsCheaper rules.now first second result }
{
    if rules[second as usize].cost < rules[first as usize].cost {
        second
    } else {
        first
    }
}

/// The position of a cheapest rule for each state with both sides, in the order in which these
/// first occur. Err only if memory is refused. Each rule is hashed once.
pub(crate) fn cheapest(alloc: Global, rules: &[TransducerRule<u32>]) -> Result<Vec<u32>, AllocError>
    requires { length rules.now < 2 ^ 32 }
    ensures { IfOk result (λ best. AreCheapest rules.now best.items) }
{
    let mut sides: IndexSet<(u32, &[Item<Variable>], &[Item<Pair<u32>>])> = IndexSet::with_capacity(
        alloc,
        rules.len(),
    )?;
    let mut best: Vec<u32> = Vec::with_capacity(alloc, rules.len())?;
    for n in 0..rules.len() {
        let rule = &rules[n];
        match note(
            &mut sides,
            rule.state,
            rule.left.items(),
            rule.right.items(),
        )? {
            None => best.push(n as u32)?,
            Some(place) => best[place] = cheaper(rules, best[place], n as u32),
        }
    }
    Ok(best)
}
