//! The rules of the fresh start and of the positions of an order of vectors.

ghost use Rattle.std.specs.Prelude.{◌≡◌, ℕ, ◌+◌, ◌-◌, ◌<◌, ◌^◌, length, map, IfOk};
ghost use Rattle.std.proofs.Common.{suc, get_or};
ghost use Rattle.tib_lex.specs.Lists.{Each};
ghost use Rattle.tib_grammar.specs.GrammarOf.{named_rule};
ghost use Rattle.tib_grammar.specs.Range.{AreInRange, SidesEndInHoles};
ghost use Rattle.tib_grammar.specs.Sides.{Lone};
ghost use Rattle.tib_determinize.specs.Started.{chain_to, finals, start_in, started};

use crate::vector::Vector;
use std::alloc::{AllocError, Global};
use tib_cost::Cost;
use tib_grammar::{Item, Rule, Side, rename_rules};

// The residual of the start, if it is in a vector.
fn final_of(vector: &Vector) -> Option<Cost>
    ensures { result ≡ start_in vector.now }
{
    vector.residual(0)
}

/// The positions whose vectors have the start, each with the start's residual. Err only if memory
/// is refused. Worst case: one look at each entry.
pub fn final_positions(alloc: Global, order: &[Vector]) -> Result<Vec<(u32, Cost)>, AllocError>
    requires { length order.now < 2 ^ 32 }
    ensures { IfOk result (λ found. found.items ≡ finals 0 order.now) }
{
    let mut found = Vec::new(alloc);
    for position in 0..order.len() {
        if let Some(residual) = final_of(&order[position]) {
            found.push((position as u32, residual))?;
        }
    }
    Ok(found)
}

// A lone state.
fn lone(alloc: Global, state: u32) -> Result<Side<u32>, AllocError>
    ensures { IfOk result (λ side. side ≡ Lone state) }
{
    let items = vec![in alloc; Item::Hole(state)]?;
    match Side::from_preorder(items) {
        Ok(side) => Ok(side),
        Err(_) => unreachable!(),
    }
}

// The chain rules of the fresh start to some positions.
fn chain_rules(alloc: Global, finals: &[(u32, Cost)]) -> Result<Vec<Rule<u32>>, AllocError>
    requires { Each (λ final. final.0 < 2 ^ 32 - 1) finals.now }
    ensures { IfOk result (λ rules. rules.items ≡ map chain_to finals.now) }
{
    let mut rules = Vec::with_capacity(alloc, finals.len())?;
    for i in 0..finals.len() {
        let (position, cost) = finals[i];
        let right = lone(alloc, position + 1)?;
        rules.push(Rule {
            left: 0,
            right,
            cost,
        })?;
    }
    Ok(rules)
}

// For each number below one the number after it.
fn next_numbers(alloc: Global, count: usize) -> Result<Vec<u32>, AllocError>
    requires { count < 2 ^ 32 }
    ensures long { IfOk result (λ numbers. length numbers.items ≡ count) }
    ensures next { IfOk result (λ numbers. (q : ℕ) → q < count → get_or numbers.items q 0 ≡ q + 1) }
{
    let mut numbers = Vec::with_capacity(alloc, count)?;
    for number in 0..count {
        numbers.push(number as u32 + 1)?;
    }
    Ok(numbers)
}

// Some rules over positions, each position being one more; the numbers are those after positions.
fn shifted(mut rules: Vec<Rule<u32>>, numbers: &[u32]) -> Vec<Rule<u32>>
    requires next { (q : ℕ) → q < length numbers.now → get_or numbers.now q 0 ≡ q + 1 }
    requires range { AreInRange (length numbers.now) rules.items }
    requires leaves { SidesEndInHoles rules.items }
    ensures { result.items ≡ map (named_rule suc) rules.items }
{
    rename_rules(&mut rules, numbers);
    rules
}

/// The rules over the positions of an order with a fresh start, which is 0: a chain rule from it to
/// each position whose vector has the start, at the start's residual, and then the rules over
/// positions, each position being one more. Err only if memory is refused. Cost: one look at each
/// entry of the vectors, and one pass over the rules.
pub fn started_rules(
    alloc: Global,
    order: &[Vector],
    rules: Vec<Rule<u32>>,
) -> Result<Vec<Rule<u32>>, AllocError>
    requires few { length order.now < 2 ^ 32 - 1 }
    requires range { AreInRange (length order.now) rules.items }
    requires leaves { SidesEndInHoles rules.items }
    ensures { IfOk result (λ all. all.items ≡ started order.now rules.items) }
{
    let finals = final_positions(alloc, order)?;
    let mut all = chain_rules(alloc, &finals)?;
    let numbers = next_numbers(alloc, order.len())?;
    let mut behind = shifted(rules, &numbers);
    all.append(&mut behind)?;
    Ok(all)
}
