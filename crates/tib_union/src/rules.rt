// The rules of a sum.
ghost use Rattle.std.specs.Prelude.{◌≡◌, ℕ, ◌+◌, ◌<◌, ◌^◌, length, OnOk, IfOk};
ghost use Rattle.tib_grammar.specs.Range.{AreInRange, SidesEndInHoles};
ghost use Rattle.tib_grammar.specs.Renaming.{number_in};
ghost use Rattle.tib_grammar.specs.Sides.{Lone};
ghost use Rattle.tib_union.specs.Sum.{chain_to, raised, sum_rules};

use std::alloc::{AllocError, Global};
use tib_cost::Semiring;
use tib_grammar::{Item, Rule, Side, rename_rules};

// A lone state.
fn lone(alloc: Global, state: u32) -> Result<Side<u32>, AllocError>
    ensures { IfOk result (λ side. side ≡ Lone state) }
{
    let items = vec![in alloc; Item::Hole(state)]?;
    match Side::from_preorder(items) {
        Ok(side) => Ok(side),
        Err(_) => unreachable!(),
    }
}

// The chain rule from a fresh start to a state.
fn chain_rule<S: Semiring>(alloc: Global, state: u32) -> Result<Rule<u32>, AllocError>
    ensures { IfOk result (λ rule. rule ≡ chain_to state) }
{
    let right = lone(alloc, state)?;
    Ok(Rule {
        left: 0,
        right,
        cost: S::one(),
    })
}

// This many numbers, from a first one on.
fn numbers_from(alloc: Global, first: u32, count: u32) -> Result<Vec<u32>, AllocError>
    requires { first + count < 2 ^ 32 }
    ensures long { IfOk result (λ v. length v.items ≡ count) }
    ensures each { IfOk result (λ v. (q : ℕ) → q < count → number_in v.items q ≡ first + q) }
{
    let mut numbers = Vec::with_capacity(alloc, count as usize)?;
    for state in 0..count {
        numbers.push(first + state)?;
    }
    Ok(numbers)
}

// Raises the states of some rules, which are below a number, in place.
fn raise(alloc: Global, rules: &mut [Rule<u32>], by: u32, states: u32) -> Result<(), AllocError>
    requires fits { by + states < 2 ^ 32 }
    requires range { AreInRange states rules.old }
    requires leaves { SidesEndInHoles rules.old }
    ensures { OnOk result (rules.new ≡ raised by rules.old) }
{
    let numbers = numbers_from(alloc, by, states)?;
    rename_rules(rules, &numbers);
    Ok(())
}

/// The rules of the sum of two grammars with these rules and these numbers of states. Err only if
/// memory is refused.
pub(crate) fn rules_of_sum<S: Semiring>(
    alloc: Global,
    mut one: Vec<Rule<u32>>,
    mut two: Vec<Rule<u32>>,
    first: u32,
    second: u32,
) -> Result<Vec<Rule<u32>>, AllocError>
    requires fits { 1 + first + second < 2 ^ 32 }
    requires range_one { AreInRange first one.items }
    requires leaves_one { SidesEndInHoles one.items }
    requires range_two { AreInRange second two.items }
    requires leaves_two { SidesEndInHoles two.items }
    ensures { IfOk result (λ v. v.items ≡ sum_rules first one.items two.items) }
{
    raise(alloc, &mut one, 1, first)?;
    raise(alloc, &mut two, 1 + first, second)?;
    let mut all = Vec::with_capacity(alloc, 2)?;
    all.push(chain_rule::<S>(alloc, 1)?)?;
    all.push(chain_rule::<S>(alloc, 1 + first)?)?;
    all.append(&mut one)?;
    all.append(&mut two)?;
    Ok(all)
}
