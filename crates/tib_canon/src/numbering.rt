// The keys of an order as states.
ghost use Rattle.std.specs.Prelude.{◌≡◌, ℕ, ◌+◌, ◌-◌, ◌<◌, ◌^◌, ◌∷◌, length, map, IfOk};
ghost use Rattle.std.proofs.Common.{get_or};
ghost use Rattle.std.specs.Option.{option_cmp};
ghost use Rattle.tib_lex.specs.Lists.{Each, Distinct};
ghost use Rattle.tib_inside.specs.Renaming.{AreNumbersOf};
ghost use Rattle.tib_canon.specs.Keys.{marked, behind_fresh, AreByKeys};
ghost use Rattle.tib_grammar.specs.Range.{AreBelow};

use std::alloc::{AllocError, Global};
use tib_expand::TableKey;

// Each key with its position, and whether it is not the start.
fn marked_keys<K: TableKey + Drop>(
    alloc: Global,
    order: Vec<K>,
    start: u32,
) -> Result<Vec<(bool, K, u32)>, AllocError>
    requires { length order.items < 2 ^ 32 }
    ensures { IfOk result (λ v. v.items ≡ marked start 0 order.items) }
{
    let mut keys = Vec::with_capacity(alloc, order.len())?;
    for key in order {
        let position = keys.len() as u32;
        keys.push((position != start, key, position))?;
    }
    Ok(keys)
}

// The positions of some keys.
fn positions_of<K: TableKey>(alloc: Global, keys: &[(bool, K, u32)]) -> Result<Vec<u32>, AllocError>
    ensures { IfOk result (λ v. v.items ≡ map (λ k. k.2) keys.now) }
{
    let mut positions = Vec::with_capacity(alloc, keys.len())?;
    for key in keys {
        positions.push(key.2)?;
    }
    Ok(positions)
}

/// The positions of an order of keys: first the start, and then the others in ascending order of
/// their keys. Err only if memory is refused; the keys are then gone. Cost: the keys are sorted
/// once.
pub fn states_by_keys<K: TableKey + Drop>(
    alloc: Global,
    order: Vec<K>,
    start: u32,
) -> Result<Vec<u32>, AllocError>
    requires few { length order.items < 2 ^ 32 }
    requires distinct { Distinct order.items }
    requires start { start < length order.items }
    ensures { IfOk result (λ v. AreByKeys K.cmp order.items start v.items) }
{
    let mut keys = marked_keys(alloc, order, start)?;
    keys.sort()?;
    positions_of(alloc, &keys)
}

// 0, and then one more than the position of each key.
fn behind_fresh_start<K: TableKey>(
    alloc: Global,
    keys: &[(bool, K, u32)],
) -> Result<Vec<u32>, AllocError>
    requires few { length keys.now < 2 ^ 32 }
    requires below { Each (λ k. k.2 < 2 ^ 32 - 1) keys.now }
    ensures { IfOk result (λ v. v.items ≡ 0 ∷ map (λ k. k.2 + 1) keys.now) }
{
    let mut states = Vec::with_capacity(alloc, keys.len() + 1)?;
    states.push(0)?;
    for key in keys {
        states.push(key.2 + 1)?;
    }
    Ok(states)
}

/// The states of an order after a fresh start: first 0, and then one more than each position, in
/// ascending order of their keys. Err only if memory is refused.
pub(crate) fn states_behind_fresh<K: TableKey + Drop>(
    alloc: Global,
    order: Vec<K>,
) -> Result<Vec<u32>, AllocError>
    requires few { length order.items < 2 ^ 32 - 1 }
    requires distinct { Distinct order.items }
    ensures { IfOk result (λ v. AreByKeys (option_cmp K.cmp) (behind_fresh order.items) 0 v.items) }
{
    let past = order.len() as u32;
    let mut keys = marked_keys(alloc, order, past)?;
    keys.sort()?;
    behind_fresh_start(alloc, &keys)
}

/// For each position, its place among the states. Err only if memory is refused. Cost: one pass.
pub fn numbers_of(alloc: Global, states: &[u32]) -> Result<Vec<u32>, AllocError>
    requires few { length states.now < 2 ^ 32 }
    requires below { AreBelow (length states.now) states.now }
    requires apart { (i j : ℕ) → i < j → j < length states.now → get_or states.now i 0
        ≡ get_or states.now j 0 → ⊥ }
    ensures long { IfOk result (λ v. length v.items ≡ length states.now) }
    ensures numbers { IfOk result (λ v. AreNumbersOf states.now v.items) }
{
    let mut numbers = vec![in alloc; 0; states.len()]?;
    for n in 0..states.len() {
        numbers[states[n] as usize] = n as u32;
    }
    Ok(numbers)
}
