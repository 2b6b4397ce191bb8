//! Keys numbered in the order of first sight, and then put in ascending order.

ghost use Rattle.std.specs.Prelude.{◌≡◌, ℕ, ◌+◌, ◌≤◌, ◌<◌, ◌^◌, ◌++◌, Some, length, map, reverse, drop, take, slice_get, IfOk, IfErr, OnOk};
ghost use Rattle.indexmap.specs.IndexSet.{insert_key, insert_all};
ghost use Rattle.tib_lex.specs.Lists.{Has, Each, Distinct, total};
ghost use Rattle.tib_lex.specs.Limits.{most_parts};
ghost use Rattle.tib_expand.specs.Limits.{IfTooMany};
ghost use Rattle.tib_table.specs.Numbered.{Name, HaveMore, KeyExceeds, AddsParts, placed, keys_of, Moved, IsInOrder};
ghost use Rattle.tib_expand.specs.Keys.{key_parts};

use indexmap::IndexSet;
use std::alloc::{AllocError, Global};
use tib_expand::{HuntError, TableKey};

// The number of a key among the keys. Appends a new key and adds its parts; `TooMany` if they pass
// the limit.
fn number_key<K: TableKey + Drop>(
    keys: &mut IndexSet<K>,
    parts: &mut u64,
    limit: u64,
    key: K,
) -> Result<u32, HuntError>
    requires counted { total (key_parts K.entries_of) keys.old.keys ≤ parts.old }
    requires within { parts.old ≤ limit }
    requires limit { limit ≤ most_parts }
    ensures keys { OnOk result (keys.new.keys ≡ insert_key K.eq keys.old.keys key) }
    ensures named { IfOk result (λ n. slice_get keys.new.keys n ≡ Some key) }
    ensures parts { OnOk result (AddsParts (key_parts K.entries_of) keys.old.keys keys.new.keys
        parts.old parts.new) }
    ensures within { OnOk result (parts.new ≤ limit) }
    ensures more { IfErr result (IfTooMany limit (KeyExceeds K.eq (key_parts K.entries_of)
        keys.old.keys key parts.old limit)) }
{
    let size = key.entries();
    let Ok((number, added)) = keys.insert_full(key) else {
        return Err(HuntError::OutOfMemory);
    };
    if added {
        if size >= limit - *parts {
            return Err(HuntError::TooMany { limit });
        }
        *parts += size + 1;
    }
    Ok(number as u32)
}

/// The numbers of the ends among the keys. Appends new keys in the order of first sight and adds
/// their parts. `TooMany` if they pass the limit, at most 20,000,000; `OutOfMemory` if memory is
/// refused. After an error the keys found so far stay. Cost: one look-up by hash for each end.
pub fn number_ends<K: TableKey + Drop>(
    alloc: Global,
    keys: &mut IndexSet<K>,
    parts: &mut u64,
    limit: u64,
    ends: Vec<K>,
) -> Result<Vec<u32>, HuntError>
    requires counted { total (key_parts K.entries_of) keys.old.keys ≤ parts.old }
    requires within { parts.old ≤ limit }
    requires limit { limit ≤ most_parts }
    ensures keys { OnOk result (keys.new.keys ≡ insert_all K.eq keys.old.keys ends.items) }
    ensures named { IfOk result (λ r. Name keys.new.keys ends.items r.items) }
    ensures parts { OnOk result (AddsParts (key_parts K.entries_of) keys.old.keys keys.new.keys
        parts.old parts.new) }
    ensures within { OnOk result (parts.new ≤ limit) }
    ensures more { IfErr result (IfTooMany limit (HaveMore K.eq (key_parts K.entries_of)
        keys.old.keys ends.items parts.old limit)) }
{
    let Ok(mut numbers) = Vec::with_capacity(alloc, ends.len()) else {
        return Err(HuntError::OutOfMemory);
    };
    for key in ends {
        let number = match number_key(keys, parts, limit, key) {
            Ok(number) => number,
            Err(error) => return Err(error),
        };
        let Ok(()) = numbers.push(number) else {
            return Err(HuntError::OutOfMemory);
        };
    }
    Ok(numbers)
}

// Takes out the keys from `first` on, each with its index among them, the last one first.
fn take_new<K: TableKey + Drop>(
    alloc: Global,
    keys: &mut IndexSet<K>,
    first: usize,
) -> Result<Vec<(K, u32)>, AllocError>
    requires first { first ≤ length keys.old.keys }
    requires few { length keys.old.keys < 2 ^ 32 }
    ensures taken { IfOk result (λ r. r.items ≡ reverse (placed 0 (drop first keys.old.keys))) }
    ensures front { OnOk result (keys.new.keys ≡ take first keys.old.keys) }
{
    let mut new = Vec::with_capacity(alloc, keys.len() - first)?;
    while keys.len() > first {
        let Some(key) = keys.pop() else {
            return Ok(new);
        };
        new.push((key, (keys.len() - first) as u32))?;
    }
    Ok(new)
}

/// Appends the keys. Returns the new position for each index. Err if memory is refused; the keys
/// that were not appended are then gone. Cost: one look-up by hash for each key.
pub fn put_new<K: TableKey + Drop>(
    alloc: Global,
    keys: &mut IndexSet<K>,
    new: Vec<(K, u32)>,
) -> Result<Vec<u32>, AllocError>
    requires places { Each (λ p. p.1 < length new.items) new.items }
    requires one { (k j : K) (n : ℕ) → Has new.items (k, n) → Has new.items (j, n) → k ≡ j }
    requires distinct { Distinct (keys.old.keys ++ keys_of new.items) }
    requires few { length keys.old.keys + length new.items < 2 ^ 32 }
    ensures keys { OnOk result (keys.new.keys ≡ keys.old.keys ++ keys_of new.items) }
    ensures moved { IfOk result (λ r. Moved keys.new.keys new.items r.items
        × (length r.items ≡ length new.items)) }
{
    let mut moved = vec![in alloc; 0u32; new.len()]?;
    keys.reserve(new.len())?;
    for (key, place) in new {
        moved[place as usize] = keys.len() as u32;
        let Ok(_) = keys.insert(key) else {
            return Err(AllocError);
        };
    }
    Ok(moved)
}

/// Puts the keys from `first` on in ascending order. Returns the new position of each. Err if
/// memory is refused; keys from `first` on may then be gone. Cost: one sort, and one look-up by
/// hash for each of these keys.
pub fn sort_new<K: TableKey + Drop>(
    alloc: Global,
    keys: &mut IndexSet<K>,
    first: usize,
) -> Result<Vec<u32>, AllocError>
    requires first { first ≤ length keys.old.keys }
    requires few { length keys.old.keys < 2 ^ 32 }
    requires distinct { Distinct keys.old.keys }
    ensures { IfOk result (λ r. IsInOrder K.cmp (take first keys.old.keys)
        (drop first keys.old.keys) keys.new.keys r.items) }
{
    let mut new = take_new(alloc, keys, first)?;
    new.sort()?;
    put_new(alloc, keys, new)
}
