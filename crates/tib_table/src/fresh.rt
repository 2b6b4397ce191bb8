//! The fresh keys of a round: the keys of its shelves that the order lacks. They are then appended
//! to the order, ascending.

ghost use Rattle.std.specs.Prelude.{◌≡◌, ℕ, ◌+◌, ◌-◌, ◌≤◌, ◌<◌, ◌^◌, ◌++◌, [], ◌∷◌, Some, min, length, map, slice_get, IfOk, IfErr, IfSome, IfNone, OnOk};
ghost use Rattle.indexmap.specs.IndexSet.{insert_key, insert_all};
ghost use Rattle.tib_lex.specs.Lists.{Has, Distinct, Along, total};
ghost use Rattle.tib_lex.specs.Limits.{most_parts};
ghost use Rattle.tib_expand.specs.Limits.{IfTooMany};
ghost use Rattle.tib_table.specs.Numbered.{Name, HaveMore, KeyExceeds, AddsParts, placed, keys_of, IsInOrder};
ghost use Rattle.tib_expand.specs.Keys.{key_parts};
ghost use Rattle.tib_table.specs.Numbered.{all_on};
ghost use Rattle.tib_table.specs.Lookups.{IsNeedless};

use crate::halves::sort_by_halves;
use crate::numbering::put_new;
use indexmap::IndexSet;
use std::alloc::{AllocError, Global};
use std::thread::Threads;
use tib_expand::{HuntError, TableKey};

/// Whether keys that come to an order are looked up in it.
#[derive(Clone, Copy, Debug, Drop, PartialEq, Eq)]
pub enum Lookup {
    /// The order has none of them, so none is looked up.
    Needless,
    /// The order may have some of them.
    Needed,
}

/// How many keys the shelves have, or the greatest `usize` if there are more. Linear in the number
/// of shelves.
pub fn count_keys<K>(shelves: &[Vec<K>]) -> usize
    ensures { result ≡ min (length (all_on (map (λ v. v.items) shelves.now))) (2 ^ 64 - 1) }
{
    let mut count = 0usize;
    for shelf in shelves {
        count = count.saturating_add(shelf.len());
    }
    count
}

/// The position of a key, or None if the order lacks it. Cost: one look-up by hash.
pub fn find_position<K: TableKey + Drop>(keys: &IndexSet<K>, key: &K) -> Option<usize>
    ensures some { IfSome result (λ n. slice_get keys.now.keys n ≡ Some key.now) }
    ensures none { IfNone result (Has keys.now.keys key.now → ⊥) }
{
    keys.get_index_of(key)
}

// The position of a key, or None if the order lacks it.
fn look_up<K: TableKey + Drop>(lookup: Lookup, keys: &IndexSet<K>, key: &K) -> Option<usize>
    requires { IsNeedless lookup → Has keys.now.keys key.now → ⊥ }
    ensures some { IfSome result (λ n. slice_get keys.now.keys n ≡ Some key.now) }
    ensures none { IfNone result (Has keys.now.keys key.now → ⊥) }
{
    match lookup {
        Lookup::Needless => None,
        Lookup::Needed => find_position(keys, key),
    }
}

// Appends a key to the fresh ones and adds its parts; `TooMany` if they pass the limit.
fn push_fresh<K: TableKey + Drop>(
    fresh: &mut Vec<(K, u32)>,
    parts: &mut u64,
    limit: u64,
    key: K,
) -> Result<(), HuntError>
    requires within { parts.old ≤ limit }
    requires limit { limit ≤ most_parts }
    requires few { length fresh.old.items < 2 ^ 32 }
    requires placed { fresh.old.items ≡ placed 0 (keys_of fresh.old.items) }
    ensures keys { OnOk result (keys_of fresh.new.items ≡ keys_of fresh.old.items ++ key ∷ []) }
    ensures placed { OnOk result (fresh.new.items ≡ placed 0 (keys_of fresh.new.items)) }
    ensures parts { OnOk result (parts.new ≡ parts.old + key_parts K.entries_of key) }
    ensures within { OnOk result (parts.new ≤ limit) }
    ensures more { IfErr result (IfTooMany limit (limit < parts.old + key_parts K.entries_of key)) }
{
    let size = key.entries();
    if size >= limit - *parts {
        return Err(HuntError::TooMany { limit });
    }
    *parts += size + 1;
    let place = fresh.len() as u32;
    let Ok(()) = fresh.push((key, place)) else {
        return Err(HuntError::OutOfMemory);
    };
    Ok(())
}

// The number of a key that is not among the fresh ones, which are counted on from the order. A key
// that the order lacks is appended to the fresh ones, and its parts are added; `TooMany` if they
// pass the limit.
fn find_key<K: TableKey + Drop>(
    lookup: Lookup,
    keys: &IndexSet<K>,
    fresh: &mut Vec<(K, u32)>,
    parts: &mut u64,
    limit: u64,
    key: K,
) -> Result<u32, HuntError>
    requires lacked { IsNeedless lookup → Has keys.now.keys key → ⊥ }
    requires apart { Has (keys_of fresh.old.items) key → ⊥ }
    requires placed { fresh.old.items ≡ placed 0 (keys_of fresh.old.items) }
    requires counted { total (key_parts K.entries_of) (keys.now.keys ++ keys_of fresh.old.items)
        ≤ parts.old }
    requires within { parts.old ≤ limit }
    requires limit { limit ≤ most_parts }
    ensures keys { OnOk result (keys.now.keys ++ keys_of fresh.new.items
        ≡ insert_key K.eq (keys.now.keys ++ keys_of fresh.old.items) key) }
    ensures placed { OnOk result (fresh.new.items ≡ placed 0 (keys_of fresh.new.items)) }
    ensures named { IfOk result (λ n. slice_get (keys.now.keys ++ keys_of fresh.new.items) n
        ≡ Some key) }
    ensures parts { OnOk result (AddsParts (key_parts K.entries_of)
        (keys.now.keys ++ keys_of fresh.old.items) (keys.now.keys ++ keys_of fresh.new.items)
        parts.old parts.new) }
    ensures within { OnOk result (parts.new ≤ limit) }
    ensures more { IfErr result (IfTooMany limit (KeyExceeds K.eq (key_parts K.entries_of)
        (keys.now.keys ++ keys_of fresh.old.items) key parts.old limit)) }
{
    if let Some(position) = look_up(lookup, keys, &key) {
        return Ok(position as u32);
    }
    let number = (keys.len() + fresh.len()) as u32;
    match push_fresh(fresh, parts, limit, key) {
        Ok(()) => Ok(number),
        Err(error) => Err(error),
    }
}

// The numbers of keys that are not among the fresh ones, which are counted on from the order. Keys
// that the order lacks are appended to the fresh ones, and their parts are added; `TooMany` if they
// pass the limit.
fn find_ends<K: TableKey + Drop>(
    alloc: Global,
    lookup: Lookup,
    keys: &IndexSet<K>,
    fresh: &mut Vec<(K, u32)>,
    parts: &mut u64,
    limit: u64,
    ends: Vec<K>,
) -> Result<Vec<u32>, HuntError>
    requires lacked { IsNeedless lookup → (k : K) → Has ends.items k → Has keys.now.keys k → ⊥ }
    requires once { Distinct ends.items }
    requires apart { (k : K) → Has ends.items k → Has (keys_of fresh.old.items) k → ⊥ }
    requires placed { fresh.old.items ≡ placed 0 (keys_of fresh.old.items) }
    requires counted { total (key_parts K.entries_of) (keys.now.keys ++ keys_of fresh.old.items)
        ≤ parts.old }
    requires within { parts.old ≤ limit }
    requires limit { limit ≤ most_parts }
    ensures keys { OnOk result (keys.now.keys ++ keys_of fresh.new.items
        ≡ insert_all K.eq (keys.now.keys ++ keys_of fresh.old.items) ends.items) }
    ensures placed { OnOk result (fresh.new.items ≡ placed 0 (keys_of fresh.new.items)) }
    ensures named { IfOk result (λ r. Name (keys.now.keys ++ keys_of fresh.new.items) ends.items
        r.items) }
    ensures parts { OnOk result (AddsParts (key_parts K.entries_of)
        (keys.now.keys ++ keys_of fresh.old.items) (keys.now.keys ++ keys_of fresh.new.items)
        parts.old parts.new) }
    ensures within { OnOk result (parts.new ≤ limit) }
    ensures more { IfErr result (IfTooMany limit (HaveMore K.eq (key_parts K.entries_of)
        (keys.now.keys ++ keys_of fresh.old.items) ends.items parts.old limit)) }
{
    let Ok(mut numbers) = Vec::with_capacity(alloc, ends.len()) else {
        return Err(HuntError::OutOfMemory);
    };
    for key in ends {
        let number = match find_key(lookup, keys, fresh, parts, limit, key) {
            Ok(number) => number,
            Err(error) => return Err(error),
        };
        let Ok(()) = numbers.push(number) else {
            return Err(HuntError::OutOfMemory);
        };
    }
    Ok(numbers)
}

/// The numbers of the keys of the shelves, where the fresh keys are counted on from the order.
/// Fills `fresh` with the keys that the order lacks, each with its index among them, and adds their
/// parts. A look-up is needless only if the order has none of the keys. `TooMany` if the parts pass
/// the limit, at most 20,000,000; `OutOfMemory` if memory is refused. After an error `fresh` and
/// `parts` hold part of the keys. Cost: at most one look-up by hash for each key.
pub fn find_shelves<K: TableKey + Drop>(
    alloc: Global,
    lookup: Lookup,
    keys: &IndexSet<K>,
    fresh: &mut Vec<(K, u32)>,
    parts: &mut u64,
    limit: u64,
    shelves: Vec<Vec<K>>,
) -> Result<Vec<Vec<u32>>, HuntError>
    requires lacked { IsNeedless lookup → (k : K)
        → Has (all_on (map (λ v. v.items) shelves.items)) k → Has keys.now.keys k → ⊥ }
    requires none { fresh.old.items ≡ [] }
    requires once { Distinct (all_on (map (λ v. v.items) shelves.items)) }
    requires counted { total (key_parts K.entries_of) keys.now.keys ≤ parts.old }
    requires within { parts.old ≤ limit }
    requires limit { limit ≤ most_parts }
    ensures keys { OnOk result (keys.now.keys ++ keys_of fresh.new.items
        ≡ insert_all K.eq keys.now.keys (all_on (map (λ v. v.items) shelves.items))) }
    ensures placed { OnOk result (fresh.new.items ≡ placed 0 (keys_of fresh.new.items)) }
    ensures named { IfOk result (λ r. Along (Name (keys.now.keys ++ keys_of fresh.new.items))
        (map (λ v. v.items) shelves.items) (map (λ v. v.items) r.items)) }
    ensures parts { OnOk result (AddsParts (key_parts K.entries_of) keys.now.keys
        (keys.now.keys ++ keys_of fresh.new.items) parts.old parts.new) }
    ensures within { OnOk result (parts.new ≤ limit) }
    ensures more { IfErr result (IfTooMany limit (HaveMore K.eq (key_parts K.entries_of)
        keys.now.keys (all_on (map (λ v. v.items) shelves.items)) parts.old limit)) }
{
    let Ok(mut positions) = Vec::with_capacity(alloc, shelves.len()) else {
        return Err(HuntError::OutOfMemory);
    };
    for shelf in shelves {
        let numbers = match find_ends(alloc, lookup, keys, fresh, parts, limit, shelf) {
            Ok(numbers) => numbers,
            Err(error) => return Err(error),
        };
        let Ok(()) = positions.push(numbers) else {
            return Err(HuntError::OutOfMemory);
        };
    }
    Ok(positions)
}

/// Appends the fresh keys, each with its index among them, in ascending order. Returns the position
/// of each. Err if memory is refused; the fresh keys that were not appended are then gone. Cost:
/// one sort, and one look-up by hash for each key.
pub fn put_fresh<K: TableKey + Drop>(
    alloc: Global,
    keys: &mut IndexSet<K>,
    fresh: Vec<(K, u32)>,
) -> Result<Vec<u32>, AllocError>
    requires placed { fresh.items ≡ placed 0 (keys_of fresh.items) }
    requires few { length (keys.old.keys ++ keys_of fresh.items) < 2 ^ 32 }
    requires distinct { Distinct (keys.old.keys ++ keys_of fresh.items) }
    ensures { IfOk result (λ r. IsInOrder K.cmp keys.old.keys (keys_of fresh.items) keys.new.keys
        r.items) }
{
    let mut fresh = fresh;
    fresh.sort()?;
    put_new(alloc, keys, fresh)
}

/// The same as `put_fresh`, with the same errors, but the fresh keys are halved `times` times, and
/// each half is sorted in a thread of its own.
pub fn put_fresh_together<R: Threads + Sync, K: TableKey + Drop + Send>(
    rt: &R,
    alloc: Global,
    times: u32,
    keys: &mut IndexSet<K>,
    fresh: Vec<(K, u32)>,
) -> Result<Vec<u32>, AllocError>
    requires placed { fresh.items ≡ placed 0 (keys_of fresh.items) }
    requires few { length (keys.old.keys ++ keys_of fresh.items) < 2 ^ 32 }
    requires distinct { Distinct (keys.old.keys ++ keys_of fresh.items) }
    ensures { IfOk result (λ r. IsInOrder K.cmp keys.old.keys (keys_of fresh.items) keys.new.keys
        r.items) }
{
    let mut fresh = fresh;
    sort_by_halves(rt, alloc, times, &mut fresh)?;
    put_new(alloc, keys, fresh)
}
