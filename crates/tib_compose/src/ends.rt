//! Where the trees of a preorder end.

ghost use Rattle.std.specs.Prelude.{◌≡◌, ℕ, ◌<◌, ◌^◌, List, length, IfOk};
ghost use Rattle.tib_grammar.specs.Items.{pair_of, pairs_of};
ghost use Rattle.tib_grammar.specs.Sides.{Symbol};
ghost use Rattle.tib_transducer.specs.declared.Pair.{Pair as PairOf};
ghost use Rattle.tib_compose.specs.Ends.{AreEnds, IsSkipped};

use std::alloc::{AllocError, Global};
use tib_grammar::Item;
use tib_transducer::Pair;

/// The number of children of an item.
fn rank_of(item: &Item<Pair<u32>>) -> u32
    ensures { result ≡ (pair_of item.now).1 }
{
    match item {
        Item::Label { rank, .. } => *rank,
        Item::Hole(_) => 0,
    }
}

/// The item after this many trees that begin at an item, where the ends from there on are known.
/// Cost: one step for each tree.
pub(crate) fn skip(ends: &[u32], from: u32, many: u32) -> u32
    ensures { (pairs : List (Symbol ℕ (PairOf ℕ) × ℕ)) → length pairs ≡ length ends.now →
        AreEnds pairs ends.now from →
        IsSkipped pairs from many result }
{
    let mut at = from;
    for _ in 0..many {
        if (at as usize) < ends.len() {
            at = ends[at as usize];
        }
    }
    at
}

/// For each item the one after its tree. Err only if memory is refused. Cost: one pass over the
/// items.
pub(crate) fn ends_of(alloc: Global, items: &[Item<Pair<u32>>]) -> Result<Vec<u32>, AllocError>
    requires few { length items.now < 2 ^ 32 }
    ensures long { IfOk result (λ ends. length ends.items ≡ length items.now) }
    ensures ends { IfOk result (λ ends. AreEnds (pairs_of items.now) ends.items 0) }
{
    let mut ends = vec![in alloc; 0u32; items.len()]?;
    let mut i = items.len();
    while i > 0 {
        i -= 1;
        let end = skip(&ends, i as u32 + 1, rank_of(&items[i]));
        ends[i] = end;
    }
    Ok(ends)
}
