// How often variables occur on a right side.
ghost use Rattle.std.specs.Prelude.{◌≡◌, ◌+◌, ◌<◌, ◌≤◌, ◌↔◌, ℕ, IsTrue, EachIndex, slice_index, length};
ghost use Rattle.tib_transducer.specs.Counting.{numbers_in};
ghost use Rattle.tib_lex.specs.Lists.{occurrences};

use crate::Pair;
use tib_grammar::Item;

/// How often each of the 64 variables from `first` on occurs among some items. It takes one pass
/// over the items.
pub fn count_uses(items: &[Item<Pair<u32>>], first: usize) -> [usize; 64]
    ensures long { length result ≡ 64 }
    ensures counted { (k : ℕ) → k < 64 → slice_index result k
        ≡ occurrences (first + k) (numbers_in items.now) }
{
    let mut uses: [usize; 64] = [0; 64];
    for item in items {
        if let Item::Hole(pair) = item {
            let variable = pair.variable as usize;
            if variable >= first {
                let place = variable - first;
                if place < 64 {
                    uses[place] += 1;
                }
            }
        }
    }
    uses
}

/// Whether no count is above one.
pub fn are_at_most_one(uses: &[usize]) -> bool
    ensures { IsTrue result ↔ EachIndex uses.now (λ k. slice_index uses.now k ≤ 1) }
{
    uses.iter().all(|count| *count <= 1)
}

/// Whether no count is zero.
pub fn are_above_zero(uses: &[usize]) -> bool
    ensures { IsTrue result ↔ EachIndex uses.now (λ k. 1 ≤ slice_index uses.now k) }
{
    uses.iter().all(|count| *count >= 1)
}
