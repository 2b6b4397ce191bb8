//! Vectors of states with residuals, the keys of the operation.

ghost use Rattle.std.specs.Prelude.{◌≡◌, ℕ, ◌+◌, ◌*◌, ◌%◌, ◌<◌, ◌≤◌, Some, length, refl};
ghost use Rattle.std.proofs.Common.{get_or};
ghost use Rattle.std.specs.Cmp.{partial_equiv_from_equiv};
ghost use Rattle.std.specs.Hash as fed;
ghost use Rattle.tib_determinize.specs.Determinization.{vector_cmp};
ghost use Rattle.tib_determinize.specs.Keys.{entry_digit, keys_po, keys_tie, keys_total, same_equiv, same_vector};
ghost use Rattle.tib_determinize.specs.Lookup.{residual_in};
ghost use Rattle.tib_determinize.specs.Vectors.{Rises};

use std::cmp::Ordering;
use std::hash::{Hash, Hasher};
use std::marker::Model;
use tib_cost::Cost;
use tib_expand::TableKey;

// How many entries, whose states ascend, are those of states below one.
fn count_below(entries: &[(u32, Cost)], state: u32) -> usize
    requires { Rises entries.now }
    ensures within { result ≤ length entries.now }
    ensures before { (i : ℕ) → i < result → (get_or entries.now i (0, 0)).0 < state }
    ensures behind { (i : ℕ) → result ≤ i → i < length entries.now → state
        ≤ (get_or entries.now i (0, 0)).0 }
{
    let mut low = 0;
    let mut high = entries.len();
    while low < high {
        let middle = low + (high - low) / 2;
        if entries[middle].0 < state {
            low = middle + 1;
        } else {
            high = middle;
        }
    }
    low
}

/// States, ascending, each with its residual.
#[derive(Drop)]
pub struct Vector {
    entries: Vec<(u32, Cost)>,
}

impl Model for Vector {
    ghost use Rattle.std.specs.Prelude.{ℕ, List};

    ghost Value = { List (ℕ × ℕ) };

    ghost view = { λ v. v.entries.items };
}

impl Vector {
    /// The vector of these entries.
    pub fn new(entries: Vec<(u32, Cost)>) -> Vector
        ensures { result ≡ entries.items }
    {
        Vector { entries }
    }

    /// The states with their residuals. It takes no memory.
    pub fn entries(&self) -> &[(u32, Cost)]
        ensures { result.now ≡ self.now }
    {
        &self.entries
    }

    /// The residual of a state. Worst case: one look at each entry.
    pub fn residual(&self, state: u32) -> Option<Cost>
        ensures { result ≡ residual_in state self.now }
    {
        for (other, residual) in &self.entries {
            if *other == state {
                return Some(*residual);
            }
        }
        None
    }

    /// The residual of a state in a vector whose states ascend. Cost: a search by halving.
    pub(crate) fn residual_ascending(&self, state: u32) -> Option<Cost>
        requires { Rises self.now }
        ensures { result ≡ residual_in state self.now }
    {
        let at = count_below(&self.entries, state);
        if at >= self.entries.len() {
            return None;
        }
        let (other, residual) = self.entries[at];
        if other == state { Some(residual) } else { None }
    }
}

impl PartialEq for Vector {
    ghost eq = { same_vector };

    ghost laws = { partial_equiv_from_equiv same_equiv };

    fn eq(&self, other: &Vector) -> bool {
        self.entries == other.entries
    }
}

impl Eq for Vector {
    ghost laws = { same_equiv };
}

impl PartialOrd for Vector {
    ghost partial_cmp = { λ v w. Some (vector_cmp v w) };

    ghost laws = { keys_po };

    fn partial_cmp(&self, other: &Vector) -> Option<Ordering> {
        Some(self.cmp(other))
    }
}

impl Ord for Vector {
    ghost cmp = { vector_cmp };

    ghost total = { keys_total };

    ghost matches_partial_cmp = { λ v w. refl };

    ghost matches_eq = { keys_tie };

    fn cmp(&self, other: &Vector) -> Ordering {
        self.entries.cmp(&other.entries)
    }
}

impl Hash for Vector {
    ghost use Rattle.std.specs.Prelude.{◌++◌, ℕ};
    ghost use Rattle.std.proofs.Common.{ap};
    ghost use Rattle.std.specs.Hash as fed;
    ghost use Rattle.tib_determinize.specs.Keys.{is_same};

    ghost hash_input = { λ v. fed.slice (λ (x : ℕ × ℕ). fed.u32 x.0 ++ fed.u64 x.1) v };

    ghost respects_eq = { λ v w e. ap (fed.slice (λ (x : ℕ × ℕ). fed.u32 x.0 ++ fed.u64 x.1)) (is_same v w e) };

    fn hash<H: Hasher>(&self, state: &mut H) {
        self.entries.hash(state);
    }
}

// What an entry adds to the choice of a shelf.
fn digit(entry: &(u32, Cost)) -> u32
    ensures digit { result ≡ entry_digit entry.now }
    ensures below { result < 64 }
{
    entry.0 % 16 + 3 * (entry.1.get() % 16) as u32
}

impl TableKey for Vector {
    ghost use Rattle.std.specs.Prelude.{length};
    ghost use Rattle.tib_determinize.specs.Keys.{is_same, shelf_low, vector_shelf};

    ghost shelf_of = { vector_shelf };

    ghost entries_of = { λ v. length v };

    fn shelf(&self) -> u32 {
        let count = self.entries.len();
        if count == 0 {
            return 0;
        }
        let first = digit(&self.entries[0]);
        let last = digit(&self.entries[count - 1]);
        ((count % 16) as u32 + 5 * first + 7 * last) % 16
    }

    fn entries(&self) -> u64 {
        self.entries.len() as u64
    }

    ghost low = { shelf_low };

    ghost same = { is_same };
}
