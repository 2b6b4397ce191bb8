//! A state of the first grammar with a set of states of the second, the keys of the operation.

ghost use Rattle.std.specs.Prelude.{◌≡◌, ℕ, ◌+◌, ◌*◌, ◌%◌, ◌<◌, Some, refl};
ghost use Rattle.std.specs.Cmp.{partial_equiv_from_equiv};
ghost use Rattle.tib_difference.specs.Difference.{key_cmp};
ghost use Rattle.tib_lex.specs.Lists.{Ascends};
ghost use Rattle.tib_difference.specs.Lefts.{holds};
ghost use Rattle.tib_difference.specs.Keys.{keys_po, keys_tie, keys_total, same_equiv, same_key};

use smallvec::SmallVec;
use std::cmp::Ordering;
use std::hash::{Hash, Hasher};
use std::marker::Model;
use tib_expand::TableKey;

/// A state of the first grammar and states of the second, ascending. A key with up to four states
/// of the second takes no memory of its own.
#[derive(Drop)]
pub struct SubsetKey {
    state: u32,
    subset: SmallVec<u32, 4>,
}

impl Model for SubsetKey {
    ghost use Rattle.std.specs.Prelude.{ℕ, List};

    ghost Value = { ℕ × List ℕ };

    ghost view = { λ k. (k.state, k.subset.items) };
}

// Whether a state is among some states.
fn is_among(states: &[u32], state: u32) -> bool
    ensures { result ≡ holds states.now state }
{
    for other in states {
        if *other == state {
            return true;
        }
    }
    false
}

// Whether a state is among some states that ascend. A search by halves pays where they are many.
fn is_among_ascending(states: &[u32], state: u32) -> bool
    requires { Ascends ◌<◌ states.now }
    ensures { result ≡ holds states.now state }
{
    if states.len() <= 16 {
        return is_among(states, state);
    }
    states.binary_search(&state).is_ok()
}

impl SubsetKey {
    /// The key of these states.
    pub fn new(state: u32, subset: SmallVec<u32, 4>) -> SubsetKey
        ensures { result ≡ (state, subset.items) }
    {
        SubsetKey { state, subset }
    }

    /// The state of the first grammar. It takes no memory.
    pub fn state(&self) -> u32
        ensures { result ≡ self.now.0 }
    {
        self.state
    }

    /// The states of the second grammar. It takes no memory.
    pub fn subset(&self) -> &[u32]
        ensures { result.now ≡ self.now.1 }
    {
        self.subset.as_slice()
    }

    /// Whether a state of the second grammar is in the set. Worst case: one look at each member.
    pub(crate) fn has(&self, state: u32) -> bool
        ensures { result ≡ holds self.now.1 state }
    {
        is_among(self.subset.as_slice(), state)
    }

    /// Whether a state of the second grammar is in the set, where this ascends. Worst case: as many
    /// looks as the number of members has binary digits, and of up to 16 members one look at each.
    pub(crate) fn has_ascending(&self, state: u32) -> bool
        requires { Ascends ◌<◌ self.now.1 }
        ensures { result ≡ holds self.now.1 state }
    {
        is_among_ascending(self.subset.as_slice(), state)
    }
}

impl PartialEq for SubsetKey {
    ghost eq = { same_key };

    ghost laws = { partial_equiv_from_equiv same_equiv };

    fn eq(&self, other: &SubsetKey) -> bool {
        self.state == other.state && self.subset == other.subset
    }
}

impl Eq for SubsetKey {
    ghost laws = { same_equiv };
}

impl PartialOrd for SubsetKey {
    ghost partial_cmp = { λ k l. Some (key_cmp k l) };

    ghost laws = { keys_po };

    fn partial_cmp(&self, other: &SubsetKey) -> Option<Ordering> {
        Some(self.cmp(other))
    }
}

impl Ord for SubsetKey {
    ghost cmp = { λ k l. key_cmp k l };

    ghost total = { keys_total };

    ghost matches_partial_cmp = { λ k l. refl };

    ghost matches_eq = { keys_tie };

    fn cmp(&self, other: &SubsetKey) -> Ordering {
        match self.state.cmp(&other.state) {
            Ordering::Less => Ordering::Less,
            Ordering::Equal => self.subset.cmp(&other.subset),
            Ordering::Greater => Ordering::Greater,
        }
    }
}

impl Hash for SubsetKey {
    ghost use Rattle.std.specs.Prelude.{◌++◌, ℕ, List};
    ghost use Rattle.std.proofs.Common.{ap};
    ghost use Rattle.std.specs.Hash as fed;
    ghost use Rattle.tib_difference.specs.Keys.{is_same};

    ghost hash_input = { λ k. fed.u32 k.0 ++ fed.slice fed.u32 k.1 };

    ghost respects_eq = { λ k l e. ap (λ (x : ℕ × List ℕ). fed.u32 x.0 ++ fed.slice fed.u32 x.1)
        (is_same k l e) };

    fn hash<H: Hasher>(&self, state: &mut H) {
        self.state.hash(state);
        self.subset.hash(state);
    }
}

impl TableKey for SubsetKey {
    ghost use Rattle.tib_difference.specs.Difference.{key_entries};
    ghost use Rattle.tib_difference.specs.Keys.{is_same, key_shelf, shelf_low};

    ghost shelf_of = { λ k. key_shelf k };

    ghost entries_of = { λ k. key_entries k };

    fn shelf(&self) -> u32 {
        let count = self.subset.len();
        if count == 0 {
            return self.state % 16;
        }
        let subset = self.subset.as_slice();
        let first = subset[0] % 16;
        let last = subset[count - 1] % 16;
        (self.state % 16 + 3 * ((count % 16) as u32) + 5 * first + 7 * last) % 16
    }

    fn entries(&self) -> u64 {
        1 + self.subset.as_slice().len() as u64
    }

    ghost low = { shelf_low };

    ghost same = { is_same };
}
