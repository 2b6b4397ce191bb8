// The labels that were seen lately, by the bytes of their texts, so that most labels are found
// without the hash table.
ghost use Rattle.std.specs.Prelude.{◌≡◌, ◌<◌, ℕ, List, [], IfSome, length};
ghost use Rattle.tib_tree.specs.Recent.{IsKey, IsSeen, AreSeen};

use std::alloc::{AllocError, Global};

/// The most bytes of a text that has a key.
const LONGEST: usize = 7;

/// How many places there are.
const PLACES: u64 = 16384;

/// What spreads keys over the places: 2^64 divided by the golden ratio (Knuth 1973, multiplicative
/// hashing).
const SPREAD: u64 = 0x9E37_79B9_7F4A_7C15;

/// A label by the key of its text.
#[derive(Clone, Copy, Debug)]
pub(crate) struct Seen {
    pub key: u64,
    pub label: u32,
}

/// The labels that were seen last at each pair of adjacent places. Before the first label it has no
/// places.
#[derive(Drop)]
pub(crate) struct Recent {
    pub seen: Vec<Seen>,
}

// The key of a text, if it is short.
pub(crate) fn key_of(text: &[u8]) -> Option<u64>
    ensures { IfSome result (IsKey text.now) }
{
    if text.len() > LONGEST {
        return None;
    }
    let mut key: u64 = 1;
    let mut i = text.len();
    while i > 0 {
        i -= 1;
        key = key * 256 + u64::from(text[i]);
    }
    Some(key)
}

// The place of a key.
fn place_of(key: u64) -> usize {
    ((key.wrapping_mul(SPREAD) >> 40) % PLACES) as usize
}

impl Recent {
    pub(crate) fn new(alloc: Global) -> Recent
        ensures { result.seen.items ≡ [] }
    {
        Recent {
            seen: Vec::new(alloc),
        }
    }

    // The label whose text has this key, if it was seen lately.
    pub(crate) fn find(&self, key: u64) -> Option<u32>
        ensures { IfSome result (λ n. (texts : List (List ℕ)) → AreSeen texts self.now →
            IsSeen texts key n) }
    {
        let place = place_of(key);
        match self.label_at(place, key) {
            Some(label) => Some(label),
            None => self.label_at(place ^ 1, key),
        }
    }

    // The label at a place, if its text has this key.
    fn label_at(&self, place: usize, key: u64) -> Option<u32>
        ensures { IfSome result (λ n. (texts : List (List ℕ)) → AreSeen texts self.now →
            IsSeen texts key n) }
    {
        if place >= self.seen.len() {
            return None;
        }
        let seen = self.seen[place];
        if seen.key != key {
            return None;
        }
        Some(seen.label)
    }

    // Makes the places, if there are none.
    pub(crate) fn make_places(&mut self, alloc: Global) -> Result<(), AllocError>
        ensures { (texts : List (List ℕ)) → AreSeen texts self.old → AreSeen texts self.new }
    {
        if self.seen.is_empty() {
            let nothing = Seen { key: 0, label: 0 };
            let places = vec![in alloc; nothing; PLACES as usize]?;
            self.seen = places;
        }
        Ok(())
    }

    // Notes a label with the key of its text, in place of the one that was seen before the last.
    pub(crate) fn note(&mut self, key: u64, label: u32)
        ensures { (texts : List (List ℕ)) → AreSeen texts self.old → IsSeen texts key label →
            AreSeen texts self.new }
    {
        let place = place_of(key);
        if place < self.seen.len() {
            self.move_over(place);
            self.seen[place] = Seen { key, label };
        }
    }

    // Moves the label at a place to the place beside it.
    fn move_over(&mut self, place: usize)
        requires { place < length self.old.seen.items }
        ensures long { length self.new.seen.items ≡ length self.old.seen.items }
        ensures seen { (texts : List (List ℕ)) → AreSeen texts self.old → AreSeen texts self.new }
    {
        let beside = place ^ 1;
        if beside < self.seen.len() {
            self.seen[beside] = self.seen[place];
        }
    }
}
