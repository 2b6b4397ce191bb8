// A shelf: a set of keys, each with a place.
ghost use Rattle.std.specs.Prelude.{◌≡◌, ◌<◌, ◌++◌, [], ◌∷◌, length, Some, slice_get, IfOk, IfErr, OnOk, MatchOption};
ghost use Rattle.std.specs.List.{IsDistinct, All};
ghost use Rattle.indexmap.specs.IndexSet.{insert_key};

use crate::problem::{Entry, Problem};
use indexmap::IndexSet;
use std::alloc::{AllocError, Global};
use std::marker::Model;
use tib_expand::TableKey;
use tib_turn::Grows;

/// Distinct keys of one problem, numbered from 0 in the order of first sight.
#[derive(Drop)]
pub struct Shelf<P: Problem> {
    problem: P,
    keys: IndexSet<P::Key>,
}

impl<P: Problem> Model for Shelf<P> {
    ghost use Rattle.std.specs.List.{IsDistinct, All};
    ghost use Rattle.tib_table.specs.Kept.{Kept};

    ghost Value = { Kept P.Data P.Key };

    ghost view = { λ s. record { about = P.about s.problem; keys = s.keys.keys } };

    ghost invariant = { λ s. All (P.may_hold (P.about s.problem)) s.keys.keys × IsDistinct P.Key.eq s.keys.keys };
}

impl<P: Problem> Grows for Shelf<P> {
    type Entry = Entry<P::Data, P::Key>;

    ghost use Rattle.tib_table.specs.Kept.{log_of};

    ghost log = { log_of };
}

impl<P: Problem> Shelf<P> {
    /// A shelf with no key. It takes no memory.
    pub fn open(alloc: Global, problem: P) -> Shelf<P>
        ensures { result ≡ record { about = P.about problem; keys = [] } }
    {
        Shelf {
            problem,
            keys: IndexSet::new(alloc),
        }
    }

    /// How many keys it has. No two of them are equal, and the problem may hold each. It takes no
    /// memory.
    pub fn len(&self) -> u64
        ensures count { result ≡ length self.now.keys }
        ensures distinct { IsDistinct P.Key.eq self.now.keys }
        ensures held { All (P.may_hold self.now.about) self.now.keys }
    {
        self.keys.len() as u64
    }

    /// The place of the key, from 0. A new key is added after the others. Only if memory is refused
    /// does the key come back; the shelf is then unchanged. Cost: one look-up by hash.
    pub fn number(&mut self, key: P::Key) -> Result<u64, P::Key>
        requires { P.may_hold self.old.about key }
        ensures about { self.new.about ≡ self.old.about }
        ensures named { IfOk result (λ n. slice_get self.new.keys n ≡ Some key) }
        ensures keys { OnOk result (self.new.keys ≡ insert_key P.Key.eq self.old.keys key) }
        ensures refused { IfErr result (λ k. (k ≡ key) × (self.new ≡ self.old)) }
    {
        match self.keys.insert_full(key) {
            Ok((place, _)) => Ok(place as u64),
            Err(refused) => Err(refused.value),
        }
    }

    /// The key at a place below `len`. It takes no memory.
    pub fn key(&self, place: u64) -> &P::Key
        requires { place < length self.now.keys }
        ensures { slice_get self.now.keys place ≡ Some result.now }
    {
        self.keys.get_index(place as usize).unwrap()
    }

    /// Removes and returns the last key, or returns None if there is none. The other keys keep
    /// their places. It takes no memory.
    pub fn take_last(&mut self) -> Option<P::Key>
        ensures about { self.new.about ≡ self.old.about }
        ensures taken { MatchOption result ((self.old.keys ≡ [])
            × (self.new.keys ≡ [])) (λ k. self.old.keys ≡ self.new.keys ++ k ∷ []) }
    {
        self.keys.pop()
    }

    /// All keys, in the order of first sight. Err only if memory is refused; the keys are then
    /// gone. Each key is moved once.
    pub fn into_keys(self, alloc: Global) -> Result<Vec<P::Key>, AllocError>
        ensures { IfOk result (λ r. r.items ≡ self.keys) }
    {
        let Shelf { problem: _, keys } = self;
        Vec::from_iter(alloc, keys)
    }
}
