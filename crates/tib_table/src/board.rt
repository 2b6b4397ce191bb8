// A shelf of a table: a shelf whose keys all name its place.
ghost use Rattle.std.specs.Prelude.{◌≡◌, ◌<◌, ◌++◌, [], ◌∷◌, length, Some, slice_get, IfOk, IfErr, OnOk, MatchOption};
ghost use Rattle.std.specs.List.{IsDistinct, All};
ghost use Rattle.indexmap.specs.IndexSet.{insert_key};

use crate::problem::{Entry, Problem};
use crate::shelf::Shelf;
use std::alloc::{AllocError, Global};
use std::marker::Model;
use tib_expand::TableKey;
use tib_turn::Grows;

/// One of the shelves of a table, with its place in the table. Each of its keys names that place.
#[derive(Drop)]
pub struct Board<P: Problem> {
    shelf: Shelf<P>,
    place: u32,
}

impl<P: Problem> Model for Board<P> {
    ghost use Rattle.std.specs.Prelude.{◌≡◌, ℕ};
    ghost use Rattle.std.specs.List.{All};
    ghost use Rattle.tib_table.specs.Kept.{Kept};

    ghost Value = { Kept (P.Data × ℕ) P.Key };

    ghost view = { λ b. record { about = (b.shelf.about, b.place); keys = b.shelf.keys } };

    ghost invariant = { λ b. All (λ k. P.Key.shelf_of k ≡ b.place) b.shelf.keys };
}

impl<P: Problem> Grows for Board<P> {
    type Entry = Entry<(P::Data, u32), P::Key>;

    ghost use Rattle.tib_table.specs.Kept.{log_of};

    ghost log = { log_of };
}

impl<P: Problem> Board<P> {
    /// A shelf with no key. It takes no memory.
    pub fn open(alloc: Global, problem: P, place: u32) -> Board<P>
        ensures { result ≡ record { about = (P.about problem, place); keys = [] } }
    {
        Board {
            shelf: Shelf::open(alloc, problem),
            place,
        }
    }

    /// How many keys it has. No two of them are equal, the problem may hold each, and each names
    /// this place. It takes no memory.
    pub fn len(&self) -> u64
        ensures count { result ≡ length self.now.keys }
        ensures distinct { IsDistinct P.Key.eq self.now.keys }
        ensures held { All (λ k. P.may_hold self.now.about.0 k
            × (P.Key.shelf_of k ≡ self.now.about.1)) self.now.keys }
    {
        self.shelf.len()
    }

    /// The place of the key, from 0. A new key is added after the others. Only if memory is refused
    /// does the key come back; the shelf is then unchanged. Cost: one look-up by hash.
    pub fn number(&mut self, key: P::Key) -> Result<u64, P::Key>
        requires { P.may_hold self.old.about.0 key × (P.Key.shelf_of key ≡ self.old.about.1) }
        ensures about { self.new.about ≡ self.old.about }
        ensures named { IfOk result (λ n. slice_get self.new.keys n ≡ Some key) }
        ensures keys { OnOk result (self.new.keys ≡ insert_key P.Key.eq self.old.keys key) }
        ensures refused { IfErr result (λ k. (k ≡ key) × (self.new ≡ self.old)) }
    {
        self.shelf.number(key)
    }

    /// The key at a place below `len`. It takes no memory.
    pub fn key(&self, place: u64) -> &P::Key
        requires { place < length self.now.keys }
        ensures { slice_get self.now.keys place ≡ Some result.now }
    {
        self.shelf.key(place)
    }

    /// Removes and returns the last key, or returns None if there is none. The other keys keep
    /// their places. It takes no memory.
    pub fn take_last(&mut self) -> Option<P::Key>
        ensures about { self.new.about ≡ self.old.about }
        ensures taken { MatchOption result ((self.old.keys ≡ []) × (self.new.keys ≡ []))
            (λ k. self.old.keys ≡ self.new.keys ++ k ∷ []) }
    {
        self.shelf.take_last()
    }

    /// All keys, in the order of first sight. Err only if memory is refused; the keys are then
    /// gone. Each key is moved once.
    pub fn into_keys(self, alloc: Global) -> Result<Vec<P::Key>, AllocError>
        ensures { IfOk result (λ r. r.items ≡ self.keys) }
    {
        let Board { shelf, place: _ } = self;
        shelf.into_keys(alloc)
    }
}
