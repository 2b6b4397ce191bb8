// The shelves of a closed table.
ghost use Rattle.std.specs.Prelude.{◌≡◌, ◌<◌, [], ◌∷◌, ◌++◌, map, length, slice_get, slice_set, option_copied, MatchOption, IfOk};
ghost use Rattle.tib_table.specs.Known.{on};
ghost use Rattle.tib_table.specs.Kept.{keys_of};

use crate::board::Board;
use crate::number::Number;
use crate::problem::Problem;
use std::alloc::{AllocError, Global};
use std::marker::Model;

/// The sixteen shelves of a closed table.
#[derive(Drop)]
pub struct Shelves<P: Problem> {
    shelves: Vec<Board<P>>,
}

impl<P: Problem> Model for Shelves<P> {
    ghost use Rattle.std.specs.Prelude.{◌≡◌, List, map, length};
    ghost use Rattle.tib_table.specs.Kept.{keys_of};

    ghost Value = { List (List P.Key) };

    ghost view = { λ s. map keys_of s.shelves.items };

    ghost invariant = { λ s. length s.shelves.items ≡ 16 };
}

impl<P: Problem> Shelves<P> {
    /// The shelves in a list of sixteen.
    pub(crate) fn from_list(shelves: Vec<Board<P>>) -> Shelves<P>
        requires { length shelves.items ≡ 16 }
        ensures { result ≡ map keys_of shelves.items }
    {
        Shelves { shelves }
    }

    /// The key with a number, or None if the shelf has no such place. It takes no memory.
    pub fn key(&self, number: Number) -> Option<&P::Key>
        ensures { option_copied result ≡ slice_get (on self.now number.shelf) number.place }
    {
        let shelf = &self.shelves[number.shelf as usize];
        if number.place < shelf.len() {
            Some(shelf.key(number.place))
        } else {
            None
        }
    }

    /// Removes and returns the last key of a shelf, or returns None if the shelf is empty. All
    /// other keys keep their numbers. It takes no memory.
    pub fn take_last(&mut self, shelf: u32) -> Option<P::Key>
        requires { shelf < 16 }
        ensures taken { MatchOption result (on self.old shelf ≡ []) (λ k.
            on self.old shelf ≡ on self.new shelf ++ k ∷ []) }
        ensures others { self.new ≡ slice_set self.old shelf (on self.new shelf) }
    {
        self.shelves[shelf as usize].take_last()
    }

    /// The keys of the shelves, each shelf in the order of first sight. Err only if memory is
    /// refused; the keys are then gone. Each key is moved once.
    pub fn into_lists(self, alloc: Global) -> Result<Vec<Vec<P::Key>>, AllocError>
        ensures { IfOk result (λ r. map (λ v. v.items) r.items ≡ self) }
    {
        let Shelves { shelves } = self;
        list_shelves(alloc, shelves)
    }
}

// The keys of shelves.
fn list_shelves<P: Problem>(
    alloc: Global,
    shelves: Vec<Board<P>>,
) -> Result<Vec<Vec<P::Key>>, AllocError>
    ensures { IfOk result (λ r. map (λ v. v.items) r.items ≡ map keys_of shelves.items) }
{
    let mut lists = Vec::with_capacity(alloc, shelves.len())?;
    for shelf in shelves {
        let keys = shelf.into_keys(alloc)?;
        lists.push(keys)?;
    }
    Ok(lists)
}
