//! The cuts of a list, one after another.

ghost use Rattle.std.specs.Prelude.{◌≡◌, ℕ, ◌<◌, ◌≤◌, ◌^◌, length, IfOk};
ghost use Rattle.tib_strings.specs.Remaining.{IsSearch, FindsCuts, GoesTo};

use crate::Word;
use crate::bounds::find_bounds;
use crate::stepping::{find_cut, leave_cut};
use std::alloc::{AllocError, Global};
use tib_tree::Label;

/// A search for the cuts of a list between two places of a string. Of a string of n words the
/// places are the numbers from 0 to n: place i comes before the word at position i. A cut is the
/// list of the places after the tokens. It gives the cuts in their order: by the place after the
/// first token, then after the second, and so on.
#[derive(Drop)]
pub struct Cuts<'a> {
    string: &'a [Label],
    tokens: &'a [Word<u32>],
    from: u32,
    to: u32,
    bounds: Vec<u32>,
    places: Vec<u32>,
    begun: bool,
}

impl<'a> Cuts<'a> {
    /// The search for the cuts of a list from one place of a string to another; none only where
    /// there is no cut. Err only if memory is refused. Worst case: O(k n) steps for k tokens and
    /// the n places between the two.
    pub fn new(
        alloc: Global,
        string: &'a [Label],
        tokens: &'a [Word<u32>],
        from: u32,
        to: u32,
    ) -> Result<Option<Cuts<'a>>, AllocError>
        requires few { length string.now < 2 ^ 32 }
        requires order { from ≤ to }
        requires inside { to ≤ length string.now }
        ensures { IfOk result (FindsCuts string.now tokens.now from to) }
    {
        match find_bounds(alloc, string, tokens, from, to)? {
            Some(bounds) => Ok(Some(Cuts {
                string,
                tokens,
                from,
                to,
                bounds,
                places: Vec::new(alloc),
                begun: false,
            })),
            None => Ok(None),
        }
    }

    /// Goes on to the next cut, and returns whether there is one. Err if memory is refused or after
    /// 2^64 - 1 steps, and then the search is of no further use. Worst case: for each token one
    /// step, and for each pair one for each word after it and each place between its own and its
    /// last one.
    pub fn go_on(&mut self) -> Result<bool, AllocError>
        requires { IsSearch self.old }
        ensures { IfOk result (GoesTo self.old self.new) }
    {
        if !leave_cut(self.tokens, &self.bounds, &mut self.places, self.begun)? {
            return Ok(false);
        }
        self.begun = true;
        find_cut(
            self.string,
            self.tokens,
            self.from,
            self.to,
            &self.bounds,
            &mut self.places,
        )
    }

    /// The places after the tokens in the current cut. It takes no memory. Worst case: O(1) steps.
    pub fn places(&self) -> &[u32]
        ensures { result.now ≡ self.now.places.items }
    {
        &self.places
    }
}
