//! Steps of the search for cuts: on to the next token, and back to one that can go further.

ghost use Rattle.std.specs.Prelude.{◌≡◌, ℕ, ◌+◌, ◌<◌, ◌≤◌, ◌^◌, List, length, true, IfOk};
ghost use Rattle.tib_strings.specs.Bounds.{AreBounds};
ghost use Rattle.tib_strings.specs.Stacks.{back, top};
ghost use Rattle.tib_strings.specs.Search.{can_go, Descends, Finds, GoesOn, GoesFurther, Leaves, Tries};

use crate::Word;
use crate::bounds::stands_at;
use std::alloc::AllocError;
use tib_tree::Label;

/// The place after the tokens that have places, where the first token is at a place.
#[tactic(auto, using(crate::proofs::Searching::top_at, crate::proofs::Searching::top_first))]
pub(crate) fn last_place(from: u32, places: &[u32]) -> u32
    ensures { result ≡ top from (back places.now) }
{
    let count = places.len();
    if count == 0 { from } else { places[count - 1] }
}

/// Gives the next token its least place, and returns whether it has one. Err only if memory is
/// refused.
fn go_on(
    string: &[Label],
    tokens: &[Word<u32>],
    from: u32,
    bounds: &[u32],
    places: &mut Vec<u32>,
) -> Result<bool, AllocError>
    requires few { length string.now < 2 ^ 32 }
    requires open { length places.old.items < length tokens.now }
    requires as_many { length bounds.now ≡ length tokens.now }
    ensures goes { (j : ℕ) → AreBounds string.now tokens.now j bounds.now →
        IfOk result (GoesOn string.now tokens.now from j places.old.items places.new.items) }
    ensures longer { IfOk result (λ on. on ≡ true →
        length places.new.items ≡ length places.old.items + 1) }
{
    let here = last_place(from, places);
    let position = places.len();
    match &tokens[position] {
        Word::Word(word) => {
            if stands_at(string, here as usize, *word) {
                places.push(here + 1)?;
                return Ok(true);
            }
        }
        Word::Hole(_) => {
            if here <= bounds[position] {
                places.push(here)?;
                return Ok(true);
            }
        }
    }
    Ok(false)
}

/// Gives each token that has no place its least one, and returns false at the first that has none.
/// Err only if memory is refused.
pub(crate) fn descend(
    string: &[Label],
    tokens: &[Word<u32>],
    from: u32,
    bounds: &[u32],
    places: &mut Vec<u32>,
) -> Result<bool, AllocError>
    requires few { length string.now < 2 ^ 32 }
    requires begun { length places.old.items ≤ length tokens.now }
    requires as_many { length bounds.now ≡ length tokens.now }
    ensures { (j : ℕ) → AreBounds string.now tokens.now j bounds.now →
        IfOk result (Descends string.now tokens.now from j places.old.items places.new.items) }
{
    while places.len() < tokens.len() {
        if !go_on(string, tokens, from, bounds, places)? {
            return Ok(false);
        }
    }
    Ok(true)
}

/// Whether a token is a pair that can end after a place, where this is the last place at which it
/// can end.
fn can_move(token: &Word<u32>, place: u32, bound: u32) -> bool
    ensures { result ≡ can_go token.now place bound }
{
    match token {
        Word::Word(_) => false,
        Word::Hole(_) => place < bound,
    }
}

/// Takes the places of tokens away, the last first, up to a pair that can go further, and moves
/// that on by one place; returns whether there is one. Err only if memory is refused.
pub(crate) fn go_further(
    tokens: &[Word<u32>],
    bounds: &[u32],
    places: &mut Vec<u32>,
) -> Result<bool, AllocError>
    requires begun { length places.old.items ≤ length tokens.now }
    requires as_many { length bounds.now ≡ length tokens.now }
    ensures { (string : List ℕ) (i j : ℕ) → AreBounds string tokens.now j bounds.now →
        IfOk result (GoesFurther string tokens.now i j places.old.items places.new.items) }
{
    while let Some(place) = places.pop() {
        let position = places.len();
        if can_move(&tokens[position], place, bounds[position]) {
            places.push(place + 1)?;
            return Ok(true);
        }
    }
    Ok(false)
}

/// Gives all tokens places, and returns whether these are a cut that ends at a place. Err only if
/// memory is refused.
fn try_cut(
    string: &[Label],
    tokens: &[Word<u32>],
    from: u32,
    to: u32,
    bounds: &[u32],
    places: &mut Vec<u32>,
) -> Result<bool, AllocError>
    requires few { length string.now < 2 ^ 32 }
    requires begun { length places.old.items ≤ length tokens.now }
    requires bounded { AreBounds string.now tokens.now to bounds.now }
    ensures { IfOk result (Tries string.now tokens.now from to places.old.items places.new.items) }
{
    if !descend(string, tokens, from, bounds, places)? {
        return Ok(false);
    }
    Ok(last_place(from, places) == to)
}

/// Goes on to the next cut that ends at a place, the current one first, and returns whether there
/// is one. Err only if memory is refused.
pub(crate) fn find_cut(
    string: &[Label],
    tokens: &[Word<u32>],
    from: u32,
    to: u32,
    bounds: &[u32],
    places: &mut Vec<u32>,
) -> Result<bool, AllocError>
    requires few { length string.now < 2 ^ 32 }
    requires begun { length places.old.items ≤ length tokens.now }
    requires bounded { AreBounds string.now tokens.now to bounds.now }
    ensures { IfOk result (Finds string.now tokens.now from to places.old.items places.new.items) }
{
    for _ in 0..u64::MAX {
        if try_cut(string, tokens, from, to, bounds, places)? {
            return Ok(true);
        }
        if !go_further(tokens, bounds, places)? {
            return Ok(false);
        }
    }
    Err(AllocError)
}

/// Leaves the current cut, if the search has begun; returns false if nothing is left. Err only if
/// memory is refused.
pub(crate) fn leave_cut(
    tokens: &[Word<u32>],
    bounds: &[u32],
    places: &mut Vec<u32>,
    begun: bool,
) -> Result<bool, AllocError>
    requires begun { length places.old.items ≤ length tokens.now }
    requires as_many { length bounds.now ≡ length tokens.now }
    ensures { (string : List ℕ) (i j : ℕ) → AreBounds string tokens.now j bounds.now →
        IfOk result (Leaves string tokens.now i j begun places.old.items places.new.items) }
{
    if begun {
        go_further(tokens, bounds, places)
    } else {
        Ok(true)
    }
}
