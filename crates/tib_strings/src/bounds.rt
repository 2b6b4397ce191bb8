//! How far the tokens of a list can reach, by rows over the places of a part of a string.

ghost use Rattle.std.specs.Prelude.{
  ◌≡◌,
  ℕ,
  ◌+◌,
  ◌<◌,
  ◌≤◌,
  ◌^◌,
  [],
  length,
  true,
  false,
  IfOk,
  IfSome,
  None,
  if◌then◌else◌,
  nat_le,
};
ghost use Rattle.std.proofs.Common.{get_or};
ghost use Rattle.tib_strings.specs.CutLists.{stands, cuts_of};
ghost use Rattle.tib_strings.specs.Bounds.{AreBounds, IsLast, PassesWord, PassesPair, FindsBounds};

use crate::Word;
use std::alloc::{AllocError, Global};
use tib_tree::Label;

/// The last place of a row that is marked.
fn last_marked(row: &[bool]) -> Option<usize>
    ensures some { IfSome result (IsLast row.now) }
    ensures none { result ≡ None → (p : ℕ) → get_or row.now p false ≡ false }
{
    let mut place = row.len();
    while place > 0 {
        place -= 1;
        if row[place] {
            return Some(place);
        }
    }
    None
}

/// Whether the word at a place of a string is this one.
pub(crate) fn stands_at(string: &[Label], place: usize, word: Label) -> bool
    ensures { result ≡ stands string.now place word }
{
    match string.get(place) {
        Some(found) => *found == word,
        None => false,
    }
}

/// Whether a place of a row is marked; those after it are not.
fn is_marked(row: &[bool], place: usize) -> bool
    ensures { result ≡ get_or row.now place false }
{
    match row.get(place) {
        Some(marked) => *marked,
        None => false,
    }
}

/// Whether a place is marked in the row after a word.
fn is_marked_before(row: &[bool], string: &[Label], from: usize, place: usize, word: Label) -> bool
    requires inside { from + place < length string.now + 1 }
    requires below { place < length row.now }
    ensures { result ≡ (if stands string.now (from + place) word then
        get_or row.now (place + 1) false else false) }
{
    if stands_at(string, from + place, word) {
        is_marked(row, place + 1)
    } else {
        false
    }
}

/// Turns the row of some tokens, whose first place is `from`, into that of these tokens after a
/// word.
fn pass_word(row: &mut Vec<bool>, string: &[Label], from: usize, word: Label)
    requires { from + length row.old.items ≤ length string.now + 1 }
    ensures { PassesWord string.now from word row.old.items row.new.items }
{
    for place in 0..row.len() {
        let marked = is_marked_before(row, string, from, place, word);
        row[place] = marked;
    }
}

/// Turns the row of some tokens, whose last place is known, into that of these tokens after a pair.
fn pass_pair(row: &mut Vec<bool>, last: usize)
    requires { last < length row.old.items }
    ensures { PassesPair last row.old.items row.new.items }
{
    for place in 0..last {
        row[place] = true;
    }
}

/// For each token of a list the last place at which it can end, where the list is to end at a
/// place; none where the list has no cut between the two places. Err only if memory is refused.
/// Cost: for each token one step for each place between the two.
pub(crate) fn find_bounds(
    alloc: Global,
    string: &[Label],
    tokens: &[Word<u32>],
    from: u32,
    to: u32,
) -> Result<Option<Vec<u32>>, AllocError>
    requires order { from ≤ to }
    requires inside { to ≤ length string.now }
    ensures { IfOk result (FindsBounds string.now tokens.now from to) }
{
    let width = (to - from) as usize;
    let mut row = vec![in alloc; false; width + 1]?;
    row[width] = true;
    let mut bounds = vec![in alloc; 0; tokens.len()]?;
    let mut position = tokens.len();
    while position > 0 {
        position -= 1;
        let Some(last) = last_marked(&row) else {
            return Ok(None);
        };
        bounds[position] = from + last as u32;
        match &tokens[position] {
            Word::Word(word) => pass_word(&mut row, string, from as usize, *word),
            Word::Hole(_) => pass_pair(&mut row, last),
        }
    }
    if row[0] { Ok(Some(bounds)) } else { Ok(None) }
}
