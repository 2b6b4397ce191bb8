// The names of inner states.
ghost use Rattle.std.specs.Prelude.{◌≡◌, ℕ, ◌+◌, ◌<◌, ◌≤◌, ◌^◌, List, ◌++◌, length, IfOk, map, not, position};
ghost use Rattle.tib_normal.specs.PlaceNames.{AreTaken, IsFree, name_of_place};

use std::alloc::{AllocError, Global};
use tib_grammar::Names;

/// Which lengths from nine on names have, for one length more than there are names.
fn taken_lengths(alloc: Global, names: &Names) -> Result<Vec<bool>, AllocError>
    ensures { IfOk result (λ taken. AreTaken names.now (length names.now + 1) taken.items) }
{
    let mut taken = vec![in alloc; false; names.len() as usize + 1]?;
    for state in 0..names.len() {
        let length = names.text(state).len();
        if length >= 9 && length - 9 < taken.len() {
            taken[length - 9] = true;
        }
    }
    Ok(taken)
}

/// The first place in a list of lengths that is not taken.
fn first_free(taken: &[bool]) -> Option<usize>
    ensures { result ≡ position not taken.now }
{
    taken.iter().position(|is_taken| !*is_taken)
}

/// The shortest length from nine on that no name has.
fn free_length(alloc: Global, names: &Names) -> Result<usize, AllocError>
    ensures from { IfOk result (λ n. 9 ≤ n) }
    ensures free { IfOk result (λ n. IsFree names.now n) }
{
    let taken = taken_lengths(alloc, names)?;
    match first_free(&taken) {
        Some(beyond) => Ok(9 + beyond),
        None => unreachable!(),
    }
}

/// The name of an inner state: a letter and its number, with leading zeros up to this length.
fn place_name(alloc: Global, number: u32, length: usize) -> Result<Vec<u8>, AllocError>
    requires { 1 ≤ length }
    ensures { IfOk result (λ name. name.items ≡ name_of_place length number) }
{
    let mut name = vec![in alloc; b'p'; length]?;
    let mut rest = number;
    let mut first = length;
    while first > 1 {
        first -= 1;
        name[first] = b'0' + (rest % 10) as u8;
        rest /= 10;
    }
    Ok(name)
}

/// The texts of some names.
fn texts_of(alloc: Global, names: &Names) -> Result<Vec<Vec<u8>>, AllocError>
    ensures { IfOk result (λ texts. map (λ text. text.items) texts.items ≡ names.now) }
{
    let mut texts = Vec::new(alloc);
    for state in 0..names.len() {
        texts.push(names.text(state).to_vec(alloc)?)?;
    }
    Ok(texts)
}

/// The names of the states of the normal form: those of the grammar, and then those of the inner
/// states.
pub(crate) fn all_names(alloc: Global, names: &Names, places: u32) -> Result<Names, AllocError>
    requires few_places { places < 100000000 }
    requires few_states { length names.now + places < 2 ^ 32 }
    ensures length { IfOk result (λ all. length all ≡ length names.now + places) }
    ensures first { IfOk result (λ all. (rest : List (List ℕ)) × (all ≡ names.now ++ rest)) }
{
    names.is_sound();
    let length = free_length(alloc, names)?;
    let mut texts = texts_of(alloc, names)?;
    for place in 0..places {
        texts.push(place_name(alloc, place, length)?)?;
    }
    match Names::from_list(alloc, texts)? {
        Some(all) => Ok(all),
        None => unreachable!(),
    }
}
