// The cheapest of the partial matches that wait for the same states and have the same states at
// holes.
ghost use Rattle.std.specs.Prelude.{IsTrue, false, ◌≡◌, IfOk};
ghost use Rattle.tib_match.specs.Merging.{AreInOnePlace, IsAgain, AreMerged};

use crate::partial::Partial;
use std::alloc::{AllocError, Global};

// Whether two partial matches wait for the same states and have the same states at holes.
fn are_in_one_place(one: &Partial, two: &Partial) -> bool
    ensures yes { IsTrue result → AreInOnePlace one.now two.now }
    ensures no { result ≡ false → AreInOnePlace one.now two.now → ⊥ }
{
    one.waiting == two.waiting && one.states == two.states
}

// Whether the last of some partial matches is in the place of another one.
fn is_again(kept: &[Partial], partial: &Partial) -> bool
    ensures { IsAgain kept.now partial.now result }
{
    match kept.last() {
        Some(last) => are_in_one_place(last, partial),
        None => false,
    }
}

/// The cheapest of the partial matches that wait for the same states and have the same states at
/// holes, each once, ascending by what waits and then by the states.
pub(crate) fn merge(alloc: Global, found: Vec<Partial>) -> Result<Vec<Partial>, AllocError>
    ensures { IfOk result (λ kept. AreMerged found.items kept.items) }
{
    let mut found = found;
    found.sort()?;
    let mut kept: Vec<Partial> = Vec::new(alloc);
    for partial in found {
        if !is_again(&kept, &partial) {
            kept.push(partial)?;
        }
    }
    Ok(kept)
}
