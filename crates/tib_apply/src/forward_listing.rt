//! The edges of a key of forward application, listed one after another within a budget of parts.

ghost use Rattle.std.specs.Prelude.{◌≡◌, ◌+◌, ◌<◌, ◌++◌, length, map, OnOk, Err};
ghost use Rattle.tib_lex.specs.Lists.{Each};
ghost use Rattle.tib_tree.specs.Trees.{size};
ghost use Rattle.tib_grammar.specs.Sides.{holes_of};
ghost use Rattle.tib_key_edges.specs.Listing.{IsAdded, IsWithinBudget};
ghost use Rattle.tib_apply.specs.ForwardPlans.{end_at};

use crate::forward_plan::PlannedEnd;
use crate::key::Key;
use std::alloc::AllocError;
use tib_cost::Cost;
use tib_expand::ExpandError;
use tib_grammar::Side;
use tib_key_edges::{SideListing, SideRule};
use tib_transducer::Pair;

/// An edge over places: it leads to the right-hand side of a rule of the transducer.
pub type ForwardRule<'a> = SideRule<'a, Pair<u32>>;

/// The edges of the key at a position, as far as they are listed, within a budget of parts.
pub(crate) type ForwardListing<'a> = SideListing<'a, Key, Pair<u32>>;

/// Appends the keys of some ends, where the variables are at these states of the grammar.
fn push_ends(ends: &mut Vec<Key>, planned: &[PlannedEnd], states: &[u32]) -> Result<(), AllocError>
    requires { Each (λ e. e.variable < length states.now) planned.now }
    ensures { OnOk result (ends.new.items ≡ ends.old.items ++ map (end_at states.now) planned.now) }
{
    for end in planned {
        let first = states[end.variable as usize];
        ends.push(Key::new(first, end.state, end.restriction))?;
    }
    Ok(())
}

/// Lists an edge to a right-hand side, whose pairs lead to some ends, at a cost. `More` comes
/// exactly where it has more parts than the budget leaves.
pub(crate) fn add_edge<'a>(
    listing: &mut ForwardListing<'a>,
    right: &'a Side<Pair<u32>>,
    planned: &[PlannedEnd],
    states: &[u32],
    cost: Cost,
) -> Result<(), ExpandError>
    requires below { Each (λ e. e.variable < length states.now) planned.now }
    requires planned { length planned.now ≡ length (holes_of right.now) }
    requires within { IsWithinBudget listing.old }
    ensures added { OnOk result (IsAdded right.now (map (end_at states.now) planned.now) cost
        listing.old listing.new) }
    ensures more { result ≡ Err ExpandError.More → listing.old.budget < listing.old.parts
        + (1 + size right.now) }
    ensures within { OnOk result (IsWithinBudget listing.new) }
    ensures position { listing.new.position ≡ listing.old.position }
    ensures budget { listing.new.budget ≡ listing.old.budget }
{
    let first_end = listing.next_end();
    match push_ends(&mut listing.ends, planned, states) {
        Ok(()) => {}
        Err(_) => return Err(ExpandError::OutOfMemory),
    }
    listing.add(right, first_end, cost)
}
