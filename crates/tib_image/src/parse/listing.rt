//! The edges of a key, listed one after another within a budget of parts.

ghost use Rattle.std.specs.Prelude.{◌≡◌, ◌+◌, ◌<◌, ◌++◌, ◌∷◌, [], length, map, OnOk, Err};
ghost use Rattle.tib_lex.specs.Lists.{Each};
ghost use Rattle.tib_tree.specs.Trees.{only, size};
ghost use Rattle.tib_grammar.specs.Items.{holes_in};
ghost use Rattle.tib_grammar.specs.Sides.{holes_of, HolesAreLeaves};
ghost use Rattle.tib_key_edges.specs.Listing.{IsAdded, IsWithinBudget, IsAlike};
ghost use Rattle.tib_image.specs.ParseListing.{variable_key};

use crate::parse::key::Key;
use crate::parse::spans::Span;
use std::alloc::AllocError;
use tib_apply::Restrictions;
use tib_cost::Cost;
use tib_expand::ExpandError;
use tib_grammar::{Item, Side};
use tib_key_edges::{SideListing, SideRule};
use tib_transducer::Variable;

/// Appends the key of the variable that an item may carry.
fn push_end(
    restrictions: &Restrictions,
    item: &Item<Variable>,
    spans: &[Span],
    ends: &mut Vec<Key>,
) -> Result<(), AllocError>
    requires { Each (λ x. x.number < length spans.now) (holes_in (item.now ∷ [])) }
    ensures { OnOk result (ends.new.items ≡
        ends.old.items ++ map (variable_key restrictions.now spans.now)
        (holes_in (item.now ∷ []))) }
{
    if let Item::Hole(variable) = item {
        let (state, from, to) = spans[variable.number as usize];
        ends.push(Key::new(state, from, to, restrictions.number(variable.label)))?;
    }
    Ok(())
}

/// Appends the keys of the variables among some items.
fn push_ends(
    restrictions: &Restrictions,
    items: &[Item<Variable>],
    spans: &[Span],
    ends: &mut Vec<Key>,
) -> Result<(), AllocError>
    requires { Each (λ x. x.number < length spans.now) (holes_in items.now) }
    ensures { OnOk result (ends.new.items ≡
        ends.old.items ++ map (variable_key restrictions.now spans.now) (holes_in items.now)) }
{
    for item in items {
        push_end(restrictions, item, spans, ends)?;
    }
    Ok(())
}

/// An edge over places: it leads to the left-hand side of a rule of the transducer.
pub type ParseRule<'a> = SideRule<'a, Variable>;

/// The edges of the key at a position, as far as they are listed, within a budget of parts.
pub(crate) type Listing<'a> = SideListing<'a, Key, Variable>;

/// Lists an edge to a left-hand side, whose variables lead to the keys of the states and the places
/// of their pairs, at a cost. `More` comes exactly where it has more parts than the budget leaves.
pub(crate) fn add_edge<'a>(
    listing: &mut Listing<'a>,
    restrictions: &Restrictions,
    left: &'a Side<Variable>,
    spans: &[Span],
    cost: Cost,
) -> Result<(), ExpandError>
    requires known { Each (λ x. x.number < length spans.now) (holes_of left.now) }
    requires within { IsWithinBudget listing.old }
    ensures added { OnOk result (IsAdded left.now
        (map (variable_key restrictions.now spans.now) (holes_of left.now)) cost listing.old
        listing.new) }
    ensures more { result ≡ Err ExpandError.More →
        listing.old.budget < listing.old.parts + (1 + size left.now) }
    ensures within { OnOk result (IsWithinBudget listing.new) }
    ensures alike { OnOk result (IsAlike listing.old listing.new) }
    ensures leaves { HolesAreLeaves (only left.now) }
{
    let first_end = listing.next_end();
    match push_ends(restrictions, left.items(), spans, &mut listing.ends) {
        Ok(()) => {}
        Err(_) => return Err(ExpandError::OutOfMemory),
    }
    listing.add(left, first_end, cost)
}
