//! The edges of a key, listed one after another within a budget of parts.

ghost use Rattle.std.specs.Prelude.{◌≡◌, ◌+◌, ◌<◌, ◌++◌, ◌∷◌, [], length, map, OnOk, Err};
ghost use Rattle.tib_lex.specs.Lists.{Each};
ghost use Rattle.tib_tree.specs.Trees.{size};
ghost use Rattle.tib_grammar.specs.Items.{holes_in};
ghost use Rattle.tib_grammar.specs.Sides.{holes_of};
ghost use Rattle.tib_key_edges.specs.Listing.{IsAdded, IsWithinBudget};
ghost use Rattle.tib_image.specs.Image.{pair_key};

use crate::key::Key;
use std::alloc::AllocError;
use tib_cost::Cost;
use tib_expand::ExpandError;
use tib_grammar::{Item, Side};
use tib_key_edges::SideListing;
use tib_transducer::Pair;

/// Appends the key of the pair that an item may carry, where the variables are at these nodes.
fn push_end(item: &Item<Pair<u32>>, nodes: &[u32], ends: &mut Vec<Key>) -> Result<(), AllocError>
    requires { Each (λ x. x.variable < length nodes.now) (holes_in (item.now ∷ [])) }
    ensures { OnOk result (ends.new.items ≡
        ends.old.items ++ map (pair_key nodes.now) (holes_in (item.now ∷ []))) }
{
    if let Item::Hole(pair) = item {
        ends.push(Key::new(pair.state, nodes[pair.variable as usize]))?;
    }
    Ok(())
}

/// Appends the keys of the pairs among some items, where the variables are at these nodes.
fn push_ends(
    items: &[Item<Pair<u32>>],
    nodes: &[u32],
    ends: &mut Vec<Key>,
) -> Result<(), AllocError>
    requires { Each (λ x. x.variable < length nodes.now) (holes_in items.now) }
    ensures { OnOk result (ends.new.items ≡
        ends.old.items ++ map (pair_key nodes.now) (holes_in items.now)) }
{
    for item in items {
        push_end(item, nodes, ends)?;
    }
    Ok(())
}

/// The edges of the key at a position, as far as they are listed, within a budget of parts.
pub(crate) type Listing<'a> = SideListing<'a, Key, Pair<u32>>;

/// Lists an edge to a right-hand side, whose pairs lead to the keys of their states and of the
/// nodes of their variables, at a cost. `More` comes exactly where it has more parts than the
/// budget leaves.
pub(crate) fn add_edge<'a>(
    listing: &mut Listing<'a>,
    right: &'a Side<Pair<u32>>,
    nodes: &[u32],
    cost: Cost,
) -> Result<(), ExpandError>
    requires known { Each (λ x. x.variable < length nodes.now) (holes_of right.now) }
    requires within { IsWithinBudget listing.old }
    ensures added { OnOk result (IsAdded right.now (map (pair_key nodes.now)
        (holes_of right.now)) cost
        listing.old listing.new) }
    ensures more { result ≡ Err ExpandError.More →
        listing.old.budget < listing.old.parts + (1 + size right.now) }
    ensures within { OnOk result (IsWithinBudget listing.new) }
    ensures position { listing.new.position ≡ listing.old.position }
    ensures budget { listing.new.budget ≡ listing.old.budget }
{
    let first_end = listing.next_end();
    match push_ends(right.items(), nodes, &mut listing.ends) {
        Ok(()) => {}
        Err(_) => return Err(ExpandError::OutOfMemory),
    }
    listing.add(right, first_end, cost)
}
