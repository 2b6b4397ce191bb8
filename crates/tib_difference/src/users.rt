//! The edges of a position of an order: those of each rule of the first grammar, and each place, at
//! which the state is that of the position's key.

ghost use Rattle.std.specs.Prelude.{◌≡◌, ℕ, ◌<◌, ◌≤◌, length, IfOk, Err};
ghost use Rattle.tib_lex.specs.Lists.{Each};
ghost use Rattle.tib_grammar.specs.Forms.{AreNormal};
ghost use Rattle.tib_expand.specs.Reached.{most_parts};
ghost use Rattle.tib_difference.specs.Held.{AreHolders};
ghost use Rattle.tib_difference.specs.Lefts.{AreAscending};
ghost use Rattle.tib_difference.specs.Listing.{Exceed, HasAll, IsWithinBudget};
ghost use Rattle.tib_key_edges.specs.Positions.{IsIndex};
ghost use Rattle.tib_difference.specs.Shapes.{has_shape};
ghost use Rattle.tib_difference.specs.Tries.{tries_all};
ghost use Rattle.tib_difference.specs.Using.{IsUser};

use crate::listing::KeyListing;
use crate::walk::{Walk, list_tries};
use std::alloc::Global;
use tib_expand::ExpandError;

/// Lists the edges of some rules, each over all lists of positions in which the position of a walk
/// is last at a place. Cost: besides what is tried, one step for each rule.
pub(crate) fn list_users(
    alloc: Global,
    walk: &Walk<'_>,
    users: &[(u32, u32)],
    budget: u64,
) -> Result<KeyListing, ExpandError>
    requires first { AreNormal walk.now.first.now }
    requires second { AreNormal walk.now.second.rules.now }
    requires indexed { IsIndex has_shape walk.now.second.rules.now walk.now.second.index.now }
    requires users { Each (IsUser walk.now.first.now) users.now }
    requires position { walk.now.position < length walk.now.order.now }
    requires ascending { AreAscending walk.now.order.now }
    requires holders { AreHolders walk.now.order.now walk.now.holders.now.lists.items }
    requires budget { budget ≤ most_parts }
    ensures listed { IfOk result (HasAll walk.now.first.now walk.now.second.rules.now
        walk.now.order.now (tries_all walk.now.first.now walk.now.order.now walk.now.position
        users.now)) }
    ensures more { result ≡ Err ExpandError.More → Exceed walk.now.first.now
        walk.now.second.rules.now walk.now.order.now (tries_all walk.now.first.now
        walk.now.order.now walk.now.position users.now) budget }
    ensures within { IfOk result IsWithinBudget }
    ensures budget { IfOk result (λ l. l.budget ≡ budget) }
{
    let mut listing = KeyListing::new(alloc, budget);
    for number in 0..users.len() {
        let (rule, place) = users[number];
        let walk = Walk {
            rule,
            place,
            ..*walk
        };
        match list_tries(alloc, &walk, &mut listing) {
            Ok(()) => {}
            Err(fault) => return Err(fault),
        }
    }
    Ok(listing)
}
