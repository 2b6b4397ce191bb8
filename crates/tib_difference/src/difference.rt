//! The keys of two grammars, as what is hunted.

ghost use Rattle.std.specs.Prelude.{◌≡◌, ℕ, ◌<◌, ◌≤◌, [], length, IfOk, Err};
ghost use Rattle.tib_determinize.specs.Determinization.{LeftsBelow};
ghost use Rattle.tib_difference.specs.Held.{AreHolders, held};
ghost use Rattle.tib_difference.specs.Lefts.{AreAscending};
ghost use Rattle.tib_key_edges.specs.Positions.{IsIndex};
ghost use Rattle.tib_difference.specs.Shapes.{has_shape};
ghost use Rattle.tib_difference.specs.Tries.{leaves_of, tries, users_of};
ghost use Rattle.tib_difference.specs.Listing.{Exceed, HasAll, IsWithinBudget};
ghost use Rattle.tib_expand.specs.Reached.{most_parts};

use crate::holders::Holders;
use crate::index::ByFirst;
use crate::listing::KeyListing;
use crate::lists::{list_of, users_by_state};
use crate::subset::Second;
use crate::subset_key::SubsetKey;
use crate::users::list_users;
use crate::walk::{Walk, list_leaves};
use std::alloc::{AllocError, Global};
use tib_cost::{Boolean, Semiring};
use tib_expand::ExpandError;
use tib_key_edges::{ShapeIndex, index_rules};
use tib_normal::Normal;

/// The states of a first grammar, each with a set of states of a second one, reached from the rules
/// without states.
#[derive(Drop)]
pub struct Difference<'a, S> {
    /// The first grammar.
    pub left: &'a Normal<S>,
    /// The second grammar.
    pub right: &'a Normal<Boolean>,
    pub(crate) index: ShapeIndex,
    pub(crate) users: Vec<Vec<(u32, u32)>>,
    pub ghost indexed: { IsIndex has_shape right.now.rules index },
    pub ghost used: { (q : ℕ) → held users.items q ≡ users_of left.now.rules q
        (length left.now.rules) },
    pub ghost left_range: { LeftsBelow (length left.now.names) left.now.rules },
    pub ghost right_range: { LeftsBelow (length right.now.names) right.now.rules },
}

impl<'a, S: Semiring> Difference<'a, S> {
    /// The difference of two grammars. Err only if memory is refused. Cost: one look-up by hash for
    /// each rule of the second grammar, and one step for each place of each rule of the first.
    pub fn new(
        alloc: Global,
        left: &'a Normal<S>,
        right: &'a Normal<Boolean>,
    ) -> Result<Difference<'a, S>, AllocError>
        ensures left { IfOk result (λ p. p.left.now ≡ left.now) }
        ensures right { IfOk result (λ p. p.right.now ≡ right.now) }
    {
        left.grammar().is_sound();
        right.grammar().is_sound();
        let index = index_rules::<ByFirst>(alloc, right.grammar().rule_list())?;
        let users = users_by_state(alloc, left.grammar().rule_list())?;
        Ok(Difference {
            left,
            right,
            index,
            users,
        })
    }

    // The edges of the rules of the first grammar without states.
    pub(crate) fn list_seeds(&self, alloc: Global, budget: u64) -> Result<KeyListing, ExpandError>
        requires budget { budget ≤ most_parts }
        ensures listed { IfOk result (HasAll self.now.left.now.rules self.now.right.now.rules []
            (leaves_of self.now.left.now.rules)) }
        ensures more { result ≡ Err ExpandError.More → Exceed self.now.left.now.rules
            self.now.right.now.rules [] (leaves_of self.now.left.now.rules) budget }
        ensures within { IfOk result IsWithinBudget }
        ensures budget { IfOk result (λ l. l.budget ≡ budget) }
    {
        self.left.grammar().is_sound();
        let second = Second {
            rules: self.right.grammar().rule_list(),
            index: &self.index,
        };
        list_leaves(alloc, self.left.grammar().rule_list(), &second, budget)
    }

    // The edges of a position of an order.
    pub(crate) fn list_position<'w>(
        &'w self,
        alloc: Global,
        order: &'w [SubsetKey],
        holders: &'w Holders,
        position: u32,
        budget: u64,
    ) -> Result<KeyListing, ExpandError>
        requires position { position < length order.now }
        requires holders { AreHolders order.now holders.now.lists.items }
        requires ascending { AreAscending order.now }
        requires budget { budget ≤ most_parts }
        ensures listed { IfOk result (HasAll self.now.left.now.rules self.now.right.now.rules
            order.now (tries self.now.left.now.rules order.now position)) }
        ensures more { result ≡ Err ExpandError.More → Exceed self.now.left.now.rules
            self.now.right.now.rules order.now (tries self.now.left.now.rules order.now position)
            budget }
        ensures within { IfOk result IsWithinBudget }
        ensures budget { IfOk result (λ l. l.budget ≡ budget) }
    {
        self.left.grammar().is_sound();
        let first = self.left.grammar().rule_list();
        let second = Second {
            rules: self.right.grammar().rule_list(),
            index: &self.index,
        };
        let users = list_of(&self.users, order[position as usize].state());
        let walk = Walk {
            first,
            second,
            order,
            holders,
            rule: 0,
            place: 0,
            position,
        };
        list_users(alloc, &walk, users, budget)
    }
}
