//! The matches of a side within a budget.

ghost use Rattle.std.specs.Prelude.{◌≡◌, ◌≤◌, ◌<◌, length, replicate, IfOk};
ghost use Rattle.tib_cost.specs.Semiring.{most as greatest};
ghost use Rattle.tib_grammar.specs.Items.{holes_in};
ghost use Rattle.tib_grammar.specs.Sides.{holes_of};
ghost use Rattle.tib_match.specs.Searching.{AnswersWhere, IsWithin};
ghost use Rattle.tib_match.specs.declared.hole_cost.HoleCost.TheVariants.{Free};

use crate::counting::{has_more, matches_shown};
use crate::finding::few_matches;
use crate::hole_cost::{HoleCost, is_each_priced};
use crate::searching::search_matches;
use crate::within::Within;
use std::alloc::{AllocError, Global};
use tib_cost::{Cost, Semiring};
use tib_grammar::{Item, Side};
use tib_normal::Normal;

/// How many partial matches `few_matches` may make at first. Where there are more,
/// `matches_beyond_few` looks whether there are too many matches before it makes more.
pub const FEW_PARTIAL_MATCHES: u64 = 2_000;

// How many matches more than are shown to be there `few_matches` may list before a search begins.
const UNSEEN_MATCHES: u64 = 50_000;

// How many partial matches may come up where this many matches are wanted: 2 x `most` + 1000, or
// `most` if that is above 10^12.
fn partial_matches(most: u64) -> u64 {
    if most > 1_000_000_000_000 {
        return most;
    }
    2 * most + 1000
}

// What `matches_beyond_few` gives, where there are as many costs as holes.
fn beyond_few<S: Semiring, P>(
    alloc: Global,
    normal: &Normal<S>,
    state: u32,
    side: &Side<P>,
    above: Cost,
    costs: &[HoleCost],
    most: u64,
) -> Result<Within, AllocError>
    requires state { state < length normal.now.names }
    requires costs { length costs.now ≡ length (holes_of side.now) }
    ensures { IfOk result (AnswersWhere S.product normal.now.rules side.now state
        (IsWithin S.product above costs.now) most) }
{
    if has_more(alloc, normal, state, side, above, costs, most)? {
        return Ok(Within::More);
    }
    let shown = matches_shown(alloc, normal, state, side, costs)?;
    let wanted = most.min(shown.saturating_add(UNSEEN_MATCHES));
    if let Some(few) = few_matches(alloc, normal, state, side, partial_matches(wanted))? {
        return Ok(Within::All(few));
    }
    search_matches(alloc, normal, state, side, above, costs, most)
}

/// What `search_matches` gives, for a side on which `few_matches` gave up at a small number. `More`
/// comes at once where one pass over the side shows that there are more than `most` matches. Else
/// it calls `few_matches` with partial matches for those that this pass shows and 50,000 more, at
/// most for `most` of them, and where that gives up too `search_matches`. So a side with few
/// matches and very many partial ones is searched. Err only if memory is refused, or if a search
/// takes 2^64 - 1 steps.
///
/// Cost: for each item two passes over the states, and two over the rules of its label; and where
/// this does not show that there are more, that of `few_matches` and of `search_matches`.
pub fn matches_beyond_few<S: Semiring, P>(
    alloc: Global,
    normal: &Normal<S>,
    state: u32,
    side: &Side<P>,
    above: Cost,
    costs: &[HoleCost],
    most: u64,
) -> Result<Within, AllocError>
    requires { state < length normal.now.names }
    ensures { IfOk result (AnswersWhere S.product normal.now.rules side.now state
        (IsWithin S.product above costs.now) most) }
{
    normal.grammar();
    if !is_each_priced(side.items(), costs) {
        return Ok(Within::All(Vec::new(alloc)));
    }
    beyond_few(alloc, normal, state, side, above, costs, most)
}

// A free cost for each hole among some items.
fn free_costs<P>(alloc: Global, items: &[Item<P>]) -> Result<Vec<HoleCost>, AllocError>
    ensures { IfOk result (λ v. v.items ≡ replicate (length (holes_in items.now)) Free) }
{
    let mut costs = Vec::new(alloc);
    for item in items {
        if let Item::Hole(_) = item {
            costs.push(HoleCost::Free)?;
        }
    }
    Ok(costs)
}

/// The matches of a side from a state that cost no more than `MOST` with a cost above them; the
/// list may hold others too. Each list occurs once at its least cost, and they ascend. `More` comes
/// only where there are more than `most` matches at such a cost; the list may be longer too. Err
/// only if memory is refused.
///
/// Cost: that of `few_matches` with `FEW_PARTIAL_MATCHES`, and, where it gives up, that of
/// `matches_beyond_few`.
pub fn matches_within<S: Semiring, P>(
    alloc: Global,
    normal: &Normal<S>,
    state: u32,
    side: &Side<P>,
    above: Cost,
    most: u64,
) -> Result<Within, AllocError>
    requires { state < length normal.now.names }
    ensures { IfOk result (AnswersWhere S.product normal.now.rules side.now state
        (λ m. S.product above m.1 ≤ greatest) most) }
{
    normal.grammar();
    if let Some(few) = few_matches(alloc, normal, state, side, FEW_PARTIAL_MATCHES)? {
        return Ok(Within::All(few));
    }
    let costs = free_costs(alloc, side.items())?;
    beyond_few(alloc, normal, state, side, above, &costs, most)
}
