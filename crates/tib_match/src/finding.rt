// The matches of a side.
ghost use Rattle.std.specs.Prelude.{◌≡◌, ◌<◌, ◌∷◌, [], ◌++◌, map, length, IfOk, IfSome, OnOk};
ghost use Rattle.tib_grammar.specs.Items.{pair_of, pairs_of};
ghost use Rattle.tib_grammar.specs.Forms.{AreNormal};
ghost use Rattle.tib_tree.specs.Trees.{preorder_of};
ghost use Rattle.tib_normal.specs.Rules.{positions_with};
ghost use Rattle.tib_match.specs.PartialMatches.{AreNext, AreFound, start_from};
ghost use Rattle.tib_match.specs.Leading.{partial_of, partials_of, all_placed, all_led};
ghost use Rattle.tib_match.specs.Narrowing.{LeftsAscend};
ghost use Rattle.tib_lex.specs.Lists.{Each};
ghost use Rattle.tib_match.specs.MatchLists.{AreMatches};
ghost use Rattle.tib_match.specs.MatchView.{matched};

use crate::found_match::Match;
use crate::merging::merge;
use crate::narrowing::narrow;
use crate::partial::{Partial, add_all_placed, take_all};
use smallvec::SmallVec;
use std::alloc::{AllocError, Global};
use tib_cost::Semiring;
use tib_grammar::{Item, Rule, Side};
use tib_normal::Normal;
use tib_tree::Label;

// Adds what the rules at some positions, in ascending order of their left states, make of a partial
// match.
fn add_led<S: Semiring>(
    alloc: Global,
    partial: &Partial,
    rules: &[Rule<u32>],
    positions: &[u32],
    found: &mut Vec<Partial>,
) -> Result<(), AllocError>
    requires below { Each (λ n. n < length rules.now) positions.now }
    requires ascend { LeftsAscend rules.now positions.now }
    ensures { OnOk result (partials_of found.new.items ≡ partials_of found.old.items
        ++ all_placed S.product rules.now (partial_of partial.now) positions.now) }
{
    let count = partial.waiting.len();
    if count == 0 {
        return Ok(());
    }
    let own = narrow(rules, positions, partial.waiting[count - 1]);
    add_all_placed::<S>(alloc, partial, rules, own, found)
}

// What the rules of a label and a rank make of some partial matches; none where it gives up, since
// they make more than a number.
fn lead_all<S: Semiring>(
    alloc: Global,
    normal: &Normal<S>,
    label: Label,
    rank: u32,
    old: &[Partial],
    most: u64,
) -> Result<Option<Vec<Partial>>, AllocError>
    ensures normal { AreNormal normal.now.rules }
    ensures led { IfOk result (λ led. IfSome led (λ found. partials_of found.items
        ≡ all_led S.product normal.now.rules (positions_with label rank normal.now.rules)
        (partials_of old.now))) }
{
    let rules = normal.grammar().rule_list();
    let positions = normal.rules_with(label, rank);
    let mut found = Vec::new(alloc);
    for partial in old {
        if found.len() as u64 > most {
            return Ok(None);
        }
        add_led::<S>(alloc, partial, rules, positions, &mut found)?;
    }
    Ok(Some(found))
}

// What an item of a side makes of some partial matches; none where it gives up.
fn next<S: Semiring, P>(
    alloc: Global,
    normal: &Normal<S>,
    item: &Item<P>,
    old: Vec<Partial>,
    most: u64,
) -> Result<Option<Vec<Partial>>, AllocError>
    ensures { IfOk result (λ next. IfSome next (λ found. AreNext S.product normal.now.rules
        (pair_of item.now) (partials_of old.items) (partials_of found.items))) }
{
    match item {
        Item::Label { label, rank } => {
            let Some(led) = lead_all(alloc, normal, *label, *rank, &old, most)? else {
                return Ok(None);
            };
            let kept = merge(alloc, led)?;
            Ok(Some(kept))
        }
        Item::Hole(_) => {
            let taken = take_all(alloc, old)?;
            Ok(Some(taken))
        }
    }
}

// What is found along some items from a state; none where it gives up.
fn find<S: Semiring, P>(
    alloc: Global,
    normal: &Normal<S>,
    state: u32,
    items: &[Item<P>],
    most: u64,
) -> Result<Option<Vec<Partial>>, AllocError>
    ensures { IfOk result (λ all. IfSome all (λ found. AreFound S.product normal.now.rules
        (pairs_of items.now) (start_from state ∷ []) (partials_of found.items))) }
{
    let mut waiting = Vec::new(alloc);
    waiting.push(state)?;
    let mut found = Vec::new(alloc);
    found.push(Partial {
        waiting,
        states: SmallVec::new(alloc),
        cost: S::one(),
    })?;
    for item in items {
        let Some(new) = next(alloc, normal, item, found, most)? else {
            return Ok(None);
        };
        found = new;
    }
    Ok(Some(found))
}

// The matches that were found.
fn list_matches(alloc: Global, found: Vec<Partial>) -> Result<Vec<Match>, AllocError>
    ensures { IfOk result (λ ms. ms.items ≡ map matched found.items) }
{
    let mut matches = Vec::with_capacity(alloc, found.len())?;
    for partial in found {
        let Partial { states, cost, .. } = partial;
        matches.push(Match { cost, states })?;
    }
    Ok(matches)
}

/// The matches of a side from a state: for each list of states at its holes the least cost, of at
/// most `MOST`, of running the grammar from the state through the side down to them. Each list
/// occurs once, and they ascend. A lone hole gives the state itself at the cost of the product of
/// nothing. None where it gives up, since more partial matches than `most` came up;
/// `search_matches` is for these. Err only if memory is refused.
///
/// It reads the side once from the front, and keeps the cheapest of all ways to the same waiting
/// states and the same states at holes. Cost: for each label at most `most` partial matches, and
/// for each the rules of one state, with a list of states.
pub fn few_matches<S: Semiring, P>(
    alloc: Global,
    normal: &Normal<S>,
    state: u32,
    side: &Side<P>,
    most: u64,
) -> Result<Option<Vec<Match>>, AllocError>
    requires { state < length normal.now.names }
    ensures { IfOk result (λ few. IfSome few (λ ms. AreMatches S.product normal.now.rules side.now
        state ms.items)) }
{
    normal.grammar().is_sound();
    let Some(found) = find(alloc, normal, state, side.items(), most)? else {
        return Ok(None);
    };
    let kept = merge(alloc, found)?;
    let all = list_matches(alloc, kept)?;
    Ok(Some(all))
}
