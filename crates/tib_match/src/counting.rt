//! A lower bound on how many matches a side has, in one pass over its items.

ghost use Rattle.std.specs.Prelude.{◌≡◌, ℕ, ◌<◌, ◌≤◌, ◌+◌, ◌-◌, ◌∷◌, [], drop, length, IfOk, IfSome, OnOk, IsTrue};
ghost use Rattle.tib_tree.specs.Trees.{HasChildren};
ghost use Rattle.tib_grammar.specs.Sides.{holes_of};
ghost use Rattle.tib_grammar.specs.Items.{pair_of, pairs_of, holes_in};
ghost use Rattle.tib_normal.specs.Rules.{positions_with};
ghost use Rattle.tib_match.specs.Counting.{AreCounted, BeginWithHoles, HasLists, StacksChain, StacksOne};
ghost use Rattle.tib_match.specs.Searching.{AreMoreWhere, IsWithin};
ghost use Rattle.tib_match.specs.declared.hole_cost.HoleCost.TheVariants.{Free};

use crate::hole_cost::HoleCost;
use crate::plenty::{Plenties, Plenty, hole_plenties, label_plenties, plenty_along};
use std::alloc::{AllocError, Global};
use tib_cost::{Cost, Semiring};
use tib_grammar::{Item, Side};
use tib_normal::Normal;
use tib_tree::Label;

// With how many holes some items begin, up to a number.
fn leading_holes<P>(items: &[Item<P>], most: u32) -> u32
    ensures holes { BeginWithHoles result (pairs_of items.now) }
    ensures few { result ≤ most }
{
    let mut many = 0;
    while many < most && (many as usize) < items.len() {
        let Item::Hole(_) = &items[many as usize] else {
            return many;
        };
        many += 1;
    }
    many
}

// Puts the column of a label in place of those of its children, of which this many are holes from
// the first one on.
fn stack_label<S: Semiring>(
    alloc: Global,
    normal: &Normal<S>,
    label: Label,
    rank: u32,
    front: u32,
    columns: &mut Vec<Plenties>,
) -> Result<(), AllocError>
    requires { rank ≤ length columns.old.items }
    ensures many { OnOk result (length columns.new.items ≡ length columns.old.items - rank + 1) }
    ensures stacked { OnOk result (StacksChain S.product normal.now.rules
        (positions_with label rank normal.now.rules) front columns.old.items
        columns.new.items) }
{
    let from = columns.len() - rank as usize;
    let below = &columns[from..];
    let column = label_plenties(alloc, normal, label, rank, front as usize, below)?;
    columns.truncate(from);
    columns.push(column)?;
    Ok(())
}

// Puts the column of the last of some holes after others, and returns how many are left.
fn stack_hole<S: Semiring>(
    alloc: Global,
    normal: &Normal<S>,
    costs: &[HoleCost],
    holes: usize,
    columns: &mut Vec<Plenties>,
) -> Result<usize, AllocError>
    requires some { 0 < holes }
    requires costs { holes ≤ length costs.now }
    ensures { IfOk result (λ left. StacksOne costs.now Free holes left columns.old.items
        columns.new.items) }
{
    let left = holes - 1;
    let column = hole_plenties(alloc, normal, &costs[left])?;
    columns.push(column)?;
    Ok(left)
}

// Puts the column of an item in place of those of its children, where others follow it, and returns
// how many holes come before it.
fn stack_item<S: Semiring, P>(
    alloc: Global,
    normal: &Normal<S>,
    item: &Item<P>,
    others: &[Item<P>],
    costs: &[HoleCost],
    holes: usize,
    columns: &mut Vec<Plenties>,
) -> Result<usize, AllocError>
    requires room { (pair_of item.now).1 ≤ length columns.old.items }
    requires some { length (holes_in (item.now ∷ [])) ≤ holes }
    requires costs { holes ≤ length costs.now }
    ensures many { IfOk result (λ left. length columns.new.items
        ≡ length columns.old.items - (pair_of item.now).1 + 1) }
    ensures left { IfOk result (λ left. left + length (holes_in (item.now ∷ [])) ≡ holes) }
    ensures columns { IfOk result (λ left.
        AreCounted S.product normal.now.rules (pairs_of others.now) (drop holes costs.now)
        columns.old.items →
        AreCounted S.product normal.now.rules (pair_of item.now ∷ pairs_of others.now)
        (drop left costs.now) columns.new.items) }
{
    match item {
        Item::Label { label, rank } => {
            normal.grammar();
            let front = leading_holes(others, *rank);
            stack_label(alloc, normal, *label, *rank, front, columns)?;
            Ok(holes)
        }
        Item::Hole(_) => stack_hole(alloc, normal, costs, holes, columns),
    }
}

// How many lists of states there are at least to which some items are read from a state, and for at
// most which cost each.
fn count_lists<S: Semiring, P>(
    alloc: Global,
    normal: &Normal<S>,
    state: u32,
    items: &[Item<P>],
    costs: &[HoleCost],
) -> Result<Option<Plenty>, AllocError>
    requires nested { HasChildren (pairs_of items.now) }
    requires costs { length costs.now ≡ length (holes_in items.now) }
    ensures { IfOk result (λ found. IfSome found (λ p. HasLists S.product normal.now.rules
        (pairs_of items.now) costs.now (state ∷ []) p.count p.worst)) }
{
    let mut columns = Vec::new(alloc);
    let mut holes = costs.len();
    let mut i = items.len();
    while i > 0 {
        i -= 1;
        let others = &items[i + 1..];
        holes = stack_item(alloc, normal, &items[i], others, costs, holes, &mut columns)?;
    }
    let root = [Item::Hole(state)];
    Ok(plenty_along::<S>(&columns, &root))
}

/// Whether there are shown to be more than `most` matches of a side from a state that cost no more
/// than `MOST` with a cost above them and with what the states at the holes cost. Where it says no
/// there may be more all the same. Err only if memory is refused.
///
/// It takes one pass over the side, from the last item to the first, and has for each state at a
/// node a lower bound on the number of lists of states below it, with the greatest of their least
/// costs: the product of those of the children of one rule. Rules of one state are added up only
/// where the states at the holes with which their children begin ascend from rule to rule, since
/// their lists differ then. Cost: for each item one pass over the states, and one over the rules of
/// its label.
pub(crate) fn has_more<S: Semiring, P>(
    alloc: Global,
    normal: &Normal<S>,
    state: u32,
    side: &Side<P>,
    above: Cost,
    costs: &[HoleCost],
    most: u64,
) -> Result<bool, AllocError>
    requires { length costs.now ≡ length (holes_of side.now) }
    ensures { IfOk result (λ more. IsTrue more → AreMoreWhere S.product normal.now.rules side.now
        state (IsWithin S.product above costs.now) most) }
{
    normal.grammar();
    let Some(found) = count_lists(alloc, normal, state, side.items(), costs)? else {
        return Ok(false);
    };
    let Some(_whole) = S::times(above, found.worst) else {
        return Ok(false);
    };
    Ok(found.count > most)
}

/// The lower bound of `has_more` on the number of matches, whatever they cost; 0 where it has none.
/// It serves to choose a way to the matches, and no clause depends on it. Cost and errors are those
/// of `has_more`.
pub(crate) fn matches_shown<S: Semiring, P>(
    alloc: Global,
    normal: &Normal<S>,
    state: u32,
    side: &Side<P>,
    costs: &[HoleCost],
) -> Result<u64, AllocError>
    requires { length costs.now ≡ length (holes_of side.now) }
{
    match count_lists(alloc, normal, state, side.items(), costs)? {
        Some(found) => Ok(found.count),
        None => Ok(0),
    }
}
