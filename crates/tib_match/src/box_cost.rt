//! The least cost of a match in a box, from a column of least costs by state for each node of the
//! side.

ghost use Rattle.std.specs.Prelude.{◌≡◌, ℕ, ◌<◌, ◌≤◌, ◌+◌, ◌-◌, ◌∷◌, [], List, drop, length, IfOk, OnOk};
ghost use Rattle.tib_cost.specs.Least.{IsLeast};
ghost use Rattle.tib_grammar.specs.Sides.{Symbol};
ghost use Rattle.tib_tree.specs.Trees.{HasChildren};
ghost use Rattle.tib_grammar.specs.Items.{pair_of, pairs_of, holes_in};
ghost use Rattle.tib_match.specs.Boxes.{all_spanned, IsReadBox, AreColumns};
ghost use Rattle.tib_match.specs.Searching.{StacksLabel, StacksHole};

use crate::columns::{Column, hole_column, label_column, product_along};
use crate::hole_cost::HoleCost;
use crate::spans::Span;
use std::alloc::{AllocError, Global};
use tib_cost::{Cost, Semiring};
use tib_grammar::Item;
use tib_normal::Normal;
use tib_tree::Label;

// Puts the column of a label in place of those of its children.
fn stack_label<S: Semiring>(
    alloc: Global,
    normal: &Normal<S>,
    label: Label,
    rank: u32,
    columns: &mut Vec<Column>,
) -> Result<(), AllocError>
    requires { rank ≤ length columns.old.items }
    ensures { OnOk result (StacksLabel S.product normal.now.rules label rank columns.old.items
        columns.new.items) }
{
    let from = columns.len() - rank as usize;
    let column = label_column(alloc, normal, label, rank, &columns[from..])?;
    columns.truncate(from);
    columns.push(column)?;
    Ok(())
}

// Puts the column of the last of some holes after others, and returns how many are left.
fn stack_hole<S: Semiring>(
    alloc: Global,
    costs: &[HoleCost],
    spans: &[Span],
    holes: usize,
    columns: &mut Vec<Column>,
) -> Result<usize, AllocError>
    requires some { 0 < holes }
    requires costs { holes ≤ length costs.now }
    requires spans { holes ≤ length spans.now }
    ensures { IfOk result (λ left. StacksHole costs.now spans.now holes left columns.old.items
        columns.new.items) }
{
    let left = holes - 1;
    let column = hole_column::<S>(alloc, &costs[left], &spans[left])?;
    columns.push(column)?;
    Ok(left)
}

// Puts the column of an item in place of those of its children, and returns how many holes come
// before it.
fn stack_item<S: Semiring, P>(
    alloc: Global,
    normal: &Normal<S>,
    item: &Item<P>,
    costs: &[HoleCost],
    spans: &[Span],
    holes: usize,
    columns: &mut Vec<Column>,
) -> Result<usize, AllocError>
    requires room { (pair_of item.now).1 ≤ length columns.old.items }
    requires some { length (holes_in (item.now ∷ [])) ≤ holes }
    requires costs { holes ≤ length costs.now }
    requires spans { holes ≤ length spans.now }
    ensures many { IfOk result (λ left. length columns.new.items
        ≡ length columns.old.items - (pair_of item.now).1 + 1) }
    ensures left { IfOk result (λ left. left + length (holes_in (item.now ∷ [])) ≡ holes) }
    ensures columns { IfOk result (λ left. (xs : List (Symbol ℕ P × ℕ)) →
        AreColumns S.product normal.now.rules xs (all_spanned (drop holes spans.now)
        (drop holes costs.now)) columns.old.items →
        AreColumns S.product normal.now.rules (pair_of item.now ∷ xs)
        (all_spanned (drop left spans.now) (drop left costs.now)) columns.new.items) }
{
    match item {
        Item::Label { label, rank } => {
            normal.grammar();
            stack_label(alloc, normal, *label, *rank, columns)?;
            Ok(holes)
        }
        Item::Hole(_) => stack_hole::<S>(alloc, costs, spans, holes, columns),
    }
}

/// The least cost of running the grammar from a state along the items of a side down to states in
/// their spans, with what these states cost; none where there is none of at most `MOST`. Err only
/// if memory is refused. Cost: for each item one pass over the states, and one over the rules of
/// its label.
pub(crate) fn least_cost<S: Semiring, P>(
    alloc: Global,
    normal: &Normal<S>,
    state: u32,
    items: &[Item<P>],
    costs: &[HoleCost],
    spans: &[Span],
) -> Result<Option<Cost>, AllocError>
    requires nested { HasChildren (pairs_of items.now) }
    requires costs { length costs.now ≡ length (holes_in items.now) }
    requires spans { length spans.now ≡ length (holes_in items.now) }
    ensures { IfOk result (IsLeast (IsReadBox S.product normal.now.rules (pairs_of items.now)
        (state ∷ []) (all_spanned spans.now costs.now))) }
{
    let mut columns = Vec::new(alloc);
    let mut holes = costs.len();
    let mut i = items.len();
    while i > 0 {
        i -= 1;
        holes = stack_item(alloc, normal, &items[i], costs, spans, holes, &mut columns)?;
    }
    let root = [Item::Hole(state)];
    Ok(product_along::<S>(&columns, &root))
}
