// The places of labels in the order of their texts.
ghost use Rattle.std.specs.Prelude.{◌≡◌, ◌<◌, length, IfOk};
ghost use Rattle.tib_tree.specs.Growth.{text_at};
ghost use Rattle.tib_ranked_trees.specs.Ranked.{ArePlaces, AreRanksOf};
ghost use Rattle.tib_ranked_trees.specs.TextOrder.{text_cmp, AreLabelsBelow, IsTextOrder};

use std::alloc::{AllocError, Global};
use std::cmp::Ordering;
use tib_tree::{Label, Labels};

// The text of a label, or the empty text if there is no such label.
fn text_of(labels: &Labels, label: Label) -> &[u8]
    ensures { result.now ≡ text_at labels.now label }
{
    if (label as usize) < labels.len() {
        return labels.text(label);
    }
    &[]
}

// The order of two labels by their texts.
fn compare_texts(labels: &Labels, one: Label, other: Label) -> Ordering
    ensures { result ≡ text_cmp labels.now one other }
{
    text_of(labels, one).cmp(text_of(labels, other))
}

// The labels from 0 on.
fn all_labels(alloc: Global, labels: &Labels) -> Result<Vec<Label>, AllocError>
    ensures { IfOk result (λ order. AreLabelsBelow (length labels.now) order.items) }
{
    let mut order = Vec::new(alloc);
    let mut label: u32 = 0;
    while (label as usize) < labels.len() {
        order.push(label)?;
        label += 1;
    }
    Ok(order)
}

// The labels in the order of their texts.
fn sorted_labels(alloc: Global, labels: &Labels) -> Result<Vec<Label>, AllocError>
    ensures { IfOk result (λ order. IsTextOrder labels.now order.items) }
{
    let mut order = all_labels(alloc, labels)?;
    order.sort_by(|one, other| compare_texts(labels, *one, *other))?;
    Ok(order)
}

// The place of each label in an order of all of them.
fn places_in(alloc: Global, labels: &Labels, order: &[Label]) -> Result<Vec<u32>, AllocError>
    requires { IsTextOrder labels.now order.now }
    ensures order { IfOk result (λ ranks. AreRanksOf labels.now ranks.items) }
    ensures places { IfOk result (λ ranks. ArePlaces labels.now ranks.items) }
{
    let count = labels.len();
    let mut ranks = vec![in alloc; 0u32; count]?;
    for place in 0..order.len() {
        ranks[order[place] as usize] = place as u32;
    }
    Ok(ranks)
}

/// The rank of each label: its place, from 0, in the order of the labels' texts by their bytes. Err
/// only if memory is refused. Worst case: O(n log n) comparisons of texts for n labels.
pub fn label_ranks(alloc: Global, labels: &Labels) -> Result<Vec<u32>, AllocError>
    ensures order { IfOk result (λ ranks. AreRanksOf labels.now ranks.items) }
    ensures places { IfOk result (λ ranks. ArePlaces labels.now ranks.items) }
{
    let order = sorted_labels(alloc, labels)?;
    places_in(alloc, labels, &order)
}
