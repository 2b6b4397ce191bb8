//! Rules of tree transducers that read what the rules of a tree-to-string transducer read, for the
//! restrictions of these.

ghost use Rattle.std.specs.Prelude.{◌≡◌, IfOk, map};
ghost use Rattle.tib_tree.specs.Trees.{none};
ghost use Rattle.tib_grammar.specs.Sides.{label};
ghost use Rattle.tib_image.specs.Restrictions.{as_rule, restricted_labels};

use std::alloc::{AllocError, Global};
use tib_apply::Restrictions;
use tib_grammar::{Item, Side};
use tib_strings::StringRule;
use tib_transducer::{Pair, TransducerRule, Variable};

/// A copy of an item.
fn copy_item(item: &Item<Variable>) -> Item<Variable>
    ensures { result ≡ item.now }
{
    match item {
        Item::Label { label, rank } => Item::Label {
            label: *label,
            rank: *rank,
        },
        Item::Hole(variable) => Item::Hole(Variable {
            number: variable.number,
            label: variable.label,
        }),
    }
}

/// A copy of a left-hand side. Err if memory is refused, or it has more than 4,000,000,000 items.
fn copy_side(alloc: Global, side: &Side<Variable>) -> Result<Side<Variable>, AllocError>
    ensures { IfOk result (λ s. s ≡ side.now) }
{
    let items = side.items();
    if items.len() > 4_000_000_000 {
        return Err(AllocError);
    }
    let mut copies = Vec::with_capacity(alloc, items.len())?;
    for item in items {
        copies.push(copy_item(item))?;
    }
    match Side::from_preorder(copies) {
        Ok(copy) => Ok(copy),
        Err(_) => unreachable!(),
    }
}

/// The side of the label 0 alone. Err only if memory is refused.
fn no_output(alloc: Global) -> Result<Side<Pair<u32>>, AllocError>
    ensures { IfOk result (λ s. s ≡ record { label = label 0; kids = none }) }
{
    let items = Vec::from_array(alloc, [Item::Label { label: 0, rank: 0 }])?;
    match Side::from_preorder(items) {
        Ok(side) => Ok(side),
        Err(_) => unreachable!(),
    }
}

/// A rule that reads what another reads. Err as `copy_side`.
fn reader_of(alloc: Global, rule: &StringRule<u32>) -> Result<TransducerRule<u32>, AllocError>
    ensures { IfOk result (λ r. r ≡ as_rule rule.now) }
{
    let left = copy_side(alloc, &rule.left)?;
    let right = no_output(alloc)?;
    Ok(TransducerRule {
        state: rule.state,
        left,
        right,
        cost: rule.cost,
    })
}

/// Rules that read what others read. Err as `copy_side`.
fn readers_of(
    alloc: Global,
    rules: &[StringRule<u32>],
) -> Result<Vec<TransducerRule<u32>>, AllocError>
    ensures { IfOk result (λ rs. rs.items ≡ map as_rule rules.now) }
{
    let mut readers = Vec::with_capacity(alloc, rules.len())?;
    for rule in rules {
        readers.push(reader_of(alloc, rule)?)?;
    }
    Ok(readers)
}

/// The restrictions of the variables of some rules. Err if memory is refused, or a left-hand side
/// has more than 4,000,000,000 items, or the variables more than 4,000,000,000 labels. Its time is
/// that of a few passes over the left-hand sides.
pub(crate) fn restrictions_of(
    alloc: Global,
    rules: &[StringRule<u32>],
) -> Result<Restrictions, AllocError>
    ensures { IfOk result (λ r. r ≡ restricted_labels rules.now) }
{
    let readers = readers_of(alloc, rules)?;
    Restrictions::new(alloc, &readers)
}
