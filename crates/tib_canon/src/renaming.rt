// Rules with new numbers for their states.
ghost use Rattle.std.specs.Prelude.{◌≡◌, ◌<◌, [], ◌∷◌, ℕ, List, length, map, IfOk, OnOk};
ghost use Rattle.tib_tree.specs.Trees.{IsOneTree};
ghost use Rattle.tib_grammar.specs.Items.{pairs_of, holes_in};
ghost use Rattle.tib_grammar.specs.Range.{AllBelow};
ghost use Rattle.tib_grammar.specs.Renaming.{number_in};
ghost use Rattle.tib_grammar.specs.Sides.{side_map};
ghost use Rattle.tib_tree.specs.Trees.{preorder_of};
ghost use Rattle.tib_transducer.specs.Range.{IsWithin, AreWithin};
ghost use Rattle.tib_transducer.specs.Rules.{states_in};
ghost use Rattle.tib_transducer.specs.NamedPairs.{named_pair, named_item};
ghost use Rattle.tib_key_edges.specs.Named.{named_transducer_rule};
ghost use Rattle.tib_canon.specs.RuleItems.{states_among};

use std::alloc::{AllocError, Global};
use tib_grammar::{Item, Side};
use tib_transducer::{Pair, TransducerRule};
use tib_tree::ShapeError;

// An item with the new number of its state.
fn renamed_item(item: &Item<Pair<u32>>, numbers: &[u32]) -> Item<Pair<u32>>
    requires { AllBelow (length numbers.now) (states_among (item.now ∷ [])) }
    ensures { result ≡ named_item (number_in numbers.now) item.now }
{
    match item {
        Item::Label { label, rank } => Item::Label {
            label: *label,
            rank: *rank,
        },
        Item::Hole(pair) => Item::Hole(Pair {
            state: numbers[pair.state as usize],
            variable: pair.variable,
        }),
    }
}

// Items with the new numbers of their states.
fn renamed_items(
    alloc: Global,
    items: &[Item<Pair<u32>>],
    numbers: &[u32],
) -> Result<Vec<Item<Pair<u32>>>, AllocError>
    requires { AllBelow (length numbers.now) (states_among items.now) }
    ensures { IfOk result (λ v. v.items ≡ map (named_item (number_in numbers.now)) items.now) }
{
    let mut renamed = Vec::with_capacity(alloc, items.len())?;
    for item in items {
        renamed.push(renamed_item(item, numbers))?;
    }
    Ok(renamed)
}

// The side with some items.
fn side_of(items: Vec<Item<Pair<u32>>>) -> Result<Side<Pair<u32>>, AllocError>
    requires { IsOneTree (pairs_of items.items) }
    ensures { IfOk result (λ s. preorder_of s ≡ pairs_of items.items) }
{
    if items.len() > 4_294_967_295 {
        return Err(AllocError);
    }
    match Side::from_preorder(items) {
        Ok(side) => Ok(side),
        Err(ShapeError::NotATree) => unreachable!(),
        Err(ShapeError::OutOfMemory) => unreachable!(),
    }
}

// A right-hand side with the new numbers of its states.
fn renamed_side(
    alloc: Global,
    side: &Side<Pair<u32>>,
    numbers: &[u32],
) -> Result<Side<Pair<u32>>, AllocError>
    requires { AllBelow (length numbers.now) (states_in side.now) }
    ensures { IfOk result (λ s. s ≡ side_map (named_pair (number_in numbers.now)) side.now) }
{
    let items = renamed_items(alloc, side.items(), numbers)?;
    side_of(items)
}

// Gives the states of a rule their new numbers. What it reads stays where it is.
fn rename_rule(
    alloc: Global,
    rule: &mut TransducerRule<u32>,
    numbers: &[u32],
) -> Result<(), AllocError>
    requires { IsWithin (length numbers.now) rule.old }
    ensures { OnOk result (rule.new ≡ named_transducer_rule (number_in numbers.now) rule.old) }
{
    let right = renamed_side(alloc, &rule.right, numbers)?;
    rule.state = numbers[rule.state as usize];
    rule.right = right;
    Ok(())
}

/// The rules, with each state replaced by its number in a list. Err only if memory is refused; the
/// rules are then gone. Worst case: one pass over the items of the right-hand sides; no rule is
/// moved.
pub(crate) fn renamed_rules(
    alloc: Global,
    rules: Vec<TransducerRule<u32>>,
    numbers: &[u32],
) -> Result<Vec<TransducerRule<u32>>, AllocError>
    requires { AreWithin (length numbers.now) rules.items }
    ensures { IfOk result (λ v. v.items ≡ map (named_transducer_rule (number_in numbers.now))
        rules.items) }
{
    let mut rules = rules;
    for n in 0..rules.len() {
        rename_rule(alloc, &mut rules[n], numbers)?;
    }
    Ok(rules)
}
