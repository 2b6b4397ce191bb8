// A copy of a grammar, for a call that takes one apart.
ghost use Rattle.std.specs.Prelude.{◌≡◌, map, IfOk};

use std::alloc::{AllocError, Global};
use tib_grammar::{Grammar, Item, Names, Rule, Side};

// A copy of an item.
fn copied_item(item: &Item<u32>) -> Item<u32>
    ensures { result ≡ item.now }
{
    match item {
        Item::Label { label, rank } => Item::Label {
            label: *label,
            rank: *rank,
        },
        Item::Hole(state) => Item::Hole(*state),
    }
}

// A copy of some items.
fn copied_items(alloc: Global, items: &[Item<u32>]) -> Result<Vec<Item<u32>>, AllocError>
    ensures { IfOk result (λ copies. copies.items ≡ items.now) }
{
    let mut copies = Vec::with_capacity(alloc, items.len())?;
    for item in items {
        copies.push(copied_item(item))?;
    }
    Ok(copies)
}

// A copy of a side. Err also where it has more than four billion items.
fn copied_side(alloc: Global, side: &Side<u32>) -> Result<Side<u32>, AllocError>
    ensures { IfOk result (λ copy. copy ≡ side.now) }
{
    let items = copied_items(alloc, side.items())?;
    if items.len() > 4_000_000_000 {
        return Err(AllocError);
    }
    match Side::from_preorder(items) {
        Ok(copy) => Ok(copy),
        Err(_) => unreachable!(),
    }
}

// A copy of some rules.
fn copied_rules(alloc: Global, rules: &[Rule<u32>]) -> Result<Vec<Rule<u32>>, AllocError>
    ensures { IfOk result (λ copies. copies.items ≡ rules.now) }
{
    let mut copies = Vec::with_capacity(alloc, rules.len())?;
    for rule in rules {
        let right = copied_side(alloc, &rule.right)?;
        copies.push(Rule {
            left: rule.left,
            right,
            cost: rule.cost,
        })?;
    }
    Ok(copies)
}

// The texts of some names.
fn texts_of(alloc: Global, names: &Names) -> Result<Vec<Vec<u8>>, AllocError>
    ensures { IfOk result (λ texts. map (λ text. text.items) texts.items ≡ names.now) }
{
    let mut texts = Vec::with_capacity(alloc, names.len() as usize)?;
    for state in 0..names.len() {
        texts.push(Vec::from_slice(alloc, names.text(state))?)?;
    }
    Ok(texts)
}

// A copy of some names.
fn copied_names(alloc: Global, names: &Names) -> Result<Names, AllocError>
    ensures { IfOk result (λ copies. copies ≡ names.now) }
{
    names.is_sound();
    let texts = texts_of(alloc, names)?;
    match Names::from_list(alloc, texts)? {
        Some(copies) => Ok(copies),
        None => unreachable!(),
    }
}

/// A copy of a grammar. Err only if memory is refused, or a right side has more than four billion
/// items. Cost: one pass over the names and the right sides, and one look-up by hash for each name.
pub fn copied<S>(alloc: Global, grammar: &Grammar<S>) -> Result<Grammar<S>, AllocError>
    ensures { IfOk result (λ copy. copy ≡ grammar.now) }
{
    grammar.is_sound();
    let names = copied_names(alloc, grammar.names())?;
    let rules = copied_rules(alloc, grammar.rule_list())?;
    match Grammar::new(names, rules) {
        Some(copy) => Ok(copy),
        None => unreachable!(),
    }
}
