// The alphabet of a transducer.
ghost use Rattle.std.specs.Prelude.{◌≡◌, ◌∷◌, [], OnOk, IfOk};
ghost use Rattle.indexmap.specs.IndexSet.{insert_all};
ghost use Rattle.tib_grammar.specs.Items.{pairs_of};
ghost use Rattle.tib_domain.specs.Alphabet.{same_symbol, symbols_in, alphabet};

use indexmap::IndexSet;
use std::alloc::{AllocError, Global};
use tib_grammar::Item;
use tib_transducer::{TransducerRule, Variable};
use tib_tree::Label;

// Adds an item that is a label to a set, with its number of children.
fn add_symbol(symbols: &mut IndexSet<(Label, u32)>, item: &Item<Variable>) -> Result<(), AllocError>
    ensures { OnOk result (symbols.new.keys
        ≡ insert_all same_symbol symbols.old.keys (symbols_in (pairs_of (item.now ∷ [])))) }
{
    match item {
        Item::Label { label, rank } => {
            symbols.insert((*label, *rank))?;
            Ok(())
        }
        Item::Hole(_) => Ok(()),
    }
}

// Adds the labels among some items to a set, each with its number of children.
fn add_symbols(
    symbols: &mut IndexSet<(Label, u32)>,
    items: &[Item<Variable>],
) -> Result<(), AllocError>
    ensures { OnOk result (symbols.new.keys
        ≡ insert_all same_symbol symbols.old.keys (symbols_in (pairs_of items.now))) }
{
    for node in items {
        add_symbol(symbols, node)?;
    }
    Ok(())
}

// The keys of a set, in its order.
fn list_keys(alloc: Global, keys: IndexSet<(Label, u32)>) -> Result<Vec<(Label, u32)>, AllocError>
    ensures { IfOk result (λ r. r.items ≡ keys.keys) }
{
    Vec::from_iter(alloc, keys)
}

/// The labels of the left sides of some rules with their numbers of children, each once, in the
/// order of their first places. Err only if memory is refused. Cost: one pass over the left sides.
pub(crate) fn alphabet_of(
    alloc: Global,
    rules: &[TransducerRule<u32>],
) -> Result<Vec<(Label, u32)>, AllocError>
    ensures { IfOk result (λ v. v.items ≡ alphabet rules.now) }
{
    let mut symbols = IndexSet::new(alloc);
    for rule in rules {
        add_symbols(&mut symbols, rule.left.items())?;
    }
    list_keys(alloc, symbols)
}
