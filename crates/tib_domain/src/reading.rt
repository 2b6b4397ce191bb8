// Rules that read what the rules of a transducer read.
ghost use Rattle.std.specs.Prelude.{◌≡◌, ◌++◌, nat_eq, map, OnOk, IfOk};
ghost use Rattle.std.specs.List.{list_any};
ghost use Rattle.tib_grammar.specs.Items.{holes_in};
ghost use Rattle.tib_transducer.specs.Counting.{numbers_in};
ghost use Rattle.tib_domain.specs.Reading.{left_out, pairs_from, only_pairs, reading_rule};

use std::alloc::{AllocError, Global};
use tib_grammar::Item;
use tib_strings::{StringRule, Word, Words};
use tib_transducer::{Pair, TransducerRule, Variable};

// Whether a pair among some items has the variable.
fn stands_among(items: &[Item<Pair<u32>>], variable: u32) -> bool
    ensures { result ≡ list_any (nat_eq variable) (numbers_in items.now) }
{
    for item in items {
        if let Item::Hole(pair) = item {
            if variable == pair.variable {
                return true;
            }
        }
    }
    false
}

// Appends the pairs among some items to a list.
fn put_pairs(items: &[Item<Pair<u32>>], tokens: &mut Vec<Word<u32>>) -> Result<(), AllocError>
    ensures { OnOk result (tokens.new.items
        ≡ tokens.old.items ++ only_pairs (holes_in items.now)) }
{
    for item in items {
        if let Item::Hole(pair) = item {
            let (state, variable) = (pair.state, pair.variable);
            tokens.push(Word::Hole(Pair { state, variable }))?;
        }
    }
    Ok(())
}

// Appends the pair with a state of each variable of a left side that the right side leaves out.
fn put_left_out(
    left: &[Item<Variable>],
    right: &[Item<Pair<u32>>],
    state: u32,
    tokens: &mut Vec<Word<u32>>,
) -> Result<(), AllocError>
    ensures { OnOk result (tokens.new.items ≡ tokens.old.items
        ++ only_pairs (pairs_from state (left_out (numbers_in right.now) (holes_in left.now)))) }
{
    for item in left {
        if let Item::Hole(found) = item {
            let variable = found.number;
            if !stands_among(right, variable) {
                tokens.push(Word::Hole(Pair { state, variable }))?;
            }
        }
    }
    Ok(())
}

/// A rule that reads what a rule of the transducer reads, where the state `any` takes what the rule
/// leaves out. Err only if memory is refused. Cost: one pass over the right side for each variable
/// of the left side.
pub(crate) fn reading_of(
    alloc: Global,
    rule: TransducerRule<u32>,
    any: u32,
) -> Result<StringRule<u32>, AllocError>
    ensures { IfOk result (λ r. r ≡ reading_rule any rule) }
{
    let TransducerRule {
        state,
        left,
        right,
        cost,
    } = rule;
    let mut tokens = Vec::new(alloc);
    let outputs = right.items();
    put_pairs(outputs, &mut tokens)?;
    put_left_out(left.items(), outputs, any, &mut tokens)?;
    Ok(StringRule {
        state,
        left,
        right: Words::from_list(tokens),
        cost,
    })
}
