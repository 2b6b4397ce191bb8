// The rules of the state that takes any tree.
ghost use Rattle.std.specs.Prelude.{◌≡◌, ◌<◌, ◌^◌, ◌-◌, map, IfOk};
ghost use Rattle.std.specs.List.{range_with_len};
ghost use Rattle.tib_grammar.specs.Sides.{over};
ghost use Rattle.tib_domain.specs.Reading.{pairs_from, only_pairs, plain, any_rule};

use std::alloc::{AllocError, Global};
use tib_cost::Semiring;
use tib_grammar::{Item, Side};
use tib_strings::{StringRule, Word, Words};
use tib_transducer::{Pair, Variable};
use tib_tree::Label;

// A label over this many variables without labels.
fn plain_side(alloc: Global, label: Label, rank: u32) -> Result<Side<Variable>, AllocError>
    requires { rank < 2 ^ 32 - 1 }
    ensures { IfOk result (λ side. side ≡ over label (map plain (range_with_len 0 rank))) }
{
    let mut items = Vec::with_capacity(alloc, rank as usize + 1)?;
    items.push(Item::Label { label, rank })?;
    for number in 0..rank {
        items.push(Item::Hole(Variable {
            number,
            label: None,
        }))?;
    }
    match Side::from_preorder(items) {
        Ok(side) => Ok(side),
        Err(_) => unreachable!(),
    }
}

// The pairs of a state with this many variables.
fn pairs_with(alloc: Global, state: u32, many: u32) -> Result<Words<u32>, AllocError>
    ensures { IfOk result (λ words. words
        ≡ only_pairs (pairs_from state (range_with_len 0 many))) }
{
    let mut tokens = Vec::with_capacity(alloc, many as usize)?;
    for variable in 0..many {
        tokens.push(Word::Hole(Pair { state, variable }))?;
    }
    Ok(Words::from_list(tokens))
}

/// The rule of the state `any` for a label with this many children. Err if memory is refused, or
/// there are 2^32 - 1 children. Cost: one step for each child.
pub(crate) fn any_of<S: Semiring>(
    alloc: Global,
    label: Label,
    rank: u32,
    any: u32,
) -> Result<StringRule<u32>, AllocError>
    ensures { IfOk result (λ r. r ≡ any_rule any (label, rank)) }
{
    if rank == u32::MAX {
        return Err(AllocError);
    }
    let left = plain_side(alloc, label, rank)?;
    let right = pairs_with(alloc, any, rank)?;
    Ok(StringRule {
        state: any,
        left,
        right,
        cost: S::one(),
    })
}
