// The tree-to-string transducer of the domain.
ghost use Rattle.std.specs.Prelude.{◌≡◌, ◌+◌, ◌++◌, ◌<◌, ◌^◌, length, map, OnOk, IfOk};
ghost use Rattle.tib_canon.specs.Canonical.{names_of};
ghost use Rattle.tib_transducer.specs.Classes.{AreLinear};
ghost use Rattle.tib_strings.specs.Range.{AreWithin, AreShaped, AreLinear as AreLinearOnStrings, AreNondeleting};
ghost use Rattle.tib_domain.specs.Alphabet.{alphabet};
ghost use Rattle.tib_domain.specs.Domain.{HasDomainSeries};
ghost use Rattle.tib_domain.specs.Reading.{reading_rule, any_rule, domain_rules, domain_of};

use crate::alphabet::alphabet_of;
use crate::any::any_of;
use crate::reading::reading_of;
use std::alloc::{AllocError, Global};
use tib_canon::numbered_names;
use tib_cost::Semiring;
use tib_strings::{StringRule, StringTransducer};
use tib_transducer::{Transducer, TransducerRule};
use tib_tree::Label;

// The rules that read what some rules read.
fn readings(
    alloc: Global,
    rules: Vec<TransducerRule<u32>>,
    any: u32,
) -> Result<Vec<StringRule<u32>>, AllocError>
    ensures { IfOk result (λ v. v.items ≡ map (reading_rule any) rules.items) }
{
    let mut moves = Vec::with_capacity(alloc, rules.len())?;
    for rule in rules {
        moves.push(reading_of(alloc, rule, any)?)?;
    }
    Ok(moves)
}

// Appends the rule of the state `any` for each symbol.
fn put_any<S: Semiring>(
    alloc: Global,
    symbols: &[(Label, u32)],
    any: u32,
    moves: &mut Vec<StringRule<u32>>,
) -> Result<(), AllocError>
    ensures { OnOk result (moves.new.items ≡ moves.old.items ++ map (any_rule any) symbols.now) }
{
    for (label, rank) in symbols {
        moves.push(any_of::<S>(alloc, *label, *rank, any)?)?;
    }
    Ok(())
}

// All rules of the transducer of the domain, where `any` is the number of its last state.
fn all_moves<S: Semiring>(
    alloc: Global,
    transducer: Transducer<S>,
    any: u32,
) -> Result<Vec<StringRule<u32>>, AllocError>
    ensures { IfOk result (λ v. v.items ≡ domain_rules any transducer.rules) }
{
    let symbols = alphabet_of(alloc, transducer.rule_list())?;
    let (_, rules) = transducer.into_parts();
    let mut moves = readings(alloc, rules, any)?;
    put_any::<S>(alloc, &symbols, any, &mut moves)?;
    Ok(moves)
}

// The transducer of these rules over one state more than this many, with new names. Err where there
// are too many states or rules.
fn transducer_over<S>(
    alloc: Global,
    any: u32,
    moves: Vec<StringRule<u32>>,
) -> Result<StringTransducer<S>, AllocError>
    requires within { AreWithin (any + 1) moves.items }
    requires shaped { AreShaped moves.items }
    ensures names { IfOk result (λ t. t.names ≡ names_of (any + 1)) }
    ensures rules { IfOk result (λ t. t.rules ≡ moves.items) }
{
    if any == u32::MAX || moves.len() > u32::MAX as usize {
        return Err(AllocError);
    }
    let names = numbered_names(alloc, any + 1)?;
    match StringTransducer::new(names, moves) {
        Some(transducer) => Ok(transducer),
        None => unreachable!(),
    }
}

/// A tree-to-string transducer that reads what a transducer reads, at the same costs, and puts out
/// nothing. It has one state more, which takes any tree over the alphabet, the labels of the left
/// sides with their numbers of children; this state reads what a rule leaves out. So at the empty
/// string it gives each tree over the alphabet the least cost of the tree and an output, over all
/// outputs, and every other tree none. It is nondeleting, and linear where the transducer is; the
/// transducer may delete, be extended and be labelled. Err only if memory is refused, or there are
/// more states, rules or children of a label than can be numbered; the transducer is then gone.
/// Worst case: for each rule one pass over the right side for each variable of the left side.
pub fn domain_transducer<S: Semiring>(
    alloc: Global,
    transducer: Transducer<S>,
) -> Result<StringTransducer<S>, AllocError>
    ensures domain { IfOk result (λ d. d ≡ domain_of transducer) }
    ensures linear { AreLinear transducer.rules → IfOk result (λ d. AreLinearOnStrings d.rules) }
    ensures nondeleting { IfOk result (λ d. AreNondeleting d.rules) }
    ensures series { IfOk result (λ d. HasDomainSeries S.product transducer.rules d.rules) }
{
    transducer.is_sound();
    let any = transducer.states();
    let moves = all_moves::<S>(alloc, transducer, any)?;
    transducer_over(alloc, any, moves)
}
