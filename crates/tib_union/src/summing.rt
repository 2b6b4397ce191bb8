// The sum of two grammars.
ghost use Rattle.std.specs.Prelude.{◌≡◌, ◌+◌, ◌<◌, ◌^◌, length, IfOk};
ghost use Rattle.tib_canon.specs.Canonical.{names_of};
ghost use Rattle.tib_grammar.specs.Range.{AreInRange};
ghost use Rattle.tib_union.specs.Sum.{sum_grammar, HasLesserSeries};

use crate::rules::rules_of_sum;
use std::alloc::{AllocError, Global};
use tib_canon::numbered_names;
use tib_cost::Semiring;
use tib_grammar::{Grammar, Rule};

// How many states the sum has of grammars with this many. Err where it has too many.
fn states_of_sum(first: u32, second: u32) -> Result<u32, AllocError>
    ensures { IfOk result (λ states. states ≡ 1 + first + second) }
{
    let states = 1 + u64::from(first) + u64::from(second);
    if states > u64::from(u32::MAX) {
        return Err(AllocError);
    }
    Ok(states as u32)
}

// The grammar of these rules over this many states, with new names. Err where the rules are too
// many.
fn grammar_over<S>(
    alloc: Global,
    states: u32,
    rules: Vec<Rule<u32>>,
) -> Result<Grammar<S>, AllocError>
    requires some { 0 < states }
    requires range { AreInRange states rules.items }
    ensures names { IfOk result (λ g. g.names ≡ names_of states) }
    ensures rules { IfOk result (λ g. g.rules ≡ rules.items) }
{
    if rules.len() > u32::MAX as usize {
        return Err(AllocError);
    }
    let names = numbered_names(alloc, states)?;
    match Grammar::new(names, rules) {
        Some(grammar) => Ok(grammar),
        None => unreachable!(),
    }
}

/// The sum of two grammars: a fresh start, then the states of the first, then those of the second,
/// all with new names; the chain rules to both starts, then the rules of the first, then those of
/// the second. It gives each tree the lesser of the costs that both give it; where one is none, the
/// other. Err only if memory is refused, or the sum has more states or rules than can be numbered;
/// both grammars are then gone. Worst case: one pass over the items of all rules.
pub fn sum_of<S: Semiring>(
    alloc: Global,
    one: Grammar<S>,
    two: Grammar<S>,
) -> Result<Grammar<S>, AllocError>
    ensures sum { IfOk result (λ g. g ≡ sum_grammar one two) }
    ensures series { IfOk result (λ g. HasLesserSeries S.product one.rules two.rules g.rules) }
{
    one.is_sound();
    two.is_sound();
    let first = one.states();
    let second = two.states();
    let states = states_of_sum(first, second)?;
    let (_, front) = one.into_parts();
    let (_, back) = two.into_parts();
    let rules = rules_of_sum::<S>(alloc, front, back, first, second)?;
    grammar_over(alloc, states, rules)
}
