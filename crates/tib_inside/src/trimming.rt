// Trimming.
ghost use Rattle.std.specs.Prelude.{◌≡◌, ℕ, ◌<◌, ◌≤◌, ◌^◌, length, IfOk, false};
ghost use Rattle.std.proofs.Common.{get_or};
ghost use Rattle.tib_grammar.specs.Range.{AreInRange};
ghost use Rattle.tib_inside.specs.Inside.{AreInsides};
ghost use Rattle.tib_inside.specs.Reaching.{AreKept, chosen};
ghost use Rattle.tib_inside.specs.Trimmed.{IsTrimmed, HasSeriesOfEach, AreTrimmed, AreSomeStates, HaveSeriesOfEach};
ghost use Rattle.tib_grammar.specs.Series.{HasSameSeries, HaveSameSeries};

use crate::reaching::{kept_rules, live_rules, marked_places, reached_states};
use crate::renaming::{kept_names, marked_rules, numbers_of};
use crate::settling::inside_costs;
use std::alloc::{AllocError, Global};
use tib_cost::{Cost, Semiring};
use tib_grammar::{Grammar, Rule};
use tib_normal::Normal;

/// The states that are kept, and for each rule whether it is.
#[derive(Drop)]
struct Kept {
    states: Vec<u32>,
    rules: Vec<bool>,
}

/// The start and the useful states, and the live rules of useful states, by the inside costs.
fn keep<S: Semiring>(
    alloc: Global,
    rules: &[Rule<u32>],
    costs: &[Option<Cost>],
) -> Result<Kept, AllocError>
    requires few { length rules.now < 2 ^ 32 }
    requires few_states { length costs.now < 2 ^ 32 }
    requires start { 0 < length costs.now }
    requires range { AreInRange (length costs.now) rules.now }
    requires insides { AreInsides S.product rules.now costs.now }
    ensures long { IfOk result (λ k. length k.rules.items ≡ length rules.now) }
    ensures kept { IfOk result (λ k. AreKept S.product rules.now (length costs.now) k.states.items
        (chosen (λ i. get_or k.rules.items i false) (length rules.now))) }
{
    let live = live_rules::<S>(alloc, rules, costs)?;
    let kept = reached_states(alloc, rules, &live, costs.len())?;
    let states = marked_places(alloc, &kept)?;
    let both = kept_rules(alloc, rules, &live, &kept)?;
    Ok(Kept {
        states,
        rules: both,
    })
}

/// What is kept of some states and the rules over them.
#[derive(Drop)]
pub struct TrimmedRules {
    /// The states that are kept, ascending.
    pub states: Vec<u32>,
    /// The rules that are kept, in order, over the places of these states.
    pub rules: Vec<Rule<u32>>,
}

/// The start and the useful ones of this number of states, and the live rules of useful states,
/// each in its order. The rules are moved. Err only if memory is refused, and then they are gone.
/// Worst case: that of `inside`, and a few passes over the rules and their right sides.
pub fn trim_rules<S: Semiring>(
    alloc: Global,
    rules: Vec<Rule<u32>>,
    states: u32,
) -> Result<TrimmedRules, AllocError>
    requires some { 0 < states }
    requires few { length rules.items < 2 ^ 32 }
    requires range { AreInRange states rules.items }
    ensures trimmed { IfOk result (λ t. AreTrimmed S.product rules.items t.states.items
        t.rules.items) }
    ensures series { IfOk result (λ t. HaveSameSeries S.product rules.items t.rules.items) }
    ensures each { IfOk result (λ t. HaveSeriesOfEach S.product rules.items t.states.items
        t.rules.items) }
    ensures states { IfOk result (λ t. AreSomeStates states t.states.items) }
    ensures range { IfOk result (λ t. AreInRange (length t.states.items) t.rules.items) }
    ensures few { IfOk result (λ t. length t.rules.items ≤ length rules.items) }
{
    let costs = inside_costs::<S>(alloc, &rules, states as usize)?;
    let kept = keep::<S>(alloc, &rules, &costs)?;
    let numbers = numbers_of(alloc, &kept.states, costs.len())?;
    let moved = marked_rules(alloc, rules, &kept.rules, &numbers)?;
    Ok(TrimmedRules {
        states: kept.states,
        rules: moved,
    })
}

/// The grammar of the start and the useful states and of the live rules of useful states, each in
/// its order. The rules are moved. Err only if memory is refused, and then the grammar is gone.
/// Worst case: that of `trim_rules`, and one pass over the names that stay.
pub fn trim<S: Semiring>(alloc: Global, grammar: Grammar<S>) -> Result<Grammar<S>, AllocError>
    ensures trimmed { IfOk result (λ g. IsTrimmed S.product grammar g) }
    ensures series { IfOk result (λ g. HasSameSeries S.product grammar g) }
    ensures each { IfOk result (λ g. HasSeriesOfEach S.product grammar g) }
{
    grammar.is_sound();
    let states = grammar.states();
    let (names, rules) = grammar.into_parts();
    let trimmed = trim_rules::<S>(alloc, rules, states)?;
    let kept = kept_names(alloc, &names, &trimmed.states)?;
    match Grammar::new(kept, trimmed.rules) {
        Some(grammar) => Ok(grammar),
        None => unreachable!(),
    }
}

/// The same for a grammar in normal form, which stays in normal form. Err only if memory is
/// refused, and then the grammar is gone. Worst case: that of `trim` and of `Normal::new`.
pub fn trim_normal<S: Semiring + Drop>(
    alloc: Global,
    normal: Normal<S>,
) -> Result<Normal<S>, AllocError>
    ensures trimmed { IfOk result (λ n. IsTrimmed S.product normal n) }
    ensures series { IfOk result (λ n. HasSameSeries S.product normal n) }
    ensures each { IfOk result (λ n. HasSeriesOfEach S.product normal n) }
{
    let trimmed = trim::<S>(alloc, normal.into_grammar())?;
    match Normal::new(alloc, trimmed)? {
        Some(normal) => Ok(normal),
        None => unreachable!(),
    }
}
