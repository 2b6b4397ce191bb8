// The states that some rules need, each where it first is on a left side, and the grammar over
// them.
ghost use Rattle.std.specs.Prelude.{◌≡◌, ℕ, ◌+◌, ◌<◌, ◌≤◌, ◌^◌, ◌⊎◌, List, [], ◌∷◌, ◌++◌, length, map, OnOk, IfOk, IsTrue, false};
ghost use Rattle.std.proofs.Common.{get_or};
ghost use Rattle.tib_lex.specs.Lists.{Has, Distinct};
ghost use Rattle.tib_grammar.specs.Range.{AreBelow, AreInRange, SidesEndInHoles};
ghost use Rattle.tib_grammar.specs.GrammarOf.{named_rule};
ghost use Rattle.tib_grammar.specs.Renaming.{number_in};
ghost use Rattle.tib_inside.specs.Renaming.{AreNumbersOf};
ghost use Rattle.tib_trim.specs.FirstSeen.{IsEach, IsSeen, states_of};
ghost use Rattle.tib_trim.specs.Keeping.{AreClosed};
ghost use Rattle.tib_trim.specs.TrimmedFile.{HasRules};

use std::alloc::{AllocError, Global};
use tib_grammar::{Grammar, Names, Rule, rename_rules};

/// Some states, and for each of them its place.
#[derive(Drop)]
struct Seen {
    states: Vec<u32>,
    numbers: Vec<u32>,
}

/// Whether a state is among those seen.
fn is_seen(state: u32, states: &[u32], numbers: &[u32]) -> bool
    requires below { state < length numbers.now }
    requires numbers { AreNumbersOf states.now numbers.now }
    ensures yes { IsTrue result → Has states.now state }
    ensures no { result ≡ false → Has states.now state → ⊥ }
{
    let place = numbers[state as usize] as usize;
    if place >= states.len() {
        return false;
    }
    states[place] == state
}

/// Puts a state behind those seen, unless it is among them.
fn see(state: u32, states: &mut Vec<u32>, numbers: &mut Vec<u32>) -> Result<(), AllocError>
    requires below { state < length numbers.old.items }
    requires few { length states.old.items < 2 ^ 32 }
    requires numbers { AreNumbersOf states.old.items numbers.old.items }
    ensures long { length numbers.new.items ≡ length numbers.old.items }
    ensures seen { OnOk result (IsSeen states.old.items state states.new.items) }
    ensures numbers { OnOk result (AreNumbersOf states.new.items numbers.new.items) }
{
    if is_seen(state, states, numbers) {
        return Ok(());
    }
    numbers[state as usize] = states.len() as u32;
    states.push(state)?;
    Ok(())
}

/// The start and the left states of some rules, each where it first is.
fn seen_states(alloc: Global, rules: &[Rule<u32>], count: usize) -> Result<Seen, AllocError>
    requires some { 0 < count }
    requires few { length rules.now < 2 ^ 32 }
    requires range { AreInRange count rules.now }
    ensures states { IfOk result (λ s. s.states.items ≡ states_of rules.now) }
    ensures numbers { IfOk result (λ s. AreNumbersOf s.states.items s.numbers.items) }
    ensures long { IfOk result (λ s. length s.numbers.items ≡ count) }
{
    let mut states = vec![in alloc; 0; 1]?;
    let mut numbers = vec![in alloc; 0; count]?;
    for rule in rules {
        see(rule.left, &mut states, &mut numbers)?;
    }
    Ok(Seen { states, numbers })
}

/// The names of some states.
fn names_of(alloc: Global, names: &Names, states: &[u32]) -> Result<Vec<Vec<u8>>, AllocError>
    requires { AreBelow (length names.now) states.now }
    ensures { IfOk result (λ v. map (λ t. t.items) v.items
        ≡ map (λ q. get_or names.now q []) states.now) }
{
    let mut texts = Vec::with_capacity(alloc, states.len())?;
    for state in states {
        texts.push(Vec::from_slice(alloc, names.text(*state))?)?;
    }
    Ok(texts)
}

/// The names of some states, of which none occurs twice, as names.
fn kept_names(alloc: Global, names: &Names, states: &[u32]) -> Result<Names, AllocError>
    requires below { AreBelow (length names.now) states.now }
    requires distinct { Distinct states.now }
    requires few { length states.now < 2 ^ 32 }
    ensures { IfOk result (λ kept. kept ≡ map (λ q. get_or names.now q []) states.now) }
{
    names.is_sound();
    let texts = names_of(alloc, names, states)?;
    match Names::from_list(alloc, texts)? {
        Some(kept) => Ok(kept),
        None => unreachable!(),
    }
}

/// The grammar of some names and rules that are in range. It takes no memory.
pub fn grammar_from<S>(names: Names, rules: Vec<Rule<u32>>) -> Grammar<S>
    requires some { 0 < length names }
    requires few { length rules.items < 2 ^ 32 }
    requires range { AreInRange (length names) rules.items }
    ensures names { result.names ≡ names }
    ensures rules { result.rules ≡ rules.items }
{
    match Grammar::new(names, rules) {
        Some(grammar) => grammar,
        None => unreachable!(),
    }
}

/// Some rules under the numbers that a list has for their states.
fn renamed(mut rules: Vec<Rule<u32>>, numbers: &[u32]) -> Vec<Rule<u32>>
    requires { AreInRange (length numbers.now) rules.items }
    ensures { result.items ≡ map (named_rule (number_in numbers.now)) rules.items }
{
    rename_rules(&mut rules, numbers);
    rules
}

/// The grammar of some rules over the states that were seen in them.
fn renumbered<S>(
    alloc: Global,
    names: &Names,
    seen: &Seen,
    rules: Vec<Rule<u32>>,
) -> Result<Grammar<S>, AllocError>
    requires few { length rules.items < 2 ^ 32 }
    requires below { AreBelow (length names.now) seen.now.states.items }
    requires range { AreInRange (length seen.now.numbers.items) rules.items }
    requires leaves { SidesEndInHoles rules.items }
    requires closed { AreClosed rules.items }
    requires states { seen.now.states.items ≡ states_of rules.items }
    requires numbers { AreNumbersOf seen.now.states.items seen.now.numbers.items }
    ensures { IfOk result (λ g. HasRules names.now rules.items g) }
{
    names.is_sound();
    let kept = kept_names(alloc, names, &seen.states)?;
    Ok(grammar_from(kept, renamed(rules, &seen.numbers)))
}

/// Whether these are all states below the count, each at its own place.
fn are_in_place(states: &[u32], count: usize) -> bool
    ensures { IsTrue result → IsEach count states.now }
{
    if states.len() != count {
        return false;
    }
    for n in 0..states.len() {
        if states[n] as usize != n {
            return false;
        }
    }
    true
}

/// The grammar of some rules and of the states that they need: the start and their left states, in
/// the order in which they first are there. The rules are moved, and where all states stay in their
/// order so are the names. Err only if memory is refused, and then both are gone. Cost: two passes
/// over the rules, and where states go one over the right sides and a look-up by hash for each name
/// that stays.
pub fn grammar_of<S>(
    alloc: Global,
    names: Names,
    rules: Vec<Rule<u32>>,
) -> Result<Grammar<S>, AllocError>
    requires some { 0 < length names }
    requires few { length rules.items < 2 ^ 32 }
    requires range { AreInRange (length names) rules.items }
    requires leaves { SidesEndInHoles rules.items }
    requires closed { AreClosed rules.items }
    ensures { IfOk result (λ g. HasRules names rules.items g) }
{
    let count = names.len() as usize;
    let seen = seen_states(alloc, &rules, count)?;
    if are_in_place(&seen.states, count) {
        return Ok(grammar_from(names, rules));
    }
    renumbered(alloc, &names, &seen, rules)
}
