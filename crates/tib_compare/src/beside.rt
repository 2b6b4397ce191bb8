// Two grammars side by side.
ghost use Rattle.std.specs.Prelude.{◌≡◌, ◌+◌, ◌++◌, ◌^◌, ◌<◌, length, OnOk, IfOk};
ghost use Rattle.tib_grammar.specs.Forms.{AreNormal};
ghost use Rattle.tib_grammar.specs.Range.{AreInRange};
ghost use Rattle.tib_normal.specs.Rules.{IsNormal};
ghost use Rattle.tib_compare.specs.Beside.{beside, raised, CanRaiseAll};

use crate::moving::{moved_rule, raised_left};
use std::alloc::{AllocError, Global};
use tib_canon::numbered_names;
use tib_cost::{Boolean, Semiring};
use tib_grammar::{Grammar, Rule};
use tib_normal::Normal;

// Appends the rules with all their states raised by a number to others, at no cost.
fn put_raised(
    alloc: Global,
    rules: &[Rule<u32>],
    by: u32,
    all: &mut Vec<Rule<u32>>,
) -> Result<(), AllocError>
    requires normal { AreNormal rules.now }
    requires raised { CanRaiseAll by rules.now }
    ensures { OnOk result (all.new.items ≡ all.old.items ++ raised by rules.now) }
{
    let mut states = Vec::new(alloc);
    for rule in rules {
        let left = raised_left(rule, by);
        all.push(moved_rule(alloc, rule, left, by, Boolean::one(), &mut states)?)?;
    }
    Ok(())
}

// The rules of both, where the states of the second come after those of the first.
fn rules_beside(
    alloc: Global,
    left: &[Rule<u32>],
    right: &[Rule<u32>],
    first: u32,
) -> Result<Vec<Rule<u32>>, AllocError>
    requires left { AreNormal left.now }
    requires right { AreNormal right.now }
    requires left_raised { CanRaiseAll 0 left.now }
    requires right_raised { CanRaiseAll first right.now }
    ensures { IfOk result (λ v. v.items ≡ beside first left.now right.now) }
{
    let mut all = Vec::with_capacity(alloc, left.len())?;
    put_raised(alloc, left, 0, &mut all)?;
    put_raised(alloc, right, first, &mut all)?;
    Ok(all)
}

// These rules in normal form, over this number of states. Err also if there are too many rules to
// be numbered.
fn normal_over(
    alloc: Global,
    states: u32,
    rules: Vec<Rule<u32>>,
) -> Result<Normal<Boolean>, AllocError>
    requires start { 0 < states }
    requires range { AreInRange states rules.items }
    requires normal { IsNormal rules.items }
    ensures names { IfOk result (λ n. length n.names ≡ states) }
    ensures rules { IfOk result (λ n. n.rules ≡ rules.items) }
{
    if rules.len() > u32::MAX as usize {
        return Err(AllocError);
    }
    let names = numbered_names(alloc, states)?;
    let Some(grammar) = Grammar::new(names, rules) else {
        unreachable!();
    };
    match Normal::new(alloc, grammar)? {
        Some(normal) => Ok(normal),
        None => unreachable!(),
    }
}

// How many states both have together. Err if they are too many to be numbered.
fn states_of_both(first: u32, second: u32) -> Result<u32, AllocError>
    ensures sum { IfOk result (λ n. n ≡ first + second) }
    ensures few { IfOk result (λ n. n < 2 ^ 32) }
{
    match first.checked_add(second) {
        Some(sum) => Ok(sum),
        None => Err(AllocError),
    }
}

/// The two grammars as one: the states of the left one and after them those of the right one, each
/// rule of both with its states raised, at no cost. So the start of the left is 0, and that of the
/// right is the number of states of the left. Err only if memory is refused, or the states or the
/// rules of both are too many to be numbered. Worst case: a few passes over the rules.
pub fn side_by_side(
    alloc: Global,
    left: &Normal<Boolean>,
    right: &Normal<Boolean>,
) -> Result<Normal<Boolean>, AllocError>
    ensures names { IfOk result (λ n. length n.names
        ≡ length left.now.names + length right.now.names) }
    ensures rules { IfOk result (λ n. n.rules
        ≡ beside (length left.now.names) left.now.rules right.now.rules) }
{
    let one = left.grammar();
    let two = right.grammar();
    one.is_sound();
    two.is_sound();
    let first = one.states();
    let states = states_of_both(first, two.states())?;
    let rules = rules_beside(alloc, one.rule_list(), two.rule_list(), first)?;
    normal_over(alloc, states, rules)
}
