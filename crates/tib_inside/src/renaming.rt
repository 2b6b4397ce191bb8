// Names and rules of the states that are kept.
ghost use Rattle.std.specs.Prelude.{◌≡◌, ℕ, ◌<◌, ◌^◌, List, [], length, map, IfOk};
ghost use Rattle.std.proofs.Common.{get_or};
ghost use Rattle.tib_tree.specs.Trees.{only};
ghost use Rattle.tib_grammar.specs.Sides.{holes_of, HolesAreLeaves};
ghost use Rattle.tib_grammar.specs.GrammarOf.{named_rule};
ghost use Rattle.tib_grammar.specs.Range.{AllBelow, AreInRange};
ghost use Rattle.tib_grammar.specs.Renaming.{number_in};
ghost use Rattle.tib_grammar.specs.Range.{AreBelow};
ghost use Rattle.tib_inside.specs.Reaching.{AreMoved};
ghost use Rattle.tib_inside.specs.Renaming.{AreNumbersOf, AscendsByPlace};

use std::alloc::{AllocError, Global};
use tib_grammar::{Names, Rule};

/// For each listed state below a number, its place in the list. Err only if memory is refused. It
/// takes time and memory in proportion to the list and the number.
pub fn numbers_of(alloc: Global, states: &[u32], count: usize) -> Result<Vec<u32>, AllocError>
    requires few { length states.now < 2 ^ 32 }
    requires below { AreBelow count states.now }
    requires ascend { AscendsByPlace states.now }
    ensures long { IfOk result (λ v. length v.items ≡ count) }
    ensures numbers { IfOk result (λ v. AreNumbersOf states.now v.items) }
{
    let mut numbers = vec![in alloc; 0; count]?;
    for n in 0..states.len() {
        numbers[states[n] as usize] = n as u32;
    }
    Ok(numbers)
}

/// The names of some states.
fn names_of(alloc: Global, names: &Names, states: &[u32]) -> Result<Vec<Vec<u8>>, AllocError>
    requires { AreBelow (length names.now) states.now }
    ensures { IfOk result (λ v. map (λ t. t.items) v.items
        ≡ map (λ q. get_or names.now q []) states.now) }
{
    let mut texts = Vec::with_capacity(alloc, states.len())?;
    for state in states {
        texts.push(Vec::from_slice(alloc, names.text(*state))?)?;
    }
    Ok(texts)
}

/// The names of some states that ascend, as names. Err only if memory is refused. Cost: each name
/// is copied and put into a table once.
pub fn kept_names(alloc: Global, names: &Names, states: &[u32]) -> Result<Names, AllocError>
    requires below { AreBelow (length names.now) states.now }
    requires ascend { AscendsByPlace states.now }
    requires few { length states.now < 2 ^ 32 }
    ensures { IfOk result (λ kept. kept ≡ map (λ q. get_or names.now q []) states.now) }
{
    names.is_sound();
    let texts = names_of(alloc, names, states)?;
    match Names::from_list(alloc, texts)? {
        Some(kept) => Ok(kept),
        None => unreachable!(),
    }
}

/// A rule under new numbers. It takes no memory.
fn moved_rule(mut rule: Rule<u32>, numbers: &[u32]) -> Rule<u32>
    requires left { rule.left < length numbers.now }
    requires holes { AllBelow (length numbers.now) (holes_of rule.right) }
    ensures rule { result ≡ named_rule (number_in numbers.now) rule }
    ensures leaves { HolesAreLeaves (only rule.right) }
{
    let _ = rule.right.items();
    rule.rename(numbers);
    rule
}

/// The rules that are marked, in order, under new numbers. The rules are moved. Err only if memory
/// is refused, and then they are gone. Cost: one pass over the rules and their right sides.
pub fn marked_rules(
    alloc: Global,
    rules: Vec<Rule<u32>>,
    marks: &[bool],
    numbers: &[u32],
) -> Result<Vec<Rule<u32>>, AllocError>
    requires long { length marks.now ≡ length rules.items }
    requires range { AreInRange (length numbers.now) rules.items }
    ensures { IfOk result (λ v. AreMoved rules.items marks.now numbers.now (length rules.items)
        v.items) }
{
    let mut moved = Vec::with_capacity(alloc, rules.len())?;
    let mut place = 0;
    for rule in rules {
        if marks[place] {
            moved.push(moved_rule(rule, numbers))?;
        }
        place += 1;
    }
    Ok(moved)
}
