// Whether a grammar is deterministic below the root.
ghost use Rattle.std.specs.Prelude.{◌≡◌, ℕ, Bool, None, false, map, IfOk, IsTrue};
ghost use Rattle.tib_grammar.specs.Checked.{IsNoted};
ghost use Rattle.tib_grammar.specs.Forms.{IsDeterministic, StandsInSide};
ghost use Rattle.tib_k_best.specs.Apart.{AreApart};
ghost use Rattle.tib_ranked_trees.specs.Below.{IsDeterministicBelow};

use indexmap::IndexSet;
use std::alloc::{AllocError, Global};
use tib_grammar::{Grammar, Item, Rule};
use tib_inside::add_side;

// Whether the start is in some right-hand side.
fn is_start_used(alloc: Global, rules: &[Rule<u32>]) -> Result<bool, AllocError>
    ensures { IfOk result (λ b. b ≡ false → StandsInSide rules.now 0 → ⊥) }
{
    let mut states = Vec::new(alloc);
    for rule in rules {
        add_side(rule, &mut states)?;
    }
    Ok(states.contains(&0))
}

// Notes the items of a right-hand side, and returns whether they were not noted before.
fn note<'a>(
    sides: &mut IndexSet<&'a [Item<u32>]>,
    items: &'a [Item<u32>],
) -> Result<bool, AllocError>
    ensures { IfOk result (λ is_new. IsTrue is_new → IsNoted (map (λ k. k.now) sides.old.keys)
        items.now None (map (λ k. k.now) sides.new.keys)) }
{
    let (_, is_new) = sides.insert_full(items)?;
    Ok(is_new)
}

// Whether no two rules of the start have the same right-hand side, or no two of all other states.
fn are_apart(alloc: Global, rules: &[Rule<u32>], of_start: bool) -> Result<bool, AllocError>
    ensures { IfOk result (λ b. IsTrue b → AreApart rules.now of_start) }
{
    let mut sides: IndexSet<&[Item<u32>]> = IndexSet::new(alloc);
    for rule in rules {
        if (rule.left == 0) != of_start {
            continue;
        }
        if !note(&mut sides, rule.right.items())? {
            return Ok(false);
        }
    }
    Ok(true)
}

// Whether the start is in no right-hand side, and no two rules have the same one but one of the
// start and one of another state.
fn is_apart_from_start(alloc: Global, rules: &[Rule<u32>]) -> Result<bool, AllocError>
    ensures { IfOk result (λ b. IsTrue b → IsDeterministicBelow rules.now) }
{
    if is_start_used(alloc, rules)? {
        return Ok(false);
    }
    if !are_apart(alloc, rules, true)? {
        return Ok(false);
    }
    are_apart(alloc, rules, false)
}

// Whether a grammar is in deterministic form. If memory is refused, it returns false.
fn is_deterministic<S>(alloc: Global, grammar: &Grammar<S>) -> bool
    ensures { IsTrue result → IsDeterministic grammar.now.rules }
{
    match grammar.deterministic(alloc) {
        Ok(_) => true,
        Err(_) => false,
    }
}

/// Whether a grammar is known to be deterministic below the root: it is in deterministic form, or
/// so are the rules of the start and those of all other states by themselves, where the start is in
/// no right-hand side. If memory is refused, it returns false. Worst case: a few passes over the
/// items of all rules, where a look-up by hash counts once.
pub fn is_deterministic_below<S>(alloc: Global, grammar: &Grammar<S>) -> bool
    ensures { IsTrue result → IsDeterministicBelow grammar.now.rules }
{
    if is_deterministic(alloc, grammar) {
        return true;
    }
    match is_apart_from_start(alloc, grammar.rule_list()) {
        Ok(is_apart) => is_apart,
        Err(_) => false,
    }
}
