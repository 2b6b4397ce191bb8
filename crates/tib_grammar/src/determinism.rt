// Normal form and deterministic form.
ghost use Rattle.std.specs.Prelude.{◌≡◌, ℕ, ◌<◌, ◌^◌, length, drop, map, List, IsTrue, false, ◌↔◌, IfOk, IfErr, OnOk};
ghost use Rattle.tib_lex.specs.Lists.{Has};
ghost use Rattle.tib_grammar.specs.Sides.{holes_of};
ghost use Rattle.tib_grammar.specs.Items.{IsHole, holes_in};
ghost use Rattle.tib_grammar.specs.Checked.{TellsStart, IsShapeFault, IsNoted};
ghost use Rattle.tib_grammar.specs.declared.Rule.{Rule};
ghost use Rattle.tib_grammar.specs.Forms.{IsNormalSide, AreNormal, IsLoneState, StandsInSide, IsDeterministic, IsFaultOf};

use crate::{DeterminismFault, Deterministic, Grammar, Item, Rule};
use indexmap::IndexSet;
use std::alloc::{AllocError, Global};

// Whether an item is a hole.
fn is_hole(item: &Item<u32>) -> bool
    ensures { IsTrue result ↔ IsHole item.now }
{
    match item {
        Item::Label { .. } => false,
        Item::Hole(_) => true,
    }
}

// Whether a rule's right-hand side is one label over states.
fn is_normal_rule(rule: &Rule<u32>) -> bool
    ensures yes { IsTrue result → IsNormalSide rule.now.right }
    ensures no { result ≡ false → IsNormalSide rule.now.right → ⊥ }
{
    let items = rule.right.items();
    if is_hole(&items[0]) {
        return false;
    }
    for item in &items[1..] {
        if !is_hole(item) {
            return false;
        }
    }
    true
}

fn are_normal(rules: &[Rule<u32>]) -> bool
    ensures yes { IsTrue result → AreNormal rules.now }
    ensures no { result ≡ false → AreNormal rules.now → ⊥ }
{
    for rule in rules {
        if !is_normal_rule(rule) {
            return false;
        }
    }
    true
}

// Whether a rule's right-hand side is a lone state.
fn is_lone_rule(rule: &Rule<u32>) -> bool
    ensures yes { IsTrue result → IsLoneState rule.now.right }
    ensures no { result ≡ false → IsLoneState rule.now.right → ⊥ }
{
    let items = rule.right.items();
    is_hole(&items[0])
}

// Whether a state occurs among some items.
fn have_state(items: &[Item<u32>], state: u32) -> bool
    ensures yes { IsTrue result → Has (holes_in items.now) state }
    ensures no { result ≡ false → Has (holes_in items.now) state → ⊥ }
{
    for item in items {
        if let Item::Hole(found) = item {
            if *found == state {
                return true;
            }
        }
    }
    false
}

// Whether a state occurs in the right-hand side of a rule.
fn has_state(rule: &Rule<u32>, state: u32) -> bool
    ensures yes { IsTrue result → Has (holes_of rule.now.right) state }
    ensures no { result ≡ false → Has (holes_of rule.now.right) state → ⊥ }
{
    let items = rule.right.items();
    have_state(items, state)
}

// Whether the start occurs in some right-hand side.
fn start_stands_in(rules: &[Rule<u32>]) -> bool
    ensures { TellsStart rules.now result }
{
    for rule in rules {
        if has_state(rule, 0) {
            return true;
        }
    }
    false
}

// The fault of a rule's right-hand side by itself, if it has one.
fn shape_fault(rule: &Rule<u32>, number: u32, start_is_used: bool) -> Option<DeterminismFault>
    ensures { (rules : List (Rule ℕ)) → TellsStart rules start_is_used →
        IsShapeFault rules rule.now number result }
{
    if is_normal_rule(rule) {
        return None;
    }
    if !is_lone_rule(rule) {
        return Some(DeterminismFault::Nested { rule: number });
    }
    if rule.left != 0 {
        return Some(DeterminismFault::Chain { rule: number });
    }
    if start_is_used {
        return Some(DeterminismFault::Chain { rule: number });
    }
    None
}

// Notes the items of a right-hand side after those noted before. If equal ones are among them, it
// returns their place.
fn note<'a>(
    sides: &mut IndexSet<&'a [Item<u32>]>,
    items: &'a [Item<u32>],
) -> Result<Option<usize>, AllocError>
    ensures { IfOk result (λ r. IsNoted (map (λ k. k.now) sides.old.keys) items.now r (map (λ k.
        k.now) sides.new.keys)) }
{
    let (place, is_new) = sides.insert_full(items)?;
    Ok(if is_new { None } else { Some(place) })
}

// Whether rules are in deterministic form, or the fault of the first that is not.
fn check_rules(alloc: Global, rules: &[Rule<u32>]) -> Result<(), DeterminismFault>
    requires { length rules.now < 2 ^ 32 }
    ensures form { OnOk result (IsDeterministic rules.now) }
    ensures fault { IfErr result (λ e. IsFaultOf rules.now e) }
{
    let start_is_used = start_stands_in(rules);
    let mut sides: IndexSet<&[Item<u32>]> = IndexSet::new(alloc);
    let mut number: u32 = 0;
    for rule in rules {
        number += 1;
        if let Some(fault) = shape_fault(rule, number, start_is_used) {
            return Err(fault);
        }
        if let Some(place) = note(&mut sides, rule.right.items())? {
            return Err(DeterminismFault::Shared {
                first: place as u32 + 1,
                second: number,
            });
        }
    }
    Ok(())
}

impl<S> Grammar<S> {
    /// Whether each rule's right-hand side is one label over states. It takes no memory. Worst
    /// case: one pass over the items of all rules.
    pub fn is_normal(&self) -> bool
        ensures yes { IsTrue result → AreNormal self.now.rules }
        ensures no { result ≡ false → AreNormal self.now.rules → ⊥ }
    {
        are_normal(&self.rules)
    }

    /// The grammar as one in deterministic form, or the fault of the first rule that is not: its
    /// right-hand side is nested, else a chain out of place, else that of an earlier rule.
    /// `OutOfMemory` if memory is refused. Worst case: O(n) steps for the n items of all rules,
    /// where a look-up by hash counts once.
    pub fn deterministic(&self, alloc: Global) -> Result<Deterministic<'_, S>, DeterminismFault>
        ensures same { IfOk result (λ d. d ≡ self.now) }
        ensures form { OnOk result (IsDeterministic self.now.rules) }
        ensures fault { IfErr result (λ e. IsFaultOf self.now.rules e) }
    {
        check_rules(alloc, &self.rules)?;
        Ok(Deterministic { grammar: self })
    }
}

impl<'g, S> Deterministic<'g, S> {
    /// The grammar that is viewed. It takes no memory.
    pub fn grammar(&self) -> &'g Grammar<S>
        ensures same { result.now ≡ self.now }
        ensures form { IsDeterministic self.now.rules }
    {
        self.grammar
    }
}
