// Grammars in normal form, with an index of their rules.
ghost use Rattle.std.specs.Prelude.{◌≡◌, ℕ, ◌<◌, ◌≤◌, ◌^◌, IfOk, IsTrue, IsSome, IfSome, None, Some, Ok, length, map, List, ◌↔◌, false, true, Contains};
ghost use Rattle.tib_lex.specs.Lists.{Ascends};
ghost use Rattle.tib_grammar.specs.Forms.{AreNormal, IsNormalSide};
ghost use Rattle.tib_grammar.specs.Range.{AreInRange};
ghost use Rattle.tib_grammar.specs.Run.{rule_at};
ghost use Rattle.tib_normal.specs.Rules.{IsNormal, positions_with, rules_from};
ghost use Rattle.tib_normal.specs.Keys.{key_of, IsWritten, number_in};

use crate::index::Index;
use std::alloc::{AllocError, Global};
use std::collections::HashSet;
use std::marker::Model;
use tib_grammar::{Grammar, Item, Rule};
use tib_tree::Label;

/// A grammar in normal form, whose rules are in ascending order of their left states, and of which
/// no two rules agree in both sides.
#[derive(Drop)]
pub struct Normal<S> {
    grammar: Grammar<S>,
    index: Index,
}

impl<S> Model for Normal<S> {
    ghost use Rattle.tib_grammar.specs.GrammarOf.{GrammarOf, grammar_code};
    ghost use Rattle.tib_normal.specs.NormalView.{IsIndexed};

    ghost Value = { GrammarOf };

    ghost coded = { grammar_code };

    ghost view = { λ n. n.grammar };

    ghost invariant = { IsIndexed };
}

/// Whether the rules are in ascending order of their left states.
fn are_ascending(rules: &[Rule<u32>]) -> bool
    ensures yes { IsTrue result → Ascends (λ r s. r.left ≤ s.left) rules.now }
    ensures no { result ≡ false → Ascends (λ r s. r.left ≤ s.left) rules.now → ⊥ }
{
    let mut least = 0;
    for rule in rules {
        if rule.left < least {
            return false;
        }
        least = rule.left;
    }
    true
}

/// The number of an item: its label or its state.
fn number_of(item: &Item<u32>) -> u32
    ensures { result ≡ number_in item.now }
{
    match item {
        Item::Label { label, .. } => *label,
        Item::Hole(state) => *state,
    }
}

/// The left state of a rule and the label and the states of its right side.
fn key(alloc: Global, rule: &Rule<u32>) -> Result<Vec<u32>, AllocError>
    ensures key { IfOk result (λ k. k.items ≡ key_of rule.now) }
    ensures written { IsWritten rule.now.right }
{
    let items = rule.right.items();
    let mut numbers = Vec::new(alloc);
    numbers.push(rule.left)?;
    for item in items {
        numbers.push(number_of(item))?;
    }
    Ok(numbers)
}

/// Whether no two rules agree in both sides.
fn are_distinct(alloc: Global, rules: &[Rule<u32>]) -> Result<bool, AllocError>
    requires normal { AreNormal rules.now }
    ensures yes { IfOk result (λ b. IsTrue b →
        Ascends (λ r s. r.left ≡ s.left → r.right ≡ s.right → ⊥) rules.now) }
    ensures no { IfOk result (λ b. b ≡ false →
        Ascends (λ r s. r.left ≡ s.left → r.right ≡ s.right → ⊥) rules.now → ⊥) }
{
    let mut keys = HashSet::new(alloc);
    for rule in rules {
        if !keys.insert(key(alloc, rule)?)? {
            return Ok(false);
        }
    }
    Ok(true)
}

/// Whether a grammar is one whose rules are in normal form, in ascending order of their left
/// states, and distinct.
fn is_normal_form<S>(alloc: Global, grammar: &Grammar<S>) -> Result<bool, AllocError>
    ensures { IfOk result (λ yes. IsTrue yes ↔ IsNormal grammar.now.rules) }
{
    let rules = grammar.rule_list();
    if !grammar.is_normal() || !are_ascending(rules) {
        return Ok(false);
    }
    are_distinct(alloc, rules)
}

impl<S: Drop> Normal<S> {
    /// Tests and indexes a grammar: it returns this grammar if it is in normal form, its rules are
    /// in ascending order of their left states, and no two rules agree in both sides; else none.
    /// Err only if memory is refused. After an error or none the grammar is gone. Worst case: a few
    /// passes over the items of the rules, each rule with two look-ups by hash, and one over the
    /// states.
    pub fn new(alloc: Global, grammar: Grammar<S>) -> Result<Option<Normal<S>>, AllocError>
        ensures same { IfOk result (λ made. IfSome made (λ n. n ≡ grammar)) }
        ensures some { IfOk result (λ made. IsSome made ↔ IsNormal grammar.rules) }
    {
        if is_normal_form(alloc, &grammar)? {
            Ok(Some(Normal::indexed(alloc, grammar)?))
        } else {
            Ok(None)
        }
    }

    /// Indexes a grammar that is already known to be in normal form.
    pub(crate) fn indexed(alloc: Global, grammar: Grammar<S>) -> Result<Normal<S>, AllocError>
        requires { IsNormal grammar.rules }
        ensures { IfOk result (λ n. n ≡ grammar) }
    {
        grammar.is_sound();
        let index = Index::new(alloc, grammar.rule_list(), grammar.states())?;
        Ok(Normal { grammar, index })
    }
}

impl<S> Normal<S> {
    /// The grammar. It takes no memory.
    pub fn grammar(&self) -> &Grammar<S>
        ensures same { result.now ≡ self.now }
        ensures normal { IsNormal self.now.rules }
    {
        &self.grammar
    }

    /// The grammar, for one that is made from it. It takes no memory.
    pub fn into_grammar(self) -> Grammar<S>
        ensures same { result ≡ self }
        ensures normal { IsNormal self.rules }
    {
        let Normal { grammar, .. } = self;
        grammar
    }

    /// The rules of a state, in order. It takes no memory. Worst case: O(1) steps.
    pub fn rules_of(&self, state: u32) -> &[Rule<u32>]
        requires { state < length self.now.names }
        ensures { result.now ≡ rules_from state self.now.rules }
    {
        self.grammar.is_sound();
        let states = self.grammar.states();
        self.index.rules_of(self.grammar.rule_list(), states, state)
    }

    /// The positions, from 0, of the rules whose right side is this label over this number of
    /// states, ascending. It takes no memory. Cost: one look-up by hash.
    pub fn rules_with(&self, label: Label, rank: u32) -> &[u32]
        ensures { result.now ≡ positions_with label rank self.now.rules }
    {
        self.index.find(label, rank)
    }
}
