// Tree-to-string transducers from names and rules, and what they hold.
ghost use Rattle.std.specs.Prelude.{◌≡◌, ℕ, ◌-◌, ◌<◌, ◌≤◌, ◌^◌, length, IsTrue, false, IfSome, None, Some, slice_get};
ghost use Rattle.tib_grammar.specs.StateName.{AreStateNames};
ghost use Rattle.tib_grammar.specs.Items.{holes_in};
ghost use Rattle.tib_transducer.specs.Range.{AreNumbered};
ghost use Rattle.tib_strings.specs.Rules.{string_rule, pairs_of};
ghost use Rattle.tib_strings.specs.Range.{IsShaped, AreShaped, IsWithin, AreWithin};
ghost use Rattle.tib_transducer.specs.Pairs.{begins, ArePairsWithin};

use crate::{StringRule, StringTransducer, Word};
use std::marker::PhantomData;
use tib_grammar::{Item, Names};
use tib_transducer::Variable;

// Whether the first of some items is a label.
fn begins_with_label(items: &[Item<Variable>]) -> bool
    ensures { result ≡ begins items.now }
{
    match items.first() {
        Some(item) => match item {
            Item::Label { .. } => true,
            Item::Hole(_) => false,
        },
        None => false,
    }
}

// How many variables occur among some items, if their numbers are 0, 1, 2 and so on.
fn count_variables(items: &[Item<Variable>]) -> Option<usize>
    ensures count { IfSome result (λ n. n ≡ length (holes_in items.now)) }
    ensures some { IfSome result (λ _. AreNumbered 0 (holes_in items.now)) }
    ensures none { result ≡ None → AreNumbered 0 (holes_in items.now) → ⊥ }
{
    let mut count: usize = 0;
    for item in items {
        if let Item::Hole(variable) = item {
            if variable.number as usize != count {
                return None;
            }
            count += 1;
        }
    }
    Some(count)
}

// Whether the pairs among some words have states below the one number and variables below the
// other.
fn are_pairs_within(words: &[Word<u32>], states: u32, variables: usize) -> bool
    ensures yes { IsTrue result → ArePairsWithin states variables (pairs_of words.now) }
    ensures no { result ≡ false → ArePairsWithin states variables (pairs_of words.now) → ⊥ }
{
    for word in words {
        if let Word::Hole(pair) = word {
            if pair.state >= states {
                return false;
            }
            if pair.variable as usize >= variables {
                return false;
            }
        }
    }
    true
}

// Whether a rule has its shape, and its states are below n.
fn is_rule(rule: &StringRule<u32>, n: u32) -> bool
    ensures shaped { IsTrue result → IsShaped rule.now }
    ensures within { IsTrue result → IsWithin n rule.now }
    ensures no { result ≡ false → IsShaped rule.now → IsWithin n rule.now → ⊥ }
{
    let left = rule.left.items();
    let right = rule.right.tokens();
    if rule.state >= n {
        return false;
    }
    if !begins_with_label(left) {
        return false;
    }
    let variables = match count_variables(left) {
        Some(count) => count,
        None => return false,
    };
    are_pairs_within(right, n, variables)
}

// Whether all rules are such.
fn are_rules(rules: &[StringRule<u32>], n: u32) -> bool
    ensures shaped { IsTrue result → AreShaped rules.now }
    ensures within { IsTrue result → AreWithin n rules.now }
    ensures no { result ≡ false → AreShaped rules.now → AreWithin n rules.now → ⊥ }
{
    for rule in rules {
        if !is_rule(rule, n) {
            return false;
        }
    }
    true
}

impl<S> StringTransducer<S> {
    /// A transducer of these names and rules. It returns none exactly where there is no name, a
    /// state has a number that is not below the number of names, a left side is a lone variable or
    /// its variables are not numbered 0, 1, 2 and so on in preorder, or a right side has a variable
    /// that its left side lacks; then both are gone. It takes no memory. Worst case: one pass over
    /// all sides.
    pub fn new(names: Names, rules: Vec<StringRule<u32>>) -> Option<StringTransducer<S>>
        requires { length rules.items < 2 ^ 32 }
        ensures names { IfSome result (λ t. t.names ≡ names) }
        ensures rules { IfSome result (λ t. t.rules ≡ rules.items) }
        ensures some { IfSome result (λ _. (0 < length names) × AreWithin (length names) rules.items
            × AreShaped rules.items) }
        ensures none { result ≡ None → 0 < length names → AreWithin (length names) rules.items →
            AreShaped rules.items → ⊥ }
    {
        names.is_sound();
        let states = names.len();
        if states == 0 {
            return None;
        }
        if !are_rules(&rules, states) {
            return None;
        }
        Some(StringTransducer {
            names,
            rules,
            semiring: PhantomData,
        })
    }

    /// What holds of each transducer: there is a start, its names are distinct state names, the
    /// states of its rules have names, its rules are fewer than 2^32, and each has its shape: a
    /// left side that begins with a label and numbers its variables from 0 in preorder, and a right
    /// side without other variables. It computes nothing.
    pub fn is_sound(&self)
        ensures start { 0 < length self.now.names }
        ensures names { AreStateNames self.now.names }
        ensures few_names { length self.now.names < 2 ^ 32 }
        ensures few_rules { length self.now.rules < 2 ^ 32 }
        ensures range { AreWithin (length self.now.names) self.now.rules }
        ensures shaped { AreShaped self.now.rules }
    {
        let _ = &self.rules;
    }

    /// How many states. It takes no memory. Worst case: O(1) steps.
    pub fn states(&self) -> u32
        ensures { result ≡ length self.now.names }
    {
        self.names.len()
    }

    /// How many rules. It takes no memory. Worst case: O(1) steps.
    pub fn rules(&self) -> u32
        ensures { result ≡ length self.now.rules }
    {
        self.rules.len() as u32
    }

    /// The name of a state. It takes no memory. Worst case: O(1) steps.
    pub fn name(&self, state: u32) -> &[u8]
        requires { state < length self.now.names }
        ensures { slice_get self.now.names state ≡ Some result.now }
    {
        self.names.text(state)
    }

    /// The rule with this number, from 1 to the number of rules. It takes no memory. Worst case:
    /// O(1) steps.
    pub fn rule(&self, n: u32) -> &StringRule<u32>
        requires from { 1 ≤ n }
        requires to { n ≤ length self.now.rules }
        ensures { result.now ≡ string_rule self.now.rules (n - 1) }
    {
        &self.rules[n as usize - 1]
    }

    /// The names of the states. It takes no memory. Worst case: O(1) steps.
    pub fn names(&self) -> &Names
        ensures { result.now ≡ self.now.names }
    {
        &self.names
    }

    /// All rules, in order. It takes no memory. Worst case: O(1) steps.
    pub fn rule_list(&self) -> &[StringRule<u32>]
        ensures { result.now ≡ self.now.rules }
    {
        &self.rules
    }

    /// The names and the rules, for a transducer that is made from this one. It takes no memory.
    /// Worst case: O(1) steps.
    pub fn into_parts(self) -> (Names, Vec<StringRule<u32>>)
        ensures names { result.0 ≡ self.names }
        ensures rules { result.1.items ≡ self.rules }
    {
        let StringTransducer { names, rules, .. } = self;
        (names, rules)
    }
}
