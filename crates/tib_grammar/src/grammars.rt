// Grammars from names and rules, and what they hold.
ghost use Rattle.std.specs.Prelude.{◌≡◌, ℕ, ◌-◌, ◌<◌, ◌≤◌, ◌^◌, length, IsTrue, false, IfSome, None, Some, slice_get};
ghost use Rattle.tib_tree.specs.Trees.{only};
ghost use Rattle.tib_grammar.specs.Sides.{HolesAreLeaves};
ghost use Rattle.tib_grammar.specs.Items.{holes_in};
ghost use Rattle.tib_grammar.specs.Run.{rule_at};
ghost use Rattle.tib_grammar.specs.Range.{AllBelow, IsInRange, AreInRange, SidesEndInHoles, AreLone};
ghost use Rattle.tib_grammar.specs.StateName.{AreStateNames};

use crate::{Grammar, Item, Names, Rule};
use std::marker::PhantomData;

// Whether the states of a rule are below n.
fn is_in_range(rule: &Rule<u32>, n: u32) -> bool
    ensures yes { IsTrue result → IsInRange n rule.now }
    ensures no { result ≡ false → IsInRange n rule.now → ⊥ }
    ensures leaves { HolesAreLeaves (only rule.now.right) }
{
    let items = rule.right.items();
    rule.left < n && are_below(items, n)
}

// Whether the states among some items are below n.
fn are_below(items: &[Item<u32>], n: u32) -> bool
    ensures yes { IsTrue result → AllBelow n (holes_in items.now) }
    ensures no { result ≡ false → AllBelow n (holes_in items.now) → ⊥ }
{
    for item in items {
        if let Item::Hole(state) = item {
            if *state >= n {
                return false;
            }
        }
    }
    true
}

// Whether the states of all rules are below n.
fn are_in_range(rules: &[Rule<u32>], n: u32) -> bool
    ensures yes { IsTrue result → AreInRange n rules.now }
    ensures leaves { IsTrue result → SidesEndInHoles rules.now }
    ensures no { result ≡ false → AreInRange n rules.now → ⊥ }
{
    for rule in rules {
        if !is_in_range(rule, n) {
            return false;
        }
    }
    true
}

impl<S> Grammar<S> {
    /// A grammar of these names and rules. Returns none exactly if there is no name or a rule has a
    /// state whose number is not below the number of names; both are then dropped. It takes no
    /// memory. Worst case: one pass over the items of all rules.
    pub fn new(names: Names, rules: Vec<Rule<u32>>) -> Option<Grammar<S>>
        requires { length rules.items < 2 ^ 32 }
        ensures names { IfSome result (λ g. g.names ≡ names) }
        ensures rules { IfSome result (λ g. g.rules ≡ rules.items) }
        ensures some { IfSome result (λ _. (0 < length names)
            × AreInRange (length names) rules.items) }
        ensures none { result ≡ None → 0 < length names → AreInRange (length names) rules.items →
            ⊥ }
    {
        names.is_sound();
        let states = names.len();
        if states == 0 || !are_in_range(&rules, states) {
            return None;
        }
        Some(Grammar {
            names,
            rules,
            semiring: PhantomData,
        })
    }

    /// What holds of each grammar: there is a start, its names are distinct state names, the states
    /// of its rules have names, its rules are fewer than 2^32, nothing is below a hole, so a
    /// right-hand side with a state at its root is that lone state. It computes nothing.
    pub fn is_sound(&self)
        ensures start { 0 < length self.now.names }
        ensures names { AreStateNames self.now.names }
        ensures few_names { length self.now.names < 2 ^ 32 }
        ensures few_rules { length self.now.rules < 2 ^ 32 }
        ensures range { AreInRange (length self.now.names) self.now.rules }
        ensures leaves { SidesEndInHoles self.now.rules }
        ensures lone { AreLone self.now.rules }
    {
        let _ = &self.rules;
    }

    /// How many states. It takes no memory.
    pub fn states(&self) -> u32
        ensures { result ≡ length self.now.names }
    {
        self.names.len()
    }

    /// How many rules. It takes no memory.
    pub fn rules(&self) -> u32
        ensures { result ≡ length self.now.rules }
    {
        self.rules.len() as u32
    }

    /// The name of a state. It takes no memory.
    pub fn name(&self, state: u32) -> &[u8]
        requires { state < length self.now.names }
        ensures { slice_get self.now.names state ≡ Some result.now }
    {
        self.names.text(state)
    }

    /// The rule with this number, from 1 to the number of rules. It takes no memory.
    pub fn rule(&self, n: u32) -> &Rule<u32>
        requires from { 1 ≤ n }
        requires to { n ≤ length self.now.rules }
        ensures { result.now ≡ rule_at self.now.rules (n - 1) }
    {
        &self.rules[n as usize - 1]
    }

    /// The names of the states. It takes no memory.
    pub fn names(&self) -> &Names
        ensures { result.now ≡ self.now.names }
    {
        &self.names
    }

    /// All rules, in order. It takes no memory.
    pub fn rule_list(&self) -> &[Rule<u32>]
        ensures { result.now ≡ self.now.rules }
    {
        &self.rules
    }

    /// The names and the rules, for a grammar that is made from this one. It takes no memory.
    pub fn into_parts(self) -> (Names, Vec<Rule<u32>>)
        ensures names { result.0 ≡ self.names }
        ensures rules { result.1.items ≡ self.rules }
    {
        let Grammar { names, rules, .. } = self;
        (names, rules)
    }
}
