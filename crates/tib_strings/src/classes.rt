// The first rule that is not linear or not nondeleting.
ghost use Rattle.std.specs.Prelude.{◌≡◌, ℕ, ◌-◌, ◌<◌, ◌≤◌, ◌^◌, length, IsTrue, false, IfSome, None, Some};
ghost use Rattle.tib_lex.specs.Lists.{Has, Distinct};
ghost use Rattle.tib_grammar.specs.Items.{holes_in};
ghost use Rattle.tib_strings.specs.Rules.{variables_in};
ghost use Rattle.tib_strings.specs.Range.{IsLinear, IsNondeleting, AreLinear, AreNondeleting};
ghost use Rattle.tib_strings.specs.Faults.{AreAmong, IsFirstFault, HasFault};

use crate::{StringRule, StringTransducer, Word};
use tib_grammar::Item;
use tib_transducer::{ClassFault, Variable};

// Whether a pair among some words has the variable.
fn stands_among(words: &[Word<u32>], variable: u32) -> bool
    ensures yes { IsTrue result → Has (variables_in words.now) variable }
    ensures no { result ≡ false → Has (variables_in words.now) variable → ⊥ }
{
    for word in words {
        if let Word::Hole(pair) = word {
            if pair.variable == variable {
                return true;
            }
        }
    }
    false
}

// Whether no variable occurs twice among the pairs of some words.
fn are_apart(words: &[Word<u32>]) -> bool
    ensures yes { IsTrue result → Distinct (variables_in words.now) }
    ensures no { result ≡ false → Distinct (variables_in words.now) → ⊥ }
{
    for i in 0..words.len() {
        if let Word::Hole(pair) = &words[i] {
            if stands_among(&words[i + 1..], pair.variable) {
                return false;
            }
        }
    }
    true
}

// Whether each variable among some items is among the words.
fn all_stand(items: &[Item<Variable>], words: &[Word<u32>]) -> bool
    ensures yes { IsTrue result → AreAmong (variables_in words.now) (holes_in items.now) }
    ensures no { result ≡ false → AreAmong (variables_in words.now) (holes_in items.now) → ⊥ }
{
    for item in items {
        if let Item::Hole(variable) = item {
            if !stands_among(words, variable.number) {
                return false;
            }
        }
    }
    true
}

// What a rule lacks.
fn fault_of(rule: &StringRule<u32>) -> Option<ClassFault>
    ensures some { IfSome result (λ f. HasFault f rule.now) }
    ensures linear { result ≡ None → IsLinear rule.now }
    ensures nondeleting { result ≡ None → IsNondeleting rule.now }
{
    let right = rule.right.tokens();
    if !are_apart(right) {
        return Some(ClassFault::NotLinear);
    }
    let left = rule.left.items();
    if !all_stand(left, right) {
        return Some(ClassFault::NotNondeleting);
    }
    None
}

/// The first rule that is not linear or not nondeleting, with its number, from 1. It takes no
/// memory. Worst case: in each rule one pass over the right side for each of its pairs and each
/// variable of the left side.
pub fn string_outside<S>(t: &StringTransducer<S>) -> Option<(u32, ClassFault)>
    ensures some { IfSome result (λ r. IsFirstFault t.now.rules r.0 r.1) }
    ensures linear { result ≡ None → AreLinear t.now.rules }
    ensures nondeleting { result ≡ None → AreNondeleting t.now.rules }
{
    t.is_sound();
    let rules = t.rule_list();
    for i in 0..rules.len() {
        if let Some(fault) = fault_of(&rules[i]) {
            return Some((i as u32 + 1, fault));
        }
    }
    None
}
