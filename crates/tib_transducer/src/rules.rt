// The classes of one rule.
ghost use Rattle.std.specs.Prelude.{◌≡◌, ℕ, length, IsTrue, false};
ghost use Rattle.tib_grammar.specs.Items.{holes_in};
ghost use Rattle.tib_transducer.specs.Range.{IsShaped};
ghost use Rattle.tib_transducer.specs.Classes.{IsLinear, IsNondeleting, IsExtended, IsLabelled, IsStrict};
ghost use Rattle.tib_transducer.specs.Counting.{HaveLabel};
ghost use Rattle.tib_transducer.specs.Pairs.{begins};
ghost use Rattle.tib_transducer.specs.Outside.{demands, IsAnswer};

use crate::uses::{are_above_zero, are_at_most_one, count_uses};
use crate::{ClassFault, Pair, TransducerRule, Variable};
use tib_grammar::Item;

// How many variables occur among some items.
fn count_variables(items: &[Item<Variable>]) -> usize
    ensures { result ≡ length (holes_in items.now) }
{
    let mut count: usize = 0;
    for item in items {
        if let Item::Hole(_) = item {
            count += 1;
        }
    }
    count
}

// Whether no variable occurs twice on the right. It scans the right side once for each 64 variables
// of the left side.
fn is_linear(rule: &TransducerRule<u32>) -> bool
    requires { IsShaped rule.now }
    ensures yes { IsTrue result → IsLinear rule.now }
    ensures no { result ≡ false → IsLinear rule.now → ⊥ }
{
    let variables = count_variables(rule.left.items());
    let right = rule.right.items();
    let mut rest = variables;
    while rest > 0 {
        let many = rest.min(64);
        rest -= many;
        let uses = count_uses(right, rest);
        if !are_at_most_one(&uses[..many]) {
            return false;
        }
    }
    true
}

// Whether each variable occurs on the right. It scans the right side once for each 64 variables of
// the left side.
fn is_nondeleting(rule: &TransducerRule<u32>) -> bool
    requires { IsShaped rule.now }
    ensures yes { IsTrue result → IsNondeleting rule.now }
    ensures no { result ≡ false → IsNondeleting rule.now → ⊥ }
{
    let variables = count_variables(rule.left.items());
    let right = rule.right.items();
    let mut rest = variables;
    while rest > 0 {
        let many = rest.min(64);
        rest -= many;
        let uses = count_uses(right, rest);
        if !are_above_zero(&uses[..many]) {
            return false;
        }
    }
    true
}

// Whether the left side has more than one label.
fn is_extended(rule: &TransducerRule<u32>) -> bool
    ensures yes { IsTrue result → IsExtended rule.now }
    ensures no { result ≡ false → IsExtended rule.now → ⊥ }
{
    let left = rule.left.items();
    left.len() - count_variables(left) > 1
}

// Whether a variable among some items has a label.
fn have_label(items: &[Item<Variable>]) -> bool
    ensures yes { IsTrue result → HaveLabel (holes_in items.now) }
    ensures no { result ≡ false → HaveLabel (holes_in items.now) → ⊥ }
{
    for item in items {
        if let Item::Hole(variable) = item {
            if variable.label.is_some() {
                return true;
            }
        }
    }
    false
}

// Whether a variable of the left side has a label.
fn is_labelled(rule: &TransducerRule<u32>) -> bool
    ensures yes { IsTrue result → IsLabelled rule.now }
    ensures no { result ≡ false → IsLabelled rule.now → ⊥ }
{
    have_label(rule.left.items())
}

// Whether the first item is a label.
fn begins_with_label(items: &[Item<Pair<u32>>]) -> bool
    ensures { result ≡ begins items.now }
{
    match items.first() {
        Some(first) => match first {
            Item::Label { .. } => true,
            Item::Hole(_) => false,
        },
        None => false,
    }
}

// Whether the right side is no lone pair.
fn is_strict(rule: &TransducerRule<u32>) -> bool
    ensures yes { IsTrue result → IsStrict rule.now }
    ensures no { result ≡ false → IsStrict rule.now → ⊥ }
{
    begins_with_label(rule.right.items())
}

/// The first class that is demanded and that the rule is outside of. It takes no memory.
pub fn fault_of(
    rule: &TransducerRule<u32>,
    linear: bool,
    nondeleting: bool,
    one_label: bool,
    unlabelled: bool,
    strict: bool,
) -> Option<ClassFault>
    requires { IsShaped rule.now }
    ensures { IsAnswer (demands linear nondeleting one_label unlabelled strict) rule.now result }
{
    if linear && !is_linear(rule) {
        return Some(ClassFault::NotLinear);
    }
    if nondeleting && !is_nondeleting(rule) {
        return Some(ClassFault::NotNondeleting);
    }
    if one_label && is_extended(rule) {
        return Some(ClassFault::Extended);
    }
    if unlabelled && is_labelled(rule) {
        return Some(ClassFault::Labelled);
    }
    if strict && !is_strict(rule) {
        return Some(ClassFault::NotStrict);
    }
    None
}
