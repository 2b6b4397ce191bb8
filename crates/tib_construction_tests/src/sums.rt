// Sums of two small grammars.
use crate::grammars::{Row, normal};
use std::alloc::Global;
use tib_cost::{Boolean, MinPlus, Semiring};
use tib_grammar::{Grammar, Item, Rule};
use tib_union::sum_of;

// Both grammars have four states. 0 -> f(0 0) # 1, 0 -> a # 2
const BINARY: [Row; 2] = [(0, 0, &[0, 0], 1), (0, 1, &[], 2)];

// 0 -> f(1 3) # 0, 1 -> b # 3, 3 -> a # 0
const OTHER: [Row; 3] = [(0, 0, &[1, 3], 0), (1, 2, &[], 3), (3, 1, &[], 0)];

// Whether a rule leads from the fresh start to this state alone, at no cost.
fn leads_to(rule: &Rule<u32>, state: u32) -> bool {
    let side = [Item::Hole(state)];
    rule.left == 0 && rule.cost.get() == 0 && rule.right.items() == side.as_slice()
}

// Whether two rules are one but for their states, which this number is added to in the second.
fn is_raised(rule: &Rule<u32>, by: u32, raised: &Rule<u32>) -> bool {
    raised.left == rule.left.saturating_add(by)
        && raised.cost.get() == rule.cost.get()
        && raised.right.items().len() == rule.right.items().len()
}

// The same for lists of rules.
fn are_raised(rules: &[Rule<u32>], by: u32, raised: &[Rule<u32>]) -> bool {
    if rules.len() != raised.len() {
        return false;
    }
    for i in 0..rules.len() {
        if !is_raised(&rules[i], by, &raised[i]) {
            return false;
        }
    }
    true
}

// Whether rules are two chain rules, then two rules of the first, then those of the second.
fn are_summed(rules: &[Rule<u32>], first: &[Rule<u32>], second: &[Rule<u32>]) -> bool {
    if rules.len() < 4 {
        return false;
    }
    leads_to(&rules[0], 1)
        && leads_to(&rules[1], 5)
        && are_raised(first, 1, &rules[2..4])
        && are_raised(second, 5, &rules[4..])
}

fn grammar<S: Semiring + Drop>(alloc: Global, rows: &[Row]) -> Option<Grammar<S>> {
    Some(normal::<S>(alloc, rows)?.into_grammar())
}

// Whether the sum of the two grammars has these states and rules.
fn is_sum<S: Semiring + Drop>(alloc: Global) -> Option<bool> {
    let first = grammar::<S>(alloc, &BINARY)?;
    let second = grammar::<S>(alloc, &OTHER)?;
    let again = grammar::<S>(alloc, &BINARY)?;
    let other = grammar::<S>(alloc, &OTHER)?;
    let sum = sum_of::<S>(alloc, first, second).ok()?;
    let are_rules = are_summed(sum.rule_list(), again.rule_list(), other.rule_list());
    Some(sum.states() == 9 && are_rules)
}

#[test]
fn a_sum_has_the_rules_of_both_below_a_fresh_start(rt: HostRuntime) {
    assert!(rt; is_sum::<MinPlus>(rt.alloc()) == Some(true));
    assert!(rt; is_sum::<Boolean>(rt.alloc()) == Some(true));
}
