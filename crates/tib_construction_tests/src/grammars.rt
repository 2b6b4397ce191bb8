// Small grammars by their rules, and rules over positions compared with rows of the same form.
use std::alloc::Global;
use tib_cost::{Cost, Semiring};
use tib_grammar::{Grammar, Item, Names, Rule, Side};
use tib_normal::Normal;
use tib_tree::Label;

/// A rule: its left state or position, its label, the states or positions below it and its cost.
pub type Row = (u32, Label, &'static [u32], u64);

static LETTERS: [u8; 16] = *b"abcdefghijklmnop";

// The name of the state of this number: its eight digits to the base 16, the last one first, as
// letters.
fn name(alloc: Global, state: u32) -> Option<Vec<u8>> {
    let mut text = Vec::new(alloc);
    let mut rest = state;
    for _digit in 0..8 {
        text.push(LETTERS[(rest % 16) as usize]).ok()?;
        rest /= 16;
    }
    Some(text)
}

// The names of this many states.
fn names(alloc: Global, many: u32) -> Option<Names> {
    let mut texts = Vec::new(alloc);
    for state in 0..many {
        texts.push(name(alloc, state)?).ok()?;
    }
    if texts.len() > 1_000_000 {
        return None;
    }
    Names::from_list(alloc, texts).ok()?
}

/// The rule from a state to a label over states, at a cost.
pub fn rule(
    alloc: Global,
    left: u32,
    label: Label,
    states: &[u32],
    cost: u64,
) -> Option<Rule<u32>> {
    if states.len() > 9 {
        return None;
    }
    let right = Side::over(alloc, label, states).ok()?;
    let cost = Cost::new(cost)?;
    Some(Rule { left, right, cost })
}

fn rules(alloc: Global, rows: &[Row]) -> Option<Vec<Rule<u32>>> {
    let mut rules = Vec::new(alloc);
    for (left, label, states, cost) in rows {
        rules.push(rule(alloc, *left, *label, states, *cost)?).ok()?;
    }
    Some(rules)
}

/// The grammar of these rules over this many states, whose start is the state 0; none where memory
/// is refused.
pub fn normal_of<S: Semiring + Drop>(
    alloc: Global,
    states: u32,
    rules: Vec<Rule<u32>>,
) -> Option<Normal<S>> {
    if rules.len() > 1_000_000 {
        return None;
    }
    let grammar = Grammar::new(names(alloc, states)?, rules)?;
    Normal::new(alloc, grammar).ok()?
}

/// The grammar of these rules over four states, whose start is the state 0; none where memory is
/// refused.
pub fn normal<S: Semiring + Drop>(alloc: Global, rows: &[Row]) -> Option<Normal<S>> {
    normal_of(alloc, 4, rules(alloc, rows)?)
}

fn is_label(item: &Item<u32>, label: Label, many: usize) -> bool {
    match item {
        Item::Label { label: own, rank } => *own == label && *rank as usize == many,
        Item::Hole(_) => false,
    }
}

fn is_state(item: &Item<u32>, state: u32) -> bool {
    match item {
        Item::Label { .. } => false,
        Item::Hole(own) => *own == state,
    }
}

fn are_states(items: &[Item<u32>], states: &[u32]) -> bool {
    if items.len() != states.len() {
        return false;
    }
    for i in 0..items.len() {
        if !is_state(&items[i], states[i]) {
            return false;
        }
    }
    true
}

// Whether a side is this label over these states.
fn is_over(items: &[Item<u32>], label: Label, states: &[u32]) -> bool {
    if items.len() == 0 {
        return false;
    }
    is_label(&items[0], label, states.len()) && are_states(&items[1..], states)
}

/// Whether a rule is that of a row.
pub fn is_rule(rule: &Rule<u32>, row: &Row) -> bool {
    let (left, label, states, cost) = row;
    rule.left == *left && rule.cost.get() == *cost && is_over(rule.right.items(), *label, states)
}

/// Whether rules are those of the rows, in their order.
pub fn are_rules(rules: &[Rule<u32>], rows: &[Row]) -> bool {
    if rules.len() != rows.len() {
        return false;
    }
    for i in 0..rules.len() {
        if !is_rule(&rules[i], &rows[i]) {
            return false;
        }
    }
    true
}
