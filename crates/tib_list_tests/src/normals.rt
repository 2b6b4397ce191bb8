// Small grammars in normal form by their rules, and whether rules and costs are as worked out.
use std::alloc::{AllocError, Global};
use std::test::Fail;
use tib_cost::{Cost, MinPlus, Semiring};
use tib_grammar::{Grammar, Item, Names, Rule, Side};
use tib_normal::Normal;
use tib_tree::Label;

/// A rule: its left state, its label, the states below the label, and its cost.
pub type Row = (u32, Label, &'static [u32], u64);

/// The rule with this left state, this label over these states, and this cost.
pub fn make_rule(
    alloc: Global,
    left: u32,
    label: Label,
    states: &[u32],
    cost: u64,
) -> Result<Rule<u32>, Fail> {
    if states.len() > 100 {
        return Err("too many states".into());
    }
    let right = Side::over(alloc, label, states)?;
    match Cost::new(cost) {
        Some(cost) => Ok(Rule { left, right, cost }),
        None => Err("not a cost".into()),
    }
}

fn make_rules(alloc: Global, rows: &[Row]) -> Result<Vec<Rule<u32>>, Fail> {
    let mut rules = Vec::new(alloc);
    for (left, label, states, cost) in rows {
        rules.push(make_rule(alloc, *left, *label, *states, *cost)?)?;
    }
    Ok(rules)
}

/// A rule of the state 0 for each of this number of labels, which costs nothing.
pub fn wide_rules(alloc: Global, labels: u32) -> Result<Vec<Rule<u32>>, AllocError> {
    let mut rules = Vec::new(alloc);
    for label in 0..labels {
        rules.push(Rule {
            left: 0,
            right: Side::over(alloc, label, &[])?,
            cost: MinPlus::one(),
        })?;
    }
    Ok(rules)
}

fn name_texts(alloc: Global, states: u8) -> Result<Vec<Vec<u8>>, AllocError> {
    let mut texts = Vec::new(alloc);
    for n in 0..states {
        texts.push(vec![in alloc; b'q'; n as usize + 1]?)?;
    }
    Ok(texts)
}

fn names_of(alloc: Global, states: u8) -> Result<Names, Fail> {
    let texts = name_texts(alloc, states)?;
    if texts.len() > 100_000 {
        return Err("too many names".into());
    }
    match Names::from_list(alloc, texts)? {
        Some(names) => Ok(names),
        None => Err("not names".into()),
    }
}

fn grammar_over<S>(names: Names, rules: Vec<Rule<u32>>) -> Result<Grammar<S>, Fail> {
    if rules.len() > 100_000 {
        return Err("too many rules".into());
    }
    match Grammar::new(names, rules) {
        Some(grammar) => Ok(grammar),
        None => Err("not a grammar".into()),
    }
}

/// The grammar of these rules over this number of states, where it is in normal form. The states
/// are named q, qq and so on.
pub fn normal_of<S: Drop>(
    alloc: Global,
    states: u8,
    rules: Vec<Rule<u32>>,
) -> Result<Normal<S>, Fail> {
    let names = names_of(alloc, states)?;
    let grammar = grammar_over::<S>(names, rules)?;
    match Normal::new(alloc, grammar)? {
        Some(normal) => Ok(normal),
        None => Err("not in normal form".into()),
    }
}

/// The grammar of these rows over this number of states, where it is in normal form.
pub fn make_normal<S: Drop>(alloc: Global, states: u8, rows: &[Row]) -> Result<Normal<S>, Fail> {
    let rules = make_rules(alloc, rows)?;
    normal_of(alloc, states, rules)
}

fn are_states(items: &[Item<u32>], states: &[u32]) -> bool {
    for (item, state) in items.iter().zip(states) {
        if *item != Item::Hole(*state) {
            return false;
        }
    }
    items.len() == states.len()
}

fn is_over(items: &[Item<u32>], label: Label, states: &[u32]) -> bool {
    match items {
        [Item::Label { label: root, .. }, below @ ..] => {
            *root == label && are_states(below, states)
        }
        _ => false,
    }
}

fn is_of_row(rule: &Rule<u32>, row: &Row) -> bool {
    rule.left == row.0 && rule.cost.get() == row.3 && is_over(rule.right.items(), row.1, row.2)
}

/// Whether the rules are those of the rows.
pub fn are_of_rows(rules: &[Rule<u32>], rows: &[Row]) -> bool {
    for (rule, row) in rules.iter().zip(rows) {
        if !is_of_row(rule, row) {
            return false;
        }
    }
    rules.len() == rows.len()
}

/// The number of a cost.
pub fn number_of(cost: &Option<Cost>) -> Option<u64> {
    match cost {
        Some(cost) => Some(cost.get()),
        None => None,
    }
}

/// Whether the costs have these numbers.
pub fn have_numbers(costs: &[Option<Cost>], numbers: &[Option<u64>]) -> bool {
    for (cost, number) in costs.iter().zip(numbers) {
        if number_of(cost) != *number {
            return false;
        }
    }
    costs.len() == numbers.len()
}
