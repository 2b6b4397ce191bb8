// Small grammars by their rules, and whether rules and costs are as worked out.
use std::alloc::Global;
use tib_cost::{Cost, MinPlus, Semiring};
use tib_grammar::{Grammar, Item, Names, Rule, Side};
use tib_normal::Normal;

/// An item of a right-hand side: a label with its rank, or a state.
pub type Part = (u32, Option<u32>);

/// A rule: its left state, the items of its right-hand side, and its cost.
pub type Row = (u32, &'static [Part], u64);

/// The label f over two items.
pub const LABEL_F2: Part = (0, Some(2));

/// The label g over one item.
pub const LABEL_G1: Part = (1, Some(1));

/// The label a without items below it.
pub const LABEL_A0: Part = (2, Some(0));

/// The label b without items below it.
pub const LABEL_B0: Part = (3, Some(0));

fn item_of(part: Part) -> Item<u32> {
    match part.1 {
        Some(rank) => Item::Label {
            label: part.0,
            rank,
        },
        None => Item::Hole(part.0),
    }
}

fn items_of(alloc: Global, parts: &[Part]) -> Option<Vec<Item<u32>>> {
    let mut items = Vec::new(alloc);
    for part in parts {
        items.push(item_of(*part)).ok()?;
    }
    Some(items)
}

fn side_of(alloc: Global, parts: &[Part]) -> Option<Side<u32>> {
    let items = items_of(alloc, parts)?;
    if items.len() > 100 {
        return None;
    }
    Side::from_preorder(items).ok()
}

/// The rule with this left state, these items on its right, and this cost.
pub fn make_rule(alloc: Global, left: u32, parts: &[Part], cost: u64) -> Option<Rule<u32>> {
    let cost = Cost::new(cost)?;
    let right = side_of(alloc, parts)?;
    Some(Rule { left, right, cost })
}

fn make_rules(alloc: Global, rows: &[Row]) -> Option<Vec<Rule<u32>>> {
    let mut rules = Vec::new(alloc);
    for (left, parts, cost) in rows {
        rules.push(make_rule(alloc, *left, *parts, *cost)?).ok()?;
    }
    Some(rules)
}

fn leaf_rule(alloc: Global, label: u32) -> Option<Rule<u32>> {
    let right = Side::over(alloc, label, &[]).ok()?;
    Some(Rule {
        left: 0,
        right,
        cost: MinPlus::one(),
    })
}

/// A rule of the state 0 for each of this number of labels, which costs nothing.
pub fn wide_rules(alloc: Global, labels: u32) -> Option<Vec<Rule<u32>>> {
    let mut rules = Vec::new(alloc);
    for label in 0..labels {
        rules.push(leaf_rule(alloc, label)?).ok()?;
    }
    Some(rules)
}

fn name_texts(alloc: Global, states: u8) -> Option<Vec<Vec<u8>>> {
    let mut texts = Vec::new(alloc);
    for n in 0..states {
        texts.push(vec![in alloc; b'q'; n as usize + 1].ok()?).ok()?;
    }
    Some(texts)
}

/// The states with these names.
pub fn named(alloc: Global, texts: Vec<Vec<u8>>) -> Option<Names> {
    if texts.len() > 100_000 {
        return None;
    }
    Names::from_list(alloc, texts).ok()?
}

/// The grammar of these rules over these names.
pub fn grammar_over<S>(names: Names, rules: Vec<Rule<u32>>) -> Option<Grammar<S>> {
    if rules.len() > 100_000 {
        return None;
    }
    Grammar::new(names, rules)
}

/// The grammar of these rules over this number of states, which are named q, qq and so on.
pub fn grammar_of<S>(alloc: Global, states: u8, rules: Vec<Rule<u32>>) -> Option<Grammar<S>> {
    let names = named(alloc, name_texts(alloc, states)?)?;
    grammar_over(names, rules)
}

/// The grammar of these rows over this number of states.
pub fn make_grammar<S>(alloc: Global, states: u8, rows: &[Row]) -> Option<Grammar<S>> {
    grammar_of(alloc, states, make_rules(alloc, rows)?)
}

/// The grammar of these rows over this number of states, where it is in normal form.
pub fn make_normal<S: Drop>(alloc: Global, states: u8, rows: &[Row]) -> Option<Normal<S>> {
    Normal::new(alloc, make_grammar::<S>(alloc, states, rows)?).ok()?
}

fn are_parts(items: &[Item<u32>], parts: &[Part]) -> bool {
    if items.len() != parts.len() {
        return false;
    }
    for i in 0..items.len() {
        if items[i] != item_of(parts[i]) {
            return false;
        }
    }
    true
}

fn is_of_row(rule: &Rule<u32>, row: &Row) -> bool {
    rule.left == row.0 && rule.cost.get() == row.2 && are_parts(rule.right.items(), row.1)
}

/// Whether the rules are those of the rows.
pub fn are_of_rows(rules: &[Rule<u32>], rows: &[Row]) -> bool {
    if rules.len() != rows.len() {
        return false;
    }
    for i in 0..rules.len() {
        if !is_of_row(&rules[i], &rows[i]) {
            return false;
        }
    }
    true
}

fn number_of(cost: &Option<Cost>) -> Option<u64> {
    match cost {
        Some(cost) => Some(cost.get()),
        None => None,
    }
}

/// Whether the costs have these numbers.
pub fn have_numbers(costs: &[Option<Cost>], numbers: &[Option<u64>]) -> bool {
    if costs.len() != numbers.len() {
        return false;
    }
    for i in 0..costs.len() {
        if number_of(&costs[i]) != numbers[i] {
            return false;
        }
    }
    true
}
