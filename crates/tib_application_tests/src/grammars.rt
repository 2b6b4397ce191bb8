// Small grammars by their rules.
use std::alloc::Global;
use tib_cost::{Cost, MinPlus};
use tib_grammar::{Grammar, Names, Rule, Side};
use tib_normal::Normal;
use tib_tree::Label;

/// A rule of a grammar: its left state, its label, the states below it and its cost.
pub type Row = (u32, Label, &'static [u32], u64);

fn name(alloc: Global, letter: u8) -> Option<Vec<u8>> {
    let mut text = Vec::new(alloc);
    text.push(letter).ok()?;
    Some(text)
}

/// The names of four states, p, q, r and s.
pub fn names(alloc: Global) -> Option<Names> {
    let mut texts = Vec::new(alloc);
    for letter in b'p'..b't' {
        texts.push(name(alloc, letter)?).ok()?;
    }
    if texts.len() > 9 {
        return None;
    }
    Names::from_list(alloc, texts).ok()?
}

fn rule(alloc: Global, row: &Row) -> Option<Rule<u32>> {
    let (left, label, states, cost) = row;
    if states.len() > 9 {
        return None;
    }
    let cost = Cost::new(*cost)?;
    let right = Side::over(alloc, *label, states).ok()?;
    Some(Rule {
        left: *left,
        right,
        cost,
    })
}

fn rules(alloc: Global, rows: &[Row]) -> Option<Vec<Rule<u32>>> {
    let mut rules = Vec::new(alloc);
    for row in rows {
        rules.push(rule(alloc, row)?).ok()?;
    }
    Some(rules)
}

fn grammar(alloc: Global, rows: &[Row]) -> Option<Grammar<MinPlus>> {
    let rules = rules(alloc, rows)?;
    if rules.len() > 99 {
        return None;
    }
    Grammar::new(names(alloc)?, rules)
}

/// The grammar of these rules, whose start is the state 0; none where memory is refused.
pub fn normal(alloc: Global, rows: &[Row]) -> Option<Normal<MinPlus>> {
    Normal::new(alloc, grammar(alloc, rows)?).ok()?
}
