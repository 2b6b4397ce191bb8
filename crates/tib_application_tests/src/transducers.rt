// Small transducers by their rules.
use crate::grammars::names;
use std::alloc::Global;
use tib_cost::{Cost, MinPlus};
use tib_grammar::{Item, Side};
use tib_transducer::{Pair, Transducer, TransducerRule, Variable};
use tib_tree::Label;

/// An item of a side.
#[derive(Clone, Copy)]
pub enum Node {
    /// A label over this many children.
    Over(Label, u32),
    /// On the left, the variable of this number.
    Plain(u32),
    /// On the left, the variable of this number, which asks for a label.
    Asks(u32, Label),
    /// On the right, a state and the number of the variable that is read on from it.
    Reads(u32, u32),
    /// In a rule of what is reached, a position.
    At(u32),
}

/// A rule of a transducer: its state, its two sides and its cost.
pub type Move = (u32, &'static [Node], &'static [Node], u64);

fn hole(number: u32, label: Option<Label>) -> Item<Variable> {
    Item::Hole(Variable { number, label })
}

fn left_item(node: Node) -> Option<Item<Variable>> {
    match node {
        Node::Over(label, rank) => Some(Item::Label { label, rank }),
        Node::Plain(number) => Some(hole(number, None)),
        Node::Asks(number, label) => Some(hole(number, Some(label))),
        _ => None,
    }
}

fn right_item(node: Node) -> Option<Item<Pair<u32>>> {
    match node {
        Node::Over(label, rank) => Some(Item::Label { label, rank }),
        Node::Reads(state, variable) => Some(Item::Hole(Pair { state, variable })),
        _ => None,
    }
}

/// The left-hand side of these items; none where memory is refused.
pub fn left_side(alloc: Global, nodes: &[Node]) -> Option<Side<Variable>> {
    let mut items = Vec::new(alloc);
    for node in nodes {
        items.push(left_item(*node)?).ok()?;
    }
    if items.len() > 99 {
        return None;
    }
    Side::from_preorder(items).ok()
}

fn right_side(alloc: Global, nodes: &[Node]) -> Option<Side<Pair<u32>>> {
    let mut items = Vec::new(alloc);
    for node in nodes {
        items.push(right_item(*node)?).ok()?;
    }
    if items.len() > 99 {
        return None;
    }
    Side::from_preorder(items).ok()
}

fn rule(alloc: Global, one: &Move) -> Option<TransducerRule<u32>> {
    let (state, left, right, cost) = one;
    let cost = Cost::new(*cost)?;
    let left = left_side(alloc, left)?;
    let right = right_side(alloc, right)?;
    Some(TransducerRule {
        state: *state,
        left,
        right,
        cost,
    })
}

/// The rules of these moves; none where memory is refused.
pub fn rules(alloc: Global, moves: &[Move]) -> Option<Vec<TransducerRule<u32>>> {
    let mut rules = Vec::new(alloc);
    for one in moves {
        rules.push(rule(alloc, one)?).ok()?;
    }
    Some(rules)
}

/// The transducer of these rules, whose start is the state 0; none where memory is refused.
pub fn transducer(alloc: Global, moves: &[Move]) -> Option<Transducer<MinPlus>> {
    let rules = rules(alloc, moves)?;
    if rules.len() > 99 {
        return None;
    }
    Transducer::new(names(alloc)?, rules)
}
