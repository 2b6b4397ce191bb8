// Keys of application, the restrictions of one rule, and what is reached compared with what is
// wanted.
ghost use Rattle.std.specs.Prelude.{◌≤◌};

use crate::grammars::{Row, normal};
use crate::transducers::{Move, Node, rules, transducer};
use std::alloc::Global;
use tib_apply::{ApplyError, Key, Restrictions};
use tib_cost::MinPlus;
use tib_expand::{Found, Open, TableKey};
use tib_grammar::{Item, Rule};
use tib_normal::Normal;
use tib_reached::{apply_backward, apply_forward};
use tib_transducer::{Transducer, TransducerRule};

/// The two states and the restriction of a key.
pub type Numbers = (u32, u32, u32);

/// A rule over positions: its position, its right-hand side and its cost.
pub type Edge = (u32, &'static [Node], u64);

/// The keys, the rules over their positions and the parts.
pub type Reached = (&'static [Numbers], &'static [Edge], u64);

/// What is reached, or the text of the error.
pub type Wanted = Result<Reached, &'static str>;

/// The way in which a transducer is applied.
#[derive(Clone, Copy)]
pub enum Direction {
    Forward,
    Backward,
}

/// The rules of a transducer and of a grammar, a limit, and what is returned.
pub type Case = (&'static [Move], &'static [Row], u64, Wanted);

// What an application returns.
type Answer = Result<Found<Key, Rule<u32>>, ApplyError>;

fn is_key(key: Key, wanted: Numbers) -> bool {
    let (first, second, restriction) = wanted;
    key.first() == first && key.second() == second && key.restriction() == restriction
}

fn are_keys(order: &[Key], wanted: &[Numbers]) -> bool {
    if order.len() != wanted.len() {
        return false;
    }
    for i in 0..order.len() {
        if !is_key(order[i], wanted[i]) {
            return false;
        }
    }
    true
}

fn is_item(item: &Item<u32>, node: Node) -> bool {
    match (item, node) {
        (Item::Label { label, rank }, Node::Over(own, many)) => *label == own && *rank == many,
        (Item::Hole(position), Node::At(own)) => *position == own,
        _ => false,
    }
}

fn are_items(items: &[Item<u32>], nodes: &[Node]) -> bool {
    if items.len() != nodes.len() {
        return false;
    }
    for i in 0..items.len() {
        if !is_item(&items[i], nodes[i]) {
            return false;
        }
    }
    true
}

fn is_rule(rule: &Rule<u32>, edge: &Edge) -> bool {
    let (position, nodes, cost) = edge;
    rule.left == *position && rule.cost.get() == *cost && are_items(rule.right.items(), nodes)
}

fn are_rules(rules: &[Rule<u32>], edges: &[Edge]) -> bool {
    if rules.len() != edges.len() {
        return false;
    }
    for i in 0..rules.len() {
        if !is_rule(&rules[i], &edges[i]) {
            return false;
        }
    }
    true
}

fn is_reached(found: &Found<Key, Rule<u32>>, wanted: &Wanted) -> bool {
    let Ok((keys, edges, parts)) = wanted else {
        return false;
    };
    found.parts == *parts && are_keys(&found.order, keys) && are_rules(&found.rules, edges)
}

// Whether the text of an error is the one wanted; false where memory is refused.
fn is_told(alloc: Global, error: &ApplyError, wanted: &Wanted) -> bool {
    let Err(text) = wanted else {
        return false;
    };
    match error.to_string(alloc) {
        Ok(told) => told.as_str() == *text,
        Err(_) => false,
    }
}

// Whether an answer is the one wanted; false where memory is refused.
fn is_wanted(alloc: Global, answer: Answer, wanted: &Wanted) -> bool {
    match answer {
        Ok(found) => is_reached(&found, wanted),
        Err(error) => is_told(alloc, &error, wanted),
    }
}

// What an application in a direction returns.
fn applied(
    alloc: Global,
    direction: Direction,
    transducer: &Transducer<MinPlus>,
    grammar: &Normal<MinPlus>,
    limit: u64,
) -> Answer
    requires some { 1 ≤ limit }
    requires limit { limit ≤ 99 }
{
    match direction {
        Direction::Forward => apply_forward(alloc, grammar, transducer, limit, &Open),
        Direction::Backward => apply_backward(alloc, transducer, grammar, limit, &Open),
    }
}

// Whether that is what a case wants; false where there is no such limit.
fn answers(
    alloc: Global,
    direction: Direction,
    transducer: &Transducer<MinPlus>,
    grammar: &Normal<MinPlus>,
    case: &Case,
) -> bool {
    let limit = case.2;
    if limit == 0 || limit > 99 {
        return false;
    }
    let answer = applied(alloc, direction, transducer, grammar, limit);
    is_wanted(alloc, answer, &case.3)
}

// The same for the grammar of the case; false where memory is refused, too.
fn answers_rows(
    alloc: Global,
    direction: Direction,
    transducer: &Transducer<MinPlus>,
    case: &Case,
) -> bool {
    match normal(alloc, case.1) {
        Some(grammar) => answers(alloc, direction, transducer, &grammar, case),
        None => false,
    }
}

/// Whether an application in a direction returns what a case wants; false where memory is refused,
/// too.
pub fn reaches(alloc: Global, direction: Direction, case: &Case) -> bool {
    match transducer(alloc, case.0) {
        Some(transducer) => answers_rows(alloc, direction, &transducer, case),
        None => false,
    }
}

// Whether a key has these numbers, this many entries, and this shelf.
fn is_filed(key: Key, numbers: Numbers, entries: u64, shelf: u32) -> bool {
    is_key(key, numbers) && key.entries() == entries && key.shelf() == shelf
}

// Whether this holds of a key with a restriction, and one without it has one entry less and comes
// before.
fn are_filed(restricted: Key, free: Key) -> bool {
    is_filed(restricted, (3, 4, 5), 3, 4) && free.entries() == 2 && free < restricted
}

#[test]
fn a_restriction_is_an_entry_of_a_key(rt: HostRuntime) {
    assert!(rt; are_filed(Key::new(3, 4, 5), Key::new(3, 4, 0)));
}

const F3: Node = Node::Over(0, 3);

const G0: Node = Node::Over(1, 0);

// Two rules that leave out variables with some labels.
static LEAVING: [Move; 2] = [
    (
        0,
        &[F3, Node::Asks(0, 7), Node::Plain(1), Node::Asks(2, 5)],
        &[G0],
        0,
    ),
    (
        0,
        &[F3, Node::Asks(0, 5), Node::Asks(1, 9), Node::Asks(2, 7)],
        &[G0],
        0,
    ),
];

// The number of a restriction, a label, and whether the restriction admits it.
static ADMITTED: [(u32, u32, bool); 6] = [
    (0, 7, true),
    (1, 7, true),
    (1, 5, false),
    (2, 5, true),
    (3, 9, true),
    (4, 9, false),
];

fn admitted() -> &'static [(u32, u32, bool)] {
    &ADMITTED
}

// Whether a restriction admits a label, or does not, as wanted.
fn admits(restrictions: &Restrictions, row: &(u32, u32, bool)) -> bool {
    let (number, label, wanted) = row;
    restrictions.admits(*number, *label) == *wanted
}

// The same for the restrictions of some rules; false where memory is refused.
fn rules_admit(alloc: Global, rules: &[TransducerRule<u32>], row: &(u32, u32, bool)) -> bool {
    match Restrictions::new(alloc, rules) {
        Ok(restrictions) => admits(&restrictions, row),
        Err(_) => false,
    }
}

// The same for the rules above.
fn is_admitted(alloc: Global, row: &(u32, u32, bool)) -> bool {
    match rules(alloc, &LEAVING) {
        Some(rules) => rules_admit(alloc, &rules, row),
        None => false,
    }
}

#[test]
fn labels_are_numbered_where_they_first_stand(rt: HostRuntime) {
    for row in admitted() {
        assert!(rt; is_admitted(rt.alloc(), row));
    }
}
