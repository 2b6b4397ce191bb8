// What compositions of small transducers reach. The labels are A 0, a 1, F 2, b 3, G 4, c 5, H 6, d
// 7 and K 8, the states q 0 and r 1.
ghost use Rattle.std.specs.Prelude.{◌≤◌};

use crate::transducers::{Move, Node, transducer};
use std::alloc::Global;
use std::sync::Wait;
use std::thread::Threads;
use tib_compose::ComposeError;
use tib_cost::{MOST, MinPlus};
use tib_expand::{Found, Open};
use tib_grammar::Item;
use tib_key_edges::StatePair;
use tib_reached::{Hunters, compose, compose_together};
use tib_transducer::{Pair, Transducer, TransducerRule, Variable};
use tib_tree::Label;

const A1: Node = Node::Over(0, 1);

const A0: Node = Node::Over(1, 0);

const F2: Node = Node::Over(2, 2);

const B0: Node = Node::Over(3, 0);

const G2: Node = Node::Over(4, 2);

const C0: Node = Node::Over(5, 0);

const H1: Node = Node::Over(6, 1);

const D0: Node = Node::Over(7, 0);

const K1: Node = Node::Over(8, 1);

// On the left x0 and x1, and x0:a.
const X0: Node = Node::Plain(0);

const X1: Node = Node::Plain(1);

const X0_LOW: Node = Node::Asks(0, 1);

// On the right q.x0 and q.x1, r.x0 and r.x1.
const Q_X0: Node = Node::Reads(0, 0);

const Q_X1: Node = Node::Reads(0, 1);

const R_X0: Node = Node::Reads(1, 0);

const R_X1: Node = Node::Reads(1, 1);

// q.A(x0) -> F(q.x0 q.x0) # 1 and q.a -> b # 2
const COPIES: [Move; 2] = [(0, &[A1, X0], &[F2, Q_X0, Q_X0], 1), (0, &[A0], &[B0], 2)];

// q.F(x0 x1) -> G(r.x1 q.x0) # 1, q.b -> c # 0 and r.b -> d # 4
const TURNS: [Move; 3] = [
    (0, &[F2, X0, X1], &[G2, R_X1, Q_X0], 1),
    (0, &[B0], &[C0], 0),
    (1, &[B0], &[D0], 4),
];

// q.F(x0 x1) -> H(q.x1) # 1, q.a -> b # 0 and q.H(x0) -> q.x0 # 7
const DELETES: [Move; 3] = [
    (0, &[F2, X0, X1], &[H1, Q_X1], 1),
    (0, &[A0], &[B0], 0),
    (0, &[H1, X0], &[Q_X0], 7),
];

// q.H(x0) -> q.x0 # 2 and q.b -> c # 3
const DROPS: [Move; 2] = [(0, &[H1, X0], &[Q_X0], 2), (0, &[B0], &[C0], 3)];

// q.A(A(x0:a)) -> F(H(q.x0) b) # 1
const EXTENDED: [Move; 1] = [(0, &[A1, A1, X0_LOW], &[F2, H1, Q_X0, B0], 1)];

// q.F(x0 x1) -> G(q.x0 r.x1) # 1, q.H(x0) -> H(r.x0) # 1, q.H(x0) -> q.x0 # 5 and r.b -> c # 2
const CHOOSES: [Move; 4] = [
    (0, &[F2, X0, X1], &[G2, Q_X0, R_X1], 1),
    (0, &[H1, X0], &[H1, R_X0], 1),
    (0, &[H1, X0], &[Q_X0], 5),
    (1, &[B0], &[C0], 2),
];

// q.A(x0) -> F(H(q.x0) H(q.x0)) # 0
const COPIES_BELOW: [Move; 1] = [(0, &[A1, X0], &[F2, H1, Q_X0, H1, Q_X0], 0)];

// q.F(x0 x1) -> G(q.x0 q.x1) # 0, q.H(x0) -> H(q.x0) # 1 and q.H(x0) -> q.x0 # 2
const TWO_WAYS: [Move; 3] = [
    (0, &[F2, X0, X1], &[G2, Q_X0, Q_X1], 0),
    (0, &[H1, X0], &[H1, Q_X0], 1),
    (0, &[H1, X0], &[Q_X0], 2),
];

// q.A(x0) -> H(H(q.x0)) at one less than the greatest cost, and q.a -> b at the greatest cost
const DEAR: [Move; 2] = [
    (0, &[A1, X0], &[H1, H1, Q_X0], MOST - 1),
    (0, &[A0], &[B0], MOST),
];

// q.H(x0) -> H(q.x0) # 1, q.H(x0) -> K(q.x0) # 0, q.b -> c # 1 and q.b -> d # 0
const ADDS: [Move; 4] = [
    (0, &[H1, X0], &[H1, Q_X0], 1),
    (0, &[H1, X0], &[K1, Q_X0], 0),
    (0, &[B0], &[C0], 1),
    (0, &[B0], &[D0], 0),
];

// q.A(x0:a) -> A(q.x0)
const ASKS: [Move; 1] = [(0, &[A1, X0_LOW], &[A1, Q_X0], 0)];

// How many workers there are, or 0 for a hunt without them, a limit, and the text of the error, if
// there is one.
type Run = (u32, u64, Option<&'static str>);

// Two transducers, what their composition reaches (the pairs of states, the rules over their
// positions and the parts), and its runs. In the rules q and r are the positions 0 and 1.
type Composition = (
    &'static [Move],
    &'static [Move],
    &'static [(u32, u32)],
    &'static [Move],
    u64,
    &'static [Run],
);

static COMPOSITIONS: [Composition; 9] = [
    // two copies of a variable are read on from two states, and a pair without edges stays
    (
        &COPIES,
        &TURNS,
        &[(0, 0), (0, 1)],
        &[
            (0, &[A1, X0], &[G2, R_X0, Q_X0], 2),
            (0, &[A0], &[C0], 2),
            (1, &[A0], &[D0], 6),
        ],
        18,
        &[
            (0, 18, None),
            (0, 17, Some("more than 17 parts")),
            (1, 18, None),
            (4, 17, Some("more than 17 parts")),
        ],
    ),
    (
        &DELETES,
        &DROPS,
        &[(0, 0)],
        &[
            (0, &[F2, X0, X1], &[Q_X1], 3),
            (0, &[A0], &[C0], 3),
            (0, &[H1, X0], &[Q_X0], 7),
        ],
        15,
        &[(0, 99, None), (16, 99, None)],
    ),
    (
        &EXTENDED,
        &CHOOSES,
        &[(0, 0), (0, 1)],
        &[
            (0, &[A1, A1, X0_LOW], &[G2, H1, R_X0, C0], 5),
            (0, &[A1, A1, X0_LOW], &[G2, Q_X0, C0], 9),
        ],
        21,
        &[
            (0, 21, None),
            (0, 20, Some("more than 20 parts")),
            (2, 21, None),
        ],
    ),
    // where a side occurs twice below a label each is translated by itself
    (
        &COPIES_BELOW,
        &TWO_WAYS,
        &[(0, 0)],
        &[
            (0, &[A1, X0], &[G2, H1, Q_X0, H1, Q_X0], 2),
            (0, &[A1, X0], &[G2, H1, Q_X0, Q_X0], 3),
            (0, &[A1, X0], &[G2, Q_X0, H1, Q_X0], 3),
            (0, &[A1, X0], &[G2, Q_X0, Q_X0], 4),
        ],
        31,
        &[(0, 99, None)],
    ),
    // what costs more than the greatest cost is no edge
    (
        &DEAR,
        &ADDS,
        &[(0, 0)],
        &[
            (0, &[A1, X0], &[H1, K1, Q_X0], MOST),
            (0, &[A1, X0], &[K1, H1, Q_X0], MOST),
            (0, &[A1, X0], &[K1, K1, Q_X0], MOST - 1),
            (0, &[A0], &[D0], MOST),
        ],
        24,
        &[(0, 99, None), (3, 99, None)],
    ),
    // these are refused
    (
        &TURNS,
        &COPIES,
        &[],
        &[],
        0,
        &[(0, 99, Some("rule 1: not linear"))],
    ),
    (
        &COPIES,
        &DELETES,
        &[],
        &[],
        0,
        &[(0, 99, Some("rule 1: not nondeleting"))],
    ),
    (
        &COPIES,
        &EXTENDED,
        &[],
        &[],
        0,
        &[(0, 99, Some("rule 1: extended"))],
    ),
    (
        &COPIES,
        &ASKS,
        &[],
        &[],
        0,
        &[(4, 99, Some("rule 1: labelled"))],
    ),
];

fn compositions() -> &'static [Composition] {
    &COMPOSITIONS
}

fn is_variable(variable: &Variable, number: u32, label: Option<Label>) -> bool {
    variable.number == number && variable.label == label
}

fn is_left_item(item: &Item<Variable>, node: Node) -> bool {
    match (item, node) {
        (Item::Label { label, rank }, Node::Over(own, many)) => *label == own && *rank == many,
        (Item::Hole(variable), Node::Plain(number)) => is_variable(variable, number, None),
        (Item::Hole(variable), Node::Asks(number, label)) => {
            is_variable(variable, number, Some(label))
        }
        _ => false,
    }
}

fn is_left(items: &[Item<Variable>], nodes: &[Node]) -> bool {
    if items.len() != nodes.len() {
        return false;
    }
    for i in 0..items.len() {
        if !is_left_item(&items[i], nodes[i]) {
            return false;
        }
    }
    true
}

fn is_right_item(item: &Item<Pair<u32>>, node: Node) -> bool {
    match (item, node) {
        (Item::Label { label, rank }, Node::Over(own, many)) => *label == own && *rank == many,
        (Item::Hole(pair), Node::Reads(position, variable)) => {
            pair.state == position && pair.variable == variable
        }
        _ => false,
    }
}

// Each pair of a right-hand side has a position and a variable.
fn is_right(items: &[Item<Pair<u32>>], nodes: &[Node]) -> bool {
    if items.len() != nodes.len() {
        return false;
    }
    for i in 0..items.len() {
        if !is_right_item(&items[i], nodes[i]) {
            return false;
        }
    }
    true
}

fn is_rule(rule: &TransducerRule<u32>, wanted: &Move) -> bool {
    let (position, left, right, cost) = wanted;
    rule.state == *position
        && rule.cost.get() == *cost
        && is_left(rule.left.items(), left)
        && is_right(rule.right.items(), right)
}

fn are_rules(rules: &[TransducerRule<u32>], wanted: &[Move]) -> bool {
    if rules.len() != wanted.len() {
        return false;
    }
    for i in 0..rules.len() {
        if !is_rule(&rules[i], &wanted[i]) {
            return false;
        }
    }
    true
}

fn are_pairs(pairs: &[StatePair], wanted: &[(u32, u32)]) -> bool {
    if pairs.len() != wanted.len() {
        return false;
    }
    for i in 0..pairs.len() {
        if (pairs[i].first(), pairs[i].second()) != wanted[i] {
            return false;
        }
    }
    true
}

type Answer = Result<Found<StatePair, TransducerRule<u32>>, ComposeError>;

fn is_composition(found: &Found<StatePair, TransducerRule<u32>>, wanted: &Composition) -> bool {
    let (_, _, pairs, rules, parts, _) = wanted;
    found.parts == *parts && are_pairs(&found.order, pairs) && are_rules(&found.rules, rules)
}

// Whether this is the text of an error, if one is wanted; false where memory is refused.
fn is_told(alloc: Global, error: &ComposeError, wanted: Option<&str>) -> bool {
    let Some(text) = wanted else {
        return false;
    };
    match error.to_string(alloc) {
        Ok(told) => told.as_str() == text,
        Err(_) => false,
    }
}

// Whether an answer is the composition wanted, or where there is one the error.
fn is_answer(alloc: Global, answer: Answer, wanted: &Composition, error: Option<&str>) -> bool {
    match answer {
        Ok(found) => error.is_none() && is_composition(&found, wanted),
        Err(own) => is_told(alloc, &own, error),
    }
}

// What is returned, by one worker or, where their number is not 0, by several.
fn composed<R: Threads + Wait + Sync>(
    rt: &R,
    alloc: Global,
    first: &Transducer<MinPlus>,
    second: &Transducer<MinPlus>,
    workers: u32,
    limit: u64,
) -> Answer
    requires workers { workers ≤ 16 }
    requires some { 1 ≤ limit }
    requires limit { limit ≤ 999 }
{
    if workers == 0 {
        return compose(alloc, first, second, limit, &Open);
    }
    let hunters = Hunters {
        rt,
        workers,
        gate: &Open,
    };
    compose_together(&hunters, alloc, first, second, limit)
}

// Whether two transducers reach the composition wanted, or answer the error of a run; false where
// there is no such limit or number of workers.
fn answers<R: Threads + Wait + Sync>(
    rt: &R,
    alloc: Global,
    first: &Transducer<MinPlus>,
    second: &Transducer<MinPlus>,
    wanted: &Composition,
    run: &Run,
) -> bool {
    let (workers, limit, error) = run;
    if *limit == 0 || *limit > 999 || *workers > 16 {
        return false;
    }
    let answer = composed(rt, alloc, first, second, *workers, *limit);
    is_answer(alloc, answer, wanted, *error)
}

// The same for the second transducer of the composition; false where memory is refused, too.
fn reaches_second<R: Threads + Wait + Sync>(
    rt: &R,
    alloc: Global,
    first: &Transducer<MinPlus>,
    wanted: &Composition,
    run: &Run,
) -> bool {
    match transducer(alloc, wanted.1) {
        Some(second) => answers(rt, alloc, first, &second, wanted, run),
        None => false,
    }
}

// The same for the first transducer of the composition, too.
fn reaches<R: Threads + Wait + Sync>(
    rt: &R,
    alloc: Global,
    wanted: &Composition,
    run: &Run,
) -> bool {
    match transducer(alloc, wanted.0) {
        Some(first) => reaches_second(rt, alloc, &first, wanted, run),
        None => false,
    }
}

// The same for each run of the composition.
fn agrees<R: Threads + Wait + Sync>(rt: &R, alloc: Global, wanted: &Composition) -> bool {
    for run in wanted.5 {
        if !reaches(rt, alloc, wanted, run) {
            return false;
        }
    }
    true
}

#[test]
fn composition_reaches(rt: HostRuntime) {
    for composition in compositions() {
        assert!(rt; agrees(&rt, rt.alloc(), composition));
    }
}

// Sixty labels H, one above the other, and c below them.
const TOWER: &[Node] = &[
    H1, H1, H1, H1, H1, H1, H1, H1, H1, H1, H1, H1, H1, H1, H1, H1, H1, H1, H1, H1, H1, H1, H1, H1,
    H1, H1, H1, H1, H1, H1, H1, H1, H1, H1, H1, H1, H1, H1, H1, H1, H1, H1, H1, H1, H1, H1, H1, H1,
    H1, H1, H1, H1, H1, H1, H1, H1, H1, H1, H1, H1, C0,
];

// q.a -> H(H(.. c)) at the greatest cost
const TOWERS: [Move; 1] = [(0, &[A0], TOWER, MOST)];

// q.H(x0) -> K(q.x0), q.H(x0) -> K(r.x0) and the same from r
const BRANCHES: [Move; 4] = [
    (0, &[H1, X0], &[K1, Q_X0], 0),
    (0, &[H1, X0], &[K1, R_X0], 0),
    (1, &[H1, X0], &[K1, Q_X0], 0),
    (1, &[H1, X0], &[K1, R_X0], 0),
];

// The same with q.c -> c # 1 and r.c -> c # 1
const COSTS_AT_LAST: [Move; 6] = [
    (0, &[H1, X0], &[K1, Q_X0], 0),
    (0, &[H1, X0], &[K1, R_X0], 0),
    (0, &[C0], &[C0], 1),
    (1, &[H1, X0], &[K1, Q_X0], 0),
    (1, &[H1, X0], &[K1, R_X0], 0),
    (1, &[C0], &[C0], 1),
];

// The labels H of a tower are read in 2^60 ways. None of them gives an edge: c is not read, or at
// too great a cost. A search that finds this only at c never ends.
static TOWERED: [Composition; 2] = [
    (
        &TOWERS,
        &BRANCHES,
        &[(0, 0)],
        &[],
        3,
        &[(0, 99, None), (2, 99, None)],
    ),
    (
        &TOWERS,
        &COSTS_AT_LAST,
        &[(0, 0)],
        &[],
        3,
        &[(0, 99, None), (2, 99, None)],
    ),
];

fn towered() -> &'static [Composition] {
    &TOWERED
}

#[test]
fn a_tower_that_has_no_translation_ends(rt: HostRuntime) {
    for composition in towered() {
        assert!(rt; agrees(&rt, rt.alloc(), composition));
    }
}
