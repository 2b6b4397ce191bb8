// What backward application reaches of small grammars. On the left the labels are f 0, g 1, a 2 and
// b 3, on the right h 4, k 5 and c 6.
use crate::applications::{Case, Direction, reaches};
use crate::grammars::Row;
use crate::transducers::{Move, Node};
use tib_cost::MOST;

const F: Node = Node::Over(0, 2);

const G: Node = Node::Over(1, 1);

const A: Node = Node::Over(2, 0);

const B: Node = Node::Over(3, 0);

const H: Node = Node::Over(4, 2);

const K: Node = Node::Over(5, 1);

const C: Node = Node::Over(6, 0);

// On the left x0 and x1, on the right t.x0 and t.x1.
const X0: Node = Node::Plain(0);

const X1: Node = Node::Plain(1);

const READS_0: Node = Node::Reads(0, 0);

const READS_1: Node = Node::Reads(0, 1);

// The positions 0, 1 and 2.
const AT_0: Node = Node::At(0);

const AT_1: Node = Node::At(1);

const AT_2: Node = Node::At(2);

// f(g(x) y) to h(y x), a to c, and g(x) to x
const TURNS: [Move; 3] = [
    (0, &[F, G, X0, X1], &[H, READS_1, READS_0], 1),
    (0, &[A], &[C], 2),
    (0, &[G, X0], &[READS_0], 3),
];

const PAIR: [Row; 3] = [(0, 4, &[1, 2], 10), (1, 6, &[], 20), (2, 6, &[], 30)];

// g(x) to k(x), where x begins with a, and a and b to c
const ASKS: [Move; 3] = [
    (0, &[G, Node::Asks(0, 2)], &[K, READS_0], 1),
    (0, &[A], &[C], 2),
    (0, &[B], &[C], 4),
];

// a and b to c, one of them too expensive
const DEAR: [Move; 2] = [(0, &[A], &[C], MOST), (0, &[B], &[C], MOST - 1)];

// f(x y) to k(y)
const DELETING: Move = (0, &[F, X0, X1], &[K, READS_1], 1);

// a to c, and f(x y) to h(x x) and to k(y)
const OUTSIDE: [Move; 3] = [
    (0, &[A], &[C], 1),
    (0, &[F, X0, X1], &[H, READS_0, READS_0], 1),
    DELETING,
];

const DELETES: [Move; 1] = [DELETING];

const KEPT: [Row; 2] = [(0, 5, &[1], 5), (1, 6, &[], 6)];

const LEAF: [Row; 1] = [(0, 6, &[], 1)];

static CASES: [Case; 6] = [
    (
        &TURNS,
        &PAIR,
        27,
        Ok((
            &[(0, 0, 0), (0, 1, 0), (0, 2, 0)],
            &[
                (0, &[F, G, AT_2, AT_1], 11),
                (0, &[G, AT_0], 3),
                (1, &[A], 22),
                (1, &[G, AT_1], 3),
                (2, &[A], 32),
                (2, &[G, AT_2], 3),
            ],
            27,
        )),
    ),
    (&TURNS, &PAIR, 26, Err("more than 26 parts")),
    (
        &ASKS,
        &KEPT,
        99,
        Ok((
            &[(0, 0, 0), (0, 1, 1)],
            &[(0, &[G, AT_1], 6), (1, &[A], 8)],
            12,
        )),
    ),
    (&DEAR, &LEAF, 99, Ok((&[(0, 0, 0)], &[(0, &[B], MOST)], 5))),
    (&OUTSIDE, &PAIR, 99, Err("rule 2: not linear")),
    (&DELETES, &PAIR, 99, Err("rule 1: not nondeleting")),
];

fn cases() -> &'static [Case] {
    &CASES
}

#[test]
fn backward_application_reaches(rt: HostRuntime) {
    for case in cases() {
        assert!(rt; reaches(rt.alloc(), Direction::Backward, case));
    }
}
