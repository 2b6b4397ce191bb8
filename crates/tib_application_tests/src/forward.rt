// What forward application reaches of small grammars. The labels are f 0, g 1, a 2, h 3, k 4 and c
// 5.
use crate::applications::{Case, Direction, reaches};
use crate::grammars::Row;
use crate::transducers::{Move, Node};
use tib_cost::MOST;

const F: Node = Node::Over(0, 2);

const G: Node = Node::Over(1, 1);

const H: Node = Node::Over(3, 2);

const K: Node = Node::Over(4, 1);

const A: Node = Node::Over(2, 0);

const C: Node = Node::Over(5, 0);

// On the left x0 and x1, on the right t.x0 and t.x1.
const X0: Node = Node::Plain(0);

const X1: Node = Node::Plain(1);

const READS_0: Node = Node::Reads(0, 0);

const READS_1: Node = Node::Reads(0, 1);

// t.f(x0 x1) -> h(t.x1 t.x0) # 10
const TURNS: Move = (0, &[F, X0, X1], &[H, READS_1, READS_0], 10);

// t.f(x0 x1) -> k(t.x0) # 0
const DELETES: Move = (0, &[F, X0, X1], &[K, READS_0], 0);

// t.f(x0 x1:g) -> k(t.x0) # 0
const DELETES_G: Move = (0, &[F, X0, Node::Asks(1, 1)], &[K, READS_0], 0);

// t.f(x0:g x1) -> h(t.x0 t.x1) # 0
const KEEPS_G: Move = (0, &[F, Node::Asks(0, 1), X1], &[H, READS_0, READS_1], 0);

// t.f(g(x0) x1) -> h(t.x0 t.x1) # 0
const EXTENDED: Move = (0, &[F, G, X0, X1], &[H, READS_0, READS_1], 0);

// t.f(x0 x1) -> h(t.x0 t.x0) # 0
const COPIES: Move = (0, &[F, X0, X1], &[H, READS_0, READS_0], 0);

// t.a -> c # 20
const ENDS: Move = (0, &[A], &[C], 20);

// t.g(x0) -> t.x0 # 5
const SKIPS: Move = (0, &[G, X0], &[READS_0], 5);

// p -> f(q q) # 1, q -> g(q) # 3 and q -> a # 2
const CHEAP: [Row; 3] = [(0, 0, &[1, 1], 1), (1, 1, &[1], 3), (1, 2, &[], 2)];

// The same where the first rule has the greatest cost.
const DEAR: [Row; 3] = [(0, 0, &[1, 1], MOST), (1, 1, &[1], 3), (1, 2, &[], 2)];

// The positions 1 and 2.
const AT_1: Node = Node::At(1);

const AT_2: Node = Node::At(2);

static CASES: [Case; 8] = [
    (
        &[TURNS, ENDS, SKIPS],
        &CHEAP,
        14,
        Ok((
            &[(0, 0, 0), (1, 0, 0)],
            &[(0, &[H, AT_1, AT_1], 11), (1, &[C], 22), (1, &[AT_1], 8)],
            14,
        )),
    ),
    (&[TURNS, ENDS, SKIPS], &CHEAP, 13, Err("more than 13 parts")),
    (
        &[EXTENDED, ENDS],
        &CHEAP,
        99,
        Ok((
            &[(0, 0, 0), (1, 0, 0)],
            &[(0, &[H, AT_1, AT_1], 4), (1, &[C], 22)],
            12,
        )),
    ),
    (
        &[KEEPS_G, ENDS, SKIPS],
        &CHEAP,
        99,
        Ok((
            &[(0, 0, 0), (1, 0, 0), (1, 0, 1)],
            &[
                (0, &[H, AT_2, AT_1], 1),
                (1, &[C], 22),
                (1, &[AT_1], 8),
                (2, &[AT_1], 8),
            ],
            20,
        )),
    ),
    (
        &[DELETES, ENDS],
        &CHEAP,
        99,
        Ok((
            &[(0, 0, 0), (1, 0, 0)],
            &[(0, &[K, AT_1], 3), (1, &[C], 22)],
            11,
        )),
    ),
    (
        &[DELETES_G, ENDS],
        &CHEAP,
        99,
        Ok((
            &[(0, 0, 0), (1, 0, 0)],
            &[(0, &[K, AT_1], 6), (1, &[C], 22)],
            11,
        )),
    ),
    (&[DELETES, ENDS], &DEAR, 99, Ok((&[(0, 0, 0)], &[], 3))),
    (&[ENDS, COPIES], &CHEAP, 99, Err("rule 2: not linear")),
];

fn cases() -> &'static [Case] {
    &CASES
}

#[test]
fn forward_application_reaches(rt: HostRuntime) {
    for case in cases() {
        assert!(rt; reaches(rt.alloc(), Direction::Forward, case));
    }
}
