// What is reached of small trees, as text. The labels are A 0, a 1, B 2, b 3, c 4, S 5 and Z 6.
use crate::texts::{is_text, write_dotted, write_rules};
use crate::transducers::{Move, Node, transducer};
use std::alloc::{AllocError, Global};
use std::sync::Wait;
use std::thread::Threads;
use tib_cost::MinPlus;
use tib_expand::{Found, HuntError, Open, TableKey};
use tib_grammar::Rule;
use tib_image::Key;
use tib_reached::{Hunters, image, image_together};
use tib_transducer::Transducer;
use tib_tree::{Label, Tree};

// On the left x0: and x1:, on the right t.x0 and t.x1.
const X0: Node = Node::Plain(0);

const X1: Node = Node::Plain(1);

const T_X0: Node = Node::Reads(0, 0);

const T_X1: Node = Node::Reads(0, 1);

const OVER_A: Node = Node::Over(0, 1);

const OVER_S: Node = Node::Over(5, 2);

const OVER_B: Node = Node::Over(2, 2);

const OVER_Z: Node = Node::Over(6, 1);

// t.A(x0:) -> B(t.x0 t.x0) # 1
const COPIES: Move = (0, &[OVER_A, X0], &[OVER_B, T_X0, T_X0], 1);

// t.a -> b # 0
const TO_B: Move = (0, &[Node::Over(1, 0)], &[Node::Over(3, 0)], 0);

// t.a -> c # 2
const TO_C: Move = (0, &[Node::Over(1, 0)], &[Node::Over(4, 0)], 2);

// t.b -> c # 0
const B_TO_C: Move = (0, &[Node::Over(3, 0)], &[Node::Over(4, 0)], 0);

// t.S(x0:b x1:) -> Z(t.x1) # 0
const ASKS_B: Move = (0, &[OVER_S, Node::Asks(0, 3), X1], &[OVER_Z, T_X1], 0);

// t.S(x0:a x1:) -> Z(t.x1) # 0
const ASKS_A: Move = (0, &[OVER_S, Node::Asks(0, 1), X1], &[OVER_Z, T_X1], 0);

// t.B(x0: x1:) -> B(t.x0 t.x1) # 1
const PASSES: Move = (0, &[Node::Over(2, 2), X0, X1], &[OVER_B, T_X0, T_X1], 1);

// t.A(A(x0:)) -> t.x0 # 7
const EXTENDED: Move = (0, &[OVER_A, OVER_A, X0], &[T_X0], 7);

const COPYING: &[Move] = &[COPIES, TO_B, TO_C];

const PASSING: &[Move] = &[PASSES, TO_B, TO_C];

// The rules of a transducer, the labels and ranks of a tree in preorder, how many workers there
// are, or 0 for a hunt without them, a limit, and what is returned.
type Case = (
    &'static [Move],
    &'static [(Label, u32)],
    u32,
    u64,
    &'static str,
);

const BOTH: &str = "0 1 2 | 0 > 2 :1 :2 # 1; 1 > 3 # 0; 1 > 4 # 2; 2 > 3 # 0; 2 > 4 # 2; 21";

static CASES: [Case; 10] = [
    // a copy leads to one key
    (
        COPYING,
        &[(0, 1), (1, 0)],
        0,
        14,
        "0 1 | 0 > 2 :1 :1 # 1; 1 > 3 # 0; 1 > 4 # 2; 14",
    ),
    (COPYING, &[(0, 1), (1, 0)], 0, 13, "more than 13 parts"),
    (
        COPYING,
        &[(0, 1), (5, 0)],
        0,
        99,
        "0 1 | 0 > 2 :1 :1 # 1; 10",
    ),
    (
        COPYING,
        &[(0, 1), (0, 1), (0, 1), (1, 0)],
        0,
        99,
        "0 1 2 3 | 0 > 2 :1 :1 # 1; 1 > 2 :2 :2 # 1; 2 > 2 :3 :3 # 1; 3 > 3 # 0; 3 > 4 # 2; 28",
    ),
    // every number of workers reaches the same
    (PASSING, &[(2, 2), (1, 0), (1, 0)], 1, 99, BOTH),
    (PASSING, &[(2, 2), (1, 0), (1, 0)], 2, 99, BOTH),
    (PASSING, &[(2, 2), (1, 0), (1, 0)], 16, 99, BOTH),
    // labels are asked for, and nodes are passed
    (&[ASKS_B, B_TO_C], &[(5, 2), (1, 0), (3, 0)], 0, 99, "0 | 3"),
    (
        &[ASKS_A, B_TO_C],
        &[(5, 2), (1, 0), (3, 0)],
        0,
        99,
        "0 2 | 0 > 6 :1 # 0; 1 > 4 # 0; 11",
    ),
    (
        &[EXTENDED, TO_B],
        &[(0, 1), (0, 1), (1, 0)],
        0,
        99,
        "0 2 | 0 > :1 # 7; 1 > 3 # 0; 10",
    ),
];

fn cases() -> &'static [Case] {
    &CASES
}

fn tree(alloc: Global, items: &[(Label, u32)]) -> Option<Tree> {
    if items.len() > 99 {
        return None;
    }
    Tree::from_preorder(alloc, items).ok()
}

// The nodes of the keys, the rules over the positions of the order and the parts.
fn write_found(alloc: Global, found: &Found<Key, Rule<u32>>) -> Result<String, AllocError> {
    let mut text = String::new(alloc);
    for key in &found.order {
        write_dotted(&mut text, key.node(), &[])?;
    }
    write_rules(&mut text, &found.rules, found.parts)?;
    Ok(text)
}

// Whether this is what was found, or the text of the error.
fn is_told(alloc: Global, answer: Result<Found<Key, Rule<u32>>, HuntError>, want: &str) -> bool {
    match answer {
        Ok(found) => is_text(write_found(alloc, &found), want),
        Err(error) => is_text(error.to_string(alloc), want),
    }
}

// Whether a case is answered so, by one worker or, where their number is not 0, by several; false
// where there is no such limit or number of workers.
fn is_answered<R: Threads + Wait + Sync>(
    rt: &R,
    alloc: Global,
    transducer: &Transducer<MinPlus>,
    tree: &Tree,
    case: &Case,
) -> bool {
    let (_, _, workers, limit, want) = case;
    if *limit == 0 || *limit > 99 || *workers > 16 {
        return false;
    }
    if *workers == 0 {
        return is_told(alloc, image(alloc, transducer, tree, *limit, &Open), want);
    }
    let hunters = Hunters {
        rt,
        workers: *workers,
        gate: &Open,
    };
    let answer = image_together(&hunters, alloc, transducer, tree, *limit);
    is_told(alloc, answer, want)
}

// The same, with the tree of the case.
fn is_tree_answered<R: Threads + Wait + Sync>(
    rt: &R,
    alloc: Global,
    transducer: &Transducer<MinPlus>,
    case: &Case,
) -> bool {
    match tree(alloc, case.1) {
        Some(tree) => is_answered(rt, alloc, transducer, &tree, case),
        None => false,
    }
}

// The same, with its transducer.
fn is_case_answered<R: Threads + Wait + Sync>(rt: &R, alloc: Global, case: &Case) -> bool {
    match transducer(alloc, case.0) {
        Some(transducer) => is_tree_answered(rt, alloc, &transducer, case),
        None => false,
    }
}

#[test]
fn images_are_reached(rt: HostRuntime) {
    for case in cases() {
        assert!(rt; is_case_answered(&rt, rt.alloc(), case));
    }
}

// Whether a key has the state 3, the node 4, two entries and the shelf 10.
fn is_filed(key: Key) -> bool {
    key.state() == 3 && key.node() == 4 && key.entries() == 2 && key.shelf() == 10
}

#[test]
fn keys_are_told_by_their_numbers(rt: HostRuntime) {
    assert!(rt; is_filed(Key::new(3, 4)) && Key::new(3, 3) < Key::new(3, 4));
}
