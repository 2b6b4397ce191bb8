// The trees that small transducers read, as parses of the empty string. The labels are A 0, b 1, B
// 2 and e 3.
use crate::parse::is_told;
use crate::transducers::{Move, Node, transducer};
use std::alloc::Global;
use tib_cost::MinPlus;
use tib_domain::domain_transducer;
use tib_expand::Open;
use tib_reached::parse;
use tib_strings::StringTransducer;

// t.A(x0: x1:) -> B(t.x0) # 1
const LEFT_OUT: Move = (
    0,
    &[Node::Over(0, 2), Node::Plain(0), Node::Plain(1)],
    &[Node::Over(2, 1), Node::Reads(0, 0)],
    1,
);

// t.A(x0: x1:b) -> t.x0 # 2
const LONE: Move = (
    0,
    &[Node::Over(0, 2), Node::Plain(0), Node::Asks(1, 1)],
    &[Node::Reads(0, 0)],
    2,
);

// t.b -> e # 0
const LEAF: Move = (0, &[Node::Over(1, 0)], &[Node::Over(3, 0)], 0);

// The rules of a transducer, a limit, and what parsing of the empty string reaches.
type Case = (&'static [Move], u64, &'static str);

static CASES: [Case; 4] = [
    // the second key takes any tree
    (
        &[LEFT_OUT, LEAF],
        20,
        "0-0.0 0-0.0 | 0 > 0 :0 :1 # 1; 0 > 1 # 0; 1 > 0 :1 :1 # 0; 1 > 1 # 0; 20",
    ),
    (&[LEFT_OUT, LEAF], 19, "more than 19 parts"),
    // the second key takes b alone
    (
        &[LONE, LEAF],
        99,
        "0-0.0 0-0.1 | 0 > 0 :0 :1 # 2; 0 > 1 # 0; 1 > 1 # 0; 17",
    ),
    (&[], 99, "0-0.0 | 4"),
];

fn cases() -> &'static [Case] {
    &CASES
}

// The tree-to-string transducer that reads what the transducer of a case reads.
fn reader(alloc: Global, case: &Case) -> Option<StringTransducer<MinPlus>> {
    domain_transducer::<MinPlus>(alloc, transducer(alloc, case.0)?).ok()
}

// Whether a case is answered so; false where there is no such limit.
fn is_answered(alloc: Global, case: &Case) -> bool {
    let (_, limit, want) = case;
    if *limit == 0 || *limit > 999 {
        return false;
    }
    match reader(alloc, case) {
        Some(reader) => is_told(alloc, parse(alloc, &reader, &[], *limit, &Open), want),
        None => false,
    }
}

#[test]
fn trees_that_are_read_are_reached(rt: HostRuntime) {
    for case in cases() {
        assert!(rt; is_answered(rt.alloc(), case));
    }
}
