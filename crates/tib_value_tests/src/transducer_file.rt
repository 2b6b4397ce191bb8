// Transducer files with their answers.
use crate::texts::{no_wrong, repeated};
use std::alloc::Global;
use std::test::Fail;
use tib_cost::{Boolean, Bottleneck, MinPlus, Semiring, Widest};
use tib_grammar::{Item, Side};
use tib_lex::{FaultKind, FileFault, ReadError};
use tib_transducer::{Transducer, Variable};
use tib_transducer_file::read_transducer;
use tib_tree::Labels;

// What was read of a file: how many states, rules, labels and variables it has, and how many of the
// variables ask for a label.
type Counts = (u32, u32, usize, u32, u32);

fn count_item(item: &Item<Variable>) -> (u32, u32) {
    match item {
        Item::Hole(variable) => (1, variable.label.is_some() as u32),
        Item::Label { .. } => (0, 0),
    }
}

fn sum_of(one: (u32, u32), two: (u32, u32)) -> (u32, u32) {
    (one.0.wrapping_add(two.0), one.1.wrapping_add(two.1))
}

// The variables of a side, and those that ask for a label.
fn count_variables(side: &Side<Variable>) -> (u32, u32) {
    let mut counts = (0, 0);
    for item in side.items() {
        counts = sum_of(counts, count_item(item));
    }
    counts
}

// The same for all left-hand sides.
fn count_all_variables<S>(transducer: &Transducer<S>) -> (u32, u32) {
    let mut counts = (0, 0);
    for rule in transducer.rule_list() {
        counts = sum_of(counts, count_variables(&rule.left));
    }
    counts
}

// What a transducer has.
fn counts_of<S>(transducer: &Transducer<S>, labels: usize) -> Counts {
    let (variables, asked) = count_all_variables(transducer);
    (
        transducer.states(),
        transducer.rules(),
        labels,
        variables,
        asked,
    )
}

// What a file has, or its first fault.
fn answer<S: Semiring + Drop>(alloc: Global, text: &[u8]) -> Result<Counts, ReadError> {
    if text.len() > 1_000_000 {
        return Err(ReadError::OutOfMemory);
    }
    let mut labels = Labels::new(alloc);
    match read_transducer::<S>(alloc, text, &mut labels) {
        Ok(transducer) => Ok(counts_of(&transducer, labels.len())),
        Err(error) => Err(error),
    }
}

// A file, and what it has.
static ROWS: [(&str, Counts); 23] = [
    ("q\n", (1, 0, 0, 0, 0)),
    ("% start\n\n q \r\n% end", (1, 0, 0, 0, 0)),
    (
        "q\nq.S(x0:NP VP(V(x1:) x2:)) -> S(p.x2 q.x0 \"is\" p.x1) # 3\n",
        (2, 1, 5, 3, 1),
    ),
    ("q\nq.\"A\"(x5) -> \"x5:\"(q.x5)", (1, 1, 2, 1, 0)),
    ("q\nq.x0() -> a", (1, 1, 2, 0, 0)),
    ("q\nq.x0(x0) -> q.x0", (1, 1, 1, 1, 0)),
    ("q\nq.A(x0:\"NP\" x1:\"a b\") -> q.x0", (1, 1, 3, 2, 2)),
    ("q\nq.A(x0:\"NP\"(x1:) x2) -> f(q.x1 q.x2)", (1, 1, 3, 3, 0)),
    ("q\nq.A(x0: \"NP\") -> q.x0 # 7", (1, 1, 2, 1, 0)),
    ("q\nq.A(x0:\"\") -> q.x0", (1, 1, 2, 1, 1)),
    ("q\nq.\"A.B\" -> a", (1, 1, 2, 0, 0)),
    ("q\nx0:.A(x7) -> x0:.x7", (2, 1, 1, 1, 0)),
    ("q\nq.A(x0:.x1) -> q.x0", (1, 1, 2, 1, 1)),
    ("q\nq.A(x0:) -> q.x0:", (1, 1, 2, 1, 0)),
    ("q\nq.A(x0:) -> \"q.x0\"", (1, 1, 2, 1, 0)),
    ("q\nq.A(x0:) -> q.x1()", (1, 1, 2, 1, 0)),
    ("q\nq.A(x0123456789) -> x0123456789", (1, 1, 2, 0, 0)),
    ("q\nq.A(x999999999 x7 x0) -> p.x0", (2, 1, 1, 3, 0)),
    ("q\nq.A(\"x0\" x1) -> a # 007.00", (1, 1, 3, 1, 0)),
    ("q\nq.A(xy x) -> x", (1, 1, 3, 0, 0)),
    ("q\nq.A.B -> a.b", (1, 1, 2, 0, 0)),
    ("q\np.A -> q\nr.A -> p.x\n", (3, 2, 3, 0, 0)),
    (
        "q\nq.A(x1 x0) -> f(s.x0 r.x1) # 1 % end\n\nr.A -> A",
        (3, 2, 2, 2, 0),
    ),
];

fn rows() -> &'static [(&'static str, Counts)] {
    &ROWS
}

fn has(alloc: Global, text: &str, counts: Counts) -> bool {
    answer::<MinPlus>(alloc, text.as_bytes()) == Ok(counts)
}

// The first of these files that has something else.
fn first_wrong(alloc: Global, rows: &[(&'static str, Counts)]) -> Option<&'static str> {
    for (text, counts) in rows {
        if !has(alloc, text, *counts) {
            return Some(text);
        }
    }
    None
}

#[test]
fn rules_are_read(rt: HostRuntime) -> Result<(), Fail> {
    no_wrong(first_wrong(rt.alloc(), rows()))
}

// A file, and the line and the kind of its first fault.
type Faulty = (&'static str, u32, FaultKind);

static FAULTS: [Faulty; 27] = [
    ("", 1, FaultKind::NoStart),
    ("\n% q\n", 1, FaultKind::NoStart),
    ("q r\n", 1, FaultKind::BadRule),
    ("\nq.A\n", 2, FaultKind::BadRule),
    ("\"q\"\n", 1, FaultKind::BadRule),
    ("\"q\n", 1, FaultKind::BadToken),
    ("q\nq.x0 -> a", 2, FaultKind::LoneVariable),
    ("q\nq.x0:NP -> a", 2, FaultKind::LoneVariable),
    ("q\nq.x0:\"NP\" -> a", 2, FaultKind::BadRule),
    ("q\nq.x0: -> q.x1 # 0.5", 2, FaultKind::LoneVariable),
    ("q\nq.A(x0: x0:) -> q.x1 # 0.5", 2, FaultKind::VariableTwice),
    ("q\nq.A(x0) -> q.x1 # 0.5", 2, FaultKind::UnknownVariable),
    ("q\nq.A(x000000000 x0) -> a", 2, FaultKind::VariableTwice),
    ("q\nq.A(x0:NP x0:VP) -> a", 2, FaultKind::VariableTwice),
    ("q\nq.A(x0:) -> x0", 2, FaultKind::BadRule),
    ("q\nq.A(x0:) -> x0:NP", 2, FaultKind::BadRule),
    ("q\nq. \"A\" -> a", 2, FaultKind::BadRule),
    ("q\nq -> a", 2, FaultKind::BadRule),
    ("q\n\"q.A\" -> a", 2, FaultKind::BadRule),
    ("q\n.A -> a", 2, FaultKind::BadRule),
    ("q\n->.A -> a", 2, FaultKind::BadRule),
    ("q\nq.A B -> a", 2, FaultKind::BadRule),
    ("q\nq.A -> a b", 2, FaultKind::BadRule),
    ("q\nq.A(-> a)", 2, FaultKind::BadRule),
    ("q\nq.A -> a # \"1\"", 2, FaultKind::BadRule),
    ("q\nq.A -> a # 1 1", 2, FaultKind::BadRule),
    ("q\nq.A -> \"", 2, FaultKind::BadToken),
];

// Each kind of fault on several lines.
static FAULTS_BY_LINE: [Faulty; 21] = [
    ("q\nq.A -> \" # 0.5", 2, FaultKind::BadToken),
    ("q\nq.A -> a\nq.A -> \"\n\"", 3, FaultKind::BadToken),
    ("q\n\nq.A -> a\nq.A -> \"", 4, FaultKind::BadToken),
    ("q\nq.A a\nq.A -> \"", 2, FaultKind::BadRule),
    ("q\nq.A -> a\nq.A a", 3, FaultKind::BadRule),
    ("q\n\nq.A -> a\nq.A a\n", 4, FaultKind::BadRule),
    ("q\nq.x1 -> a\nq", 2, FaultKind::LoneVariable),
    ("q\nq.A -> a\nq.x1: -> a", 3, FaultKind::LoneVariable),
    ("q\n\nq.A -> a\nq.x1:B -> a", 4, FaultKind::LoneVariable),
    ("q\nq.A(x0 x0) -> a\nq", 2, FaultKind::VariableTwice),
    (
        "q\nq.A -> a\nq.A(B(x0) x0:) -> a",
        3,
        FaultKind::VariableTwice,
    ),
    (
        "q\n\nq.A -> a\nq.A(x0:B x00) -> a",
        4,
        FaultKind::VariableTwice,
    ),
    ("q\nq.A -> q.x0\nq", 2, FaultKind::UnknownVariable),
    (
        "q\nq.A -> a\nq.A(x0) -> f(q.x1)",
        3,
        FaultKind::UnknownVariable,
    ),
    (
        "q\n\nq.A(x0) -> q.x0\nq.A -> q.x0",
        4,
        FaultKind::UnknownVariable,
    ),
    ("q\nq.A -> a # 0.5\nq", 2, FaultKind::NotWhole),
    ("q\nq.A -> a\nq.A -> a # -1", 3, FaultKind::NotWhole),
    ("q\n\nq.A -> a # 1\nq.A -> a # x", 4, FaultKind::NotWhole),
    (
        "q\nq.A -> a # 1000000000000001\nq",
        2,
        FaultKind::WeightTooLarge,
    ),
    (
        "q\nq.A -> a\nq.A -> a # 1000000000000001.0",
        3,
        FaultKind::WeightTooLarge,
    ),
    (
        "q\n\nq.A -> a # 1\nq.A -> a # 9999999999999999999999",
        4,
        FaultKind::WeightTooLarge,
    ),
];

fn faults() -> &'static [Faulty] {
    &FAULTS
}

fn faults_by_line() -> &'static [Faulty] {
    &FAULTS_BY_LINE
}

// Whether this is the first fault of a file.
fn has_fault<S: Semiring + Drop>(alloc: Global, text: &[u8], line: u32, kind: FaultKind) -> bool {
    answer::<S>(alloc, text) == Err(ReadError::Fault(FileFault { line, kind }))
}

// The first of these files with another answer.
fn first_otherwise(alloc: Global, rows: &[Faulty]) -> Option<&'static str> {
    for (text, line, kind) in rows {
        if !has_fault::<MinPlus>(alloc, text.as_bytes(), *line, *kind) {
            return Some(text);
        }
    }
    None
}

#[test]
fn the_first_fault_is_named(rt: HostRuntime) -> Result<(), Fail> {
    no_wrong(first_otherwise(rt.alloc(), faults()))
}

#[test]
fn the_first_fault_is_named_on_each_line(rt: HostRuntime) -> Result<(), Fail> {
    no_wrong(first_otherwise(rt.alloc(), faults_by_line()))
}

// Two rules of weights 1 and 0.5.
const HALF: &[u8] = b"q\nq.A -> a # 1\nq.A -> a # 0.5";

// Whether a half is refused as a weight.
fn is_half_refused<S: Semiring + Drop>(alloc: Global) -> bool {
    has_fault::<S>(alloc, HALF, 3, FaultKind::NotWhole)
}

// Whether it is refused with sums, greatest weights and least weights, and read with none.
fn are_halves_answered(alloc: Global) -> bool {
    is_half_refused::<MinPlus>(alloc)
        && is_half_refused::<Bottleneck>(alloc)
        && is_half_refused::<Widest>(alloc)
        && answer::<Boolean>(alloc, HALF) == Ok((1, 2, 2, 0, 0))
}

#[test]
fn each_semiring_reads_its_weights(rt: HostRuntime) {
    assert!(rt; are_halves_answered(rt.alloc()));
}

const FILE: &[u8] =
    b"q\nq.S(x0:\"NP\" x1:) -> S(p.x1 q.x0) # 3\np.NP(x0) -> r.x0\n\nr.\"A B\" -> \"a b\" # 7\nq.VP(V(x2) x1) -> f(q.x1 q.x2)\nq.A -> q.x() # 0\n";

// Whether a front of the file has rules, fewer than these lines, or a fault in the last of them.
fn is_front_read(alloc: Global, front: &[u8], lines: u32) -> bool {
    match answer::<MinPlus>(alloc, front) {
        Ok((_, rules, ..)) => rules < lines,
        Err(ReadError::Fault(fault)) => fault.line == lines,
        Err(ReadError::OutOfMemory) => false,
    }
}

// Whether each front of the file has rules, or a fault in its last line.
fn are_fronts_read(alloc: Global) -> bool {
    let mut lines: u32 = 1;
    for end in 1..FILE.len() {
        if !is_front_read(alloc, &FILE[..end], lines) {
            return false;
        }
        if FILE[end] == b'\n' {
            lines = lines.wrapping_add(1);
        }
    }
    true
}

// A file that is cut off after each of its bytes has rules, or a fault in its last line.
#[test]
fn each_front_of_a_file_is_read(rt: HostRuntime) {
    assert!(rt; are_fronts_read(rt.alloc()));
    assert!(rt; answer::<MinPlus>(rt.alloc(), FILE) == Ok((3, 5, 9, 5, 1)));
}

// What is returned where a front and a back are put around a number of leaves.
fn answer_about(
    alloc: Global,
    front: &[u8],
    leaves: u32,
    back: &[u8],
) -> Result<Counts, ReadError> {
    let text = repeated(alloc, front, b"a ", leaves, back)?;
    answer::<MinPlus>(alloc, &text)
}

// Whether ten thousand nodes are read between a front and a back, and one more is refused.
fn are_nodes_limited(alloc: Global, front: &[u8], back: &[u8]) -> bool {
    let many = ReadError::Fault(FileFault {
        line: 2,
        kind: FaultKind::TooManyNodes,
    });
    answer_about(alloc, front, 9_999, back).is_ok()
        && answer_about(alloc, front, 10_000, back) == Err(many)
}

#[test]
fn ten_thousand_nodes_are_read_and_no_more(rt: HostRuntime) {
    assert!(rt; are_nodes_limited(rt.alloc(), b"q\nq.f(", b") -> a"));
    assert!(rt; are_nodes_limited(rt.alloc(), b"q\nq.a -> f(", b")"));
}
