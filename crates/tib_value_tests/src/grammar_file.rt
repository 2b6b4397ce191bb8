// Grammar files, with what is printed of their grammars or said of their faults.
ghost use Rattle.std.specs.Prelude.{length};
ghost use Rattle.tib_grammar_file.specs.Printed.{AreLabelled};

use crate::texts::repeated;
use std::alloc::Global;
use tib_cost::{Boolean, MinPlus, Semiring};
use tib_grammar::Grammar;
use tib_grammar_file::{print_grammar, read_grammar};
use tib_io::MemorySink;
use tib_lex::ReadError;
use tib_tree::Labels;

// A text, and what is printed of its grammar or said of its first fault.
type Row = (&'static str, &'static str);

static ROWS: [Row; 17] = [
    (
        "q\nq -> S(q r)\nr -> a # 2.000\n",
        "q\nq -> S(q r) # 0\nr -> a # 2\n",
    ),
    (
        "q\nq -> f(q)\nq -> \"q\"\n",
        "q\nq -> f(q) # 0\nq -> \"q\" # 0\n",
    ),
    ("q\np -> f(q)\n", "q\np -> f(q) # 0\n"),
    ("q\nq -> q(a.b(c.d))", "q\nq -> \"q\"(a.b(c.d)) # 0\n"),
    (
        "q\nq -> p\np -> a() # 1000000000000000",
        "q\nq -> p # 0\np -> a # 1000000000000000\n",
    ),
    (
        "% start\n\n q \r\nq -> \"a b\\\"\" % end",
        "q\nq -> \"a b\\\"\" # 0\n",
    ),
    ("q\nq -> q->a # 007", "q\nq -> q->a # 7\n"),
    ("", "line 1: no start"),
    ("\n% nothing\n", "line 1: no start"),
    ("q r\n", "line 1: bad rule"),
    ("\nq.r\n", "line 2: bad rule"),
    ("q\nq -> S(q", "line 2: bad rule"),
    ("q\nq -> \"a", "line 2: bad token"),
    ("q\nq.x -> a", "line 2: bad rule"),
    ("q\nq -> a # 0.5", "line 2: weight is not a whole number"),
    ("q\nq -> a # 1000000000000001", "line 2: weight too large"),
    ("q\n\nq -> a)\nq -> \"", "line 3: bad rule"),
];

fn rows() -> &'static [Row] {
    &ROWS
}

// Whether this is printed of a grammar.
fn is_printed_as<S: Semiring>(
    alloc: Global,
    grammar: &Grammar<S>,
    labels: &Labels,
    want: &[u8],
) -> bool
    requires { AreLabelled (length labels.now) grammar.now.rules }
{
    let Ok(mut sink) = MemorySink::new(alloc, Vec::new(alloc), 1_000_000) else {
        return false;
    };
    let Ok(()) = print_grammar(grammar, labels, &mut sink) else {
        return false;
    };
    sink.bytes() == want
}

fn is_said_as(alloc: Global, error: ReadError, want: &[u8]) -> bool {
    match error.to_string(alloc) {
        Ok(said) => said.as_bytes() == want,
        Err(_) => false,
    }
}

// Whether this is printed of the grammar of a text, or said of the text's first fault; false where
// there are many labels before.
fn is_answered_over<S: Semiring + Drop>(
    alloc: Global,
    text: &[u8],
    labels: &mut Labels,
    want: &[u8],
) -> bool {
    if text.len() > 1_000_000 || labels.len() > 1_000_000 {
        return false;
    }
    match read_grammar::<S>(alloc, text, labels) {
        Ok(grammar) => is_printed_as(alloc, &grammar, labels, want),
        Err(error) => is_said_as(alloc, error, want),
    }
}

// The same without any label before.
fn is_answered<S: Semiring + Drop>(alloc: Global, text: &[u8], want: &[u8]) -> bool {
    let mut labels = Labels::new(alloc);
    is_answered_over::<S>(alloc, text, &mut labels, want)
}

#[test]
fn a_file_gives_its_grammar_or_its_first_fault(rt: HostRuntime) {
    for (text, want) in rows() {
        assert!(rt;
            is_answered::<MinPlus>(rt.alloc(), text.as_bytes(), want.as_bytes()),
            "{text}"
        );
    }
}

static WEIGHTS: &[u8] = b"q\nq -> a # 0.5\nq -> b # x\n";

#[test]
fn any_name_is_a_weight_where_nothing_is_weighed(rt: HostRuntime) {
    assert!(rt; is_answered::<Boolean>(rt.alloc(), WEIGHTS, b"q\nq -> a\nq -> b\n"));
}

// Whether the grammar of one rule, whose label is over this number of leaves, is answered so.
fn are_leaves_answered(alloc: Global, leaves: u32, want: &[u8]) -> bool {
    match repeated(alloc, b"q\nq -> f(", b"a ", leaves, b")") {
        Ok(text) => is_answered::<MinPlus>(alloc, &text, want),
        Err(_) => false,
    }
}

// Whether a rule of 9,999 leaves is printed with all of them.
fn are_leaves_printed(alloc: Global) -> bool {
    match repeated(alloc, b"q\nq -> f(", b"a ", 9_998, b"a) # 0\n") {
        Ok(want) => are_leaves_answered(alloc, 9_999, &want),
        Err(_) => false,
    }
}

// Whether a rule of 10,000 leaves, with its label, is said to have too many nodes.
fn are_leaves_too_many(alloc: Global) -> bool {
    are_leaves_answered(alloc, 10_000, b"line 2: too many nodes")
}

#[test]
fn ten_thousand_nodes_are_read_and_no_more(rt: HostRuntime) {
    assert!(rt; are_leaves_printed(rt.alloc()) && are_leaves_too_many(rt.alloc()));
}

// Whether a grammar of this number of equal rules is printed as it was read.
fn are_rules_printed(alloc: Global, rules: u32) -> bool {
    match repeated(alloc, b"q\n", b"q -> a\n", rules, b"") {
        Ok(text) => is_answered::<Boolean>(alloc, &text, &text),
        Err(_) => false,
    }
}

#[test]
fn seventy_thousand_rules_are_read(rt: HostRuntime) {
    assert!(rt; are_rules_printed(rt.alloc(), 70_000));
}
