// Transducers as they are printed.
ghost use Rattle.std.specs.Prelude.{length};
ghost use Rattle.tib_transducer_file.specs.Labelled.{AreLabelled};

use crate::texts::no_wrong;
use std::alloc::{AllocError, Global};
use std::test::Fail;
use tib_cost::{Boolean, Bottleneck, MinPlus, Semiring, Widest};
use tib_io::MemorySink;
use tib_transducer::Transducer;
use tib_transducer_file::{print_transducer, read_transducer};
use tib_tree::Labels;

// What is printed of a transducer.
fn text_of<S: Semiring>(
    alloc: Global,
    transducer: &Transducer<S>,
    labels: &Labels,
) -> Result<Vec<u8>, AllocError>
    requires { AreLabelled (length labels.now) transducer.now.rules }
{
    let mut sink = MemorySink::new(alloc, Vec::new(alloc), 1_000_000)?;
    let Ok(()) = print_transducer(transducer, labels, &mut sink) else {
        return Err(AllocError);
    };
    sink.bytes().to_vec(alloc)
}

// What is printed of the transducer of a text, or out of memory where it is none.
fn printed<S: Semiring + Drop>(alloc: Global, text: &[u8]) -> Result<Vec<u8>, AllocError> {
    if text.len() > 1_000_000 {
        return Err(AllocError);
    }
    let mut labels = Labels::new(alloc);
    match read_transducer::<S>(alloc, text, &mut labels) {
        Ok(transducer) => text_of(alloc, &transducer, &labels),
        Err(_) => Err(AllocError),
    }
}

// Whether this is printed of the transducer of a text.
fn prints<S: Semiring + Drop>(alloc: Global, text: &[u8], want: &[u8]) -> bool {
    match printed::<S>(alloc, text) {
        Ok(found) => found.as_slice() == want,
        Err(_) => false,
    }
}

// A text, and what is printed of its transducer where nothing is weighed.
static ROWS: [(&str, &str); 18] = [
    ("% start\n q \n", "q\n"),
    ("q\nq.A -> a", "q\nq.A -> a\n"),
    ("q\nq.\"A.B\" -> a.b", "q\nq.\"A.B\" -> \"a.b\"\n"),
    ("q\nq.A(\"x0\") -> x", "q\nq.A(\"x0\") -> x\n"),
    ("q\nq.x0() -> \"x1:\"()", "q\nq.\"x0\" -> \"x1:\"\n"),
    ("q\nq.A -> \"x12:NP\"", "q\nq.A -> \"x12:NP\"\n"),
    ("q\nq.A -> \"\"", "q\nq.A -> \"\"\n"),
    ("q\nq.A -> \"->\"", "q\nq.A -> \"->\"\n"),
    ("q\nq.A -> \"a b\\\"\\\\\"", "q\nq.A -> \"a b\\\"\\\\\"\n"),
    ("q\nq.A -> \"x1234567890\"", "q\nq.A -> x1234567890\n"),
    ("q\nq.A -> \"x1a\"(b)", "q\nq.A -> x1a(b)\n"),
    ("q\nq.A(x7) -> p.x7", "q\nq.A(x0:) -> p.x0\n"),
    ("q\nq.A(x7:NP) -> q.x7", "q\nq.A(x0:NP) -> q.x0\n"),
    ("q\nq.A(x7:\"N.P\") -> q.x7", "q\nq.A(x0:\"N.P\") -> q.x0\n"),
    ("q\nq.A(x7:\"\") -> q.x7", "q\nq.A(x0:\"\") -> q.x0\n"),
    ("q\nq.A(x7:x1) -> q.x7", "q\nq.A(x0:\"x1\") -> q.x0\n"),
    ("q\nq.A(x7:N:P) -> q.x7", "q\nq.A(x0:N:P) -> q.x0\n"),
    (
        "q\nq.A(x5 B(x3 c)) -> f(p.x3 q.x5)",
        "q\nq.A(x0: B(x1: c)) -> f(p.x1 q.x0)\n",
    ),
];

fn rows() -> &'static [(&'static str, &'static str)] {
    &ROWS
}

// The first of these texts of which something else is printed.
fn first_wrong(alloc: Global, rows: &[(&'static str, &'static str)]) -> Option<&'static str> {
    for (text, want) in rows {
        if !prints::<Boolean>(alloc, text.as_bytes(), want.as_bytes()) {
            return Some(text);
        }
    }
    None
}

#[test]
fn each_label_is_printed_as_it_reads(rt: HostRuntime) -> Result<(), Fail> {
    no_wrong(first_wrong(rt.alloc(), rows()))
}

const READ: &[u8] = b"q\nq.A(x0:) -> q.x0 # 003.0\n";

const PLAIN: &[u8] = b"q\nq.A(x0:) -> q.x0\n";

const WEIGHED: &[u8] = b"q\nq.A(x0:) -> q.x0 # 3\n";

// Whether the weight is printed with sums, greatest weights and least weights, and not with none.
fn are_weights_printed(alloc: Global) -> bool {
    prints::<Boolean>(alloc, READ, PLAIN)
        && prints::<MinPlus>(alloc, READ, WEIGHED)
        && prints::<Bottleneck>(alloc, READ, WEIGHED)
        && prints::<Widest>(alloc, READ, WEIGHED)
}

#[test]
fn weights_are_printed_where_they_are_kept(rt: HostRuntime) {
    assert!(rt; are_weights_printed(rt.alloc()));
}

// Whether what is printed of the transducer of a text is printed again unchanged.
fn stays(alloc: Global, text: &str) -> bool {
    match printed::<MinPlus>(alloc, text.as_bytes()) {
        Ok(once) => prints::<MinPlus>(alloc, &once, &once),
        Err(_) => false,
    }
}

static TEXTS: [&str; 4] = [
    "s\ns.A -> a % no more\n\ns.\"\"() -> \"\"\n",
    "s\np.A(x3:\"N P\" x5:x1 \"x0\") -> \"x1\"(s.x5 p.x3 q.x5)\nq.\"A.B\"(x0:) -> x0() # 7\n",
    "s\ns.\"x1\"(x9:\"\" x8:->  x7:\"a\\\"\\\\\") -> A:(\"b.c\"(s.x9) \"->\" r.x7) # 12.00\n",
    "s\ns.A:(x0:B: C(x1 \"x2:\"(x2:\"%\"))) -> -(r.x2 -.x1 \"#\" s.x0)\n-.A -> x12345678901\n",
];

#[test]
fn what_is_printed_is_read_and_printed_again(rt: HostRuntime) {
    for text in &TEXTS {
        assert!(rt; stays(rt.alloc(), text), "{text}");
    }
}
