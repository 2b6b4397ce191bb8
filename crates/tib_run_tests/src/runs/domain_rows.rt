// The worked rows on `domain`.
use crate::runs::rows::Row;
use tib_lex::{FaultKind, FileFault};
use tib_operations::Status;
use tib_transducer::ClassFault;

// The first rule leaves x1 out.
const LEFT_OUT: &str = "t\nt.A(x0: x1:) -> B(t.x0) # 1\nt.b -> e # 0\n";

// What it reads.
const LEFT_OUT_READ: &str =
    "q0\nq0 -> A(q0 q1) # 1\nq0 -> b # 0\nq1 -> A(q1 q1) # 0\nq1 -> b # 0\n";

// The derivations of the grammar of binary trees.
const DERIVING: &str = "q\nq.r1(x0: x1:) -> S(q.x0 q.x1) # 1\nq.r2 -> a # 2\n";

pub static DOMAINS: [Row; 19] = [
    // what is left out may be any tree over the labels of left sides
    (
        &["domain", "G"],
        LEFT_OUT,
        "",
        Status::Done,
        LEFT_OUT_READ,
        "",
    ),
    // the derivations of a grammar, with their costs
    (
        &["domain", "G"],
        DERIVING,
        "",
        Status::Done,
        "q0\nq0 -> r1(q0 q0) # 1\nq0 -> r2 # 2\n",
        "",
    ),
    // a rule that is not linear
    (
        &["domain", "G"],
        "t\nt.A(x0:) -> B(t.x0 t.x0)\n",
        "",
        Status::Class {
            file: 1,
            rule: 1,
            fault: ClassFault::NotLinear,
        },
        "",
        "tiburon: file 1: rule 1: not linear\n",
    ),
    // the least cost over all outputs, with lone pairs
    (
        &["domain", "G"],
        "t\nt.a -> b # 3\nt.a -> c # 2\nt.A(x0:) -> t.x0 # 1\nt.A(x0:) -> u.x0\nu.b -> b\n",
        "",
        Status::Done,
        "q0\nq0 -> A(q0) # 1\nq0 -> A(q1) # 0\nq0 -> a # 2\nq1 -> b # 0\n",
        "",
    ),
    // variables that ask for a label, of which one is left out
    (
        &["domain", "G"],
        "t\nt.S(x0:NP x1:VP) -> Z(t.x0) # 1\nt.NP(x0:) -> n # 2\nt.VP -> v\n",
        "",
        Status::Done,
        "q0\nq0 -> NP(q2) # 2\nq0 -> S(q1 q3) # 1\nq0 -> VP # 0\nq1 -> NP(q2) # 2\nq2 -> NP(q2) # 0\nq2 -> S(q2 q2) # 0\nq2 -> VP # 0\nq3 -> VP # 0\n",
        "",
    ),
    // a label that no left side has, so the rule reads no tree
    (
        &["domain", "G"],
        "t\nt.S(x0: x1:VP) -> Z(t.x0)\nt.a -> b\n",
        "",
        Status::Done,
        "q0\nq0 -> a # 0\n",
        "",
    ),
    // two labels on the left, and a label that only a useless rule reads
    (
        &["domain", "G"],
        "t\nt.A(B(x0:) x1:) -> C(u.x1) # 1\nu.a -> b # 2\nv.c -> d # 3\n",
        "",
        Status::Done,
        "q0\nq0 -> A(B(q2) q1) # 1\nq1 -> a # 2\nq2 -> A(q2 q2) # 0\nq2 -> B(q2) # 0\nq2 -> a # 0\nq2 -> c # 0\n",
        "",
    ),
    // the reached set has as many parts as the limit
    (
        &["domain", "--limit", "20", "G"],
        LEFT_OUT,
        "",
        Status::Done,
        LEFT_OUT_READ,
        "",
    ),
    // it has one more
    (
        &["domain", "--limit", "19", "G"],
        LEFT_OUT,
        "",
        Status::TooMany { limit: 19 },
        "",
        "tiburon: more than 19 parts\n",
    ),
    // no rule
    (&["domain", "G"], "t\n", "", Status::Done, "q0\n", ""),
    // A(c) would cost one more than the greatest cost; the normal form keeps the rule of c
    (
        &["domain", "G"],
        "t\nt.A(x0:) -> B(u.x0) # 1000000000000000\nu.a -> b # 0\nu.c -> d # 1\n",
        "",
        Status::Done,
        "q0\nq0 -> A(q1) # 1000000000000000\nq1 -> a # 0\nq1 -> c # 1\n",
        "",
    ),
    // in widest what is left out has the greatest weight
    (
        &["-m", "widest", "domain", "G"],
        "t\nt.A(x0:) -> b # 5\nt.a -> c\n",
        "",
        Status::Done,
        "q0\nq0 -> A(q1) # 5\nq0 -> a # 1000000000000000\nq1 -> A(q1) # 1000000000000000\nq1 -> a # 1000000000000000\n",
        "",
    ),
    // two children that change their places, by four workers
    (
        &["-m", "boolean", "domain", "-w", "4", "G"],
        "t\nt.A(x0: x1:) -> B(t.x1 t.x0) # 1\nt.a -> b # 0\nt.c -> d # 2\n",
        "",
        Status::Done,
        "q0\nq0 -> A(q0 q0)\nq0 -> a\nq0 -> c\n",
        "",
    ),
    // three workers
    (
        &["-w", "3", "domain", "G"],
        LEFT_OUT,
        "",
        Status::Done,
        LEFT_OUT_READ,
        "",
    ),
    // a faulty file
    (
        &["domain", "G"],
        "t\nt.x0 -> b\n",
        "",
        Status::BadInput {
            file: 1,
            fault: FileFault {
                line: 2,
                kind: FaultKind::LoneVariable,
            },
        },
        "",
        "tiburon: file 1: line 2: lone variable on the left\n",
    ),
    // the derivations without costs
    (
        &["-m", "boolean", "domain", "G"],
        DERIVING,
        "",
        Status::Done,
        "q0\nq0 -> r1(q0 q0)\nq0 -> r2\n",
        "",
    ),
    // the range of a transducer is the domain of its inverse
    (
        &["domain", "G"],
        "q\nq.B(C(x0:)) -> A(q.x0) # 1\nq.b -> a # 2\n",
        "",
        Status::Done,
        "q0\nq0 -> B(C(q0)) # 1\nq0 -> b # 2\n",
        "",
    ),
    // a class comes before the limit
    (
        &["--limit=1", "domain", "G"],
        "t\nt.a -> b\nt.A(x0:) -> B(t.x0 t.x0)\n",
        "",
        Status::Class {
            file: 1,
            rule: 2,
            fault: ClassFault::NotLinear,
        },
        "",
        "tiburon: file 1: rule 2: not linear\n",
    ),
    // it takes one file
    (
        &["domain", "G", "T"],
        LEFT_OUT,
        "",
        Status::Usage,
        "",
        "tiburon: usage: tiburon [-m MODE] [-k N] [-w N] [--limit N] [--beam N] OPERATION FILE...\n",
    ),
];
