// The worked rows on `runs`.
use crate::runs::rows::{BINARY, Row};
use tib_lex::{FaultKind, FileFault};
use tib_operations::Status;

// What it writes of the grammar of binary trees.
const DERIVATIONS: &str = "q\nq.r1(x0: x1:) -> S(q.x0 q.x1) # 1\nq.r2 -> a # 2\n";

pub static DERIVED: [Row; 14] = [
    // one rule for each rule, with a variable for each state on its right side
    (
        &["runs", "G"],
        "q\nq -> f(g(a) q) # 3\nq -> r # 1\nr -> b # 2\n",
        "",
        Status::Done,
        "q\nq.r1(x0:) -> f(g(a) q.x0) # 3\nq.r2(x0:) -> r.x0 # 1\nr.r3 -> b # 2\n",
        "",
    ),
    // nothing that it makes has parts, so it is never too much
    (
        &["runs", "--limit", "1", "G"],
        BINARY,
        "",
        Status::Done,
        DERIVATIONS,
        "",
    ),
    // labels that a transducer would read as pairs and variables are quoted
    (
        &["runs", "G"],
        "x0\nx0 -> f(\"p.x0\" x0 \"x0\" \"\") # 1\nx0 -> \"->\"\nx0 -> \"x1:q\"\n",
        "",
        Status::Done,
        "x0\nx0.r1(x0:) -> f(\"p.x0\" x0.x0 \"x0\" \"\") # 1\nx0.r2 -> \"->\" # 0\nx0.r3 -> \"x1:q\" # 0\n",
        "",
    ),
    // no rule
    (&["runs", "G"], "q\n", "", Status::Done, "q\n", ""),
    // equal rules and useless ones stay: the numbers are those of the file
    (
        &["runs", "G"],
        "q\nq -> a # 1\nq -> a # 1\np -> b\n",
        "",
        Status::Done,
        "q\nq.r1 -> a # 1\nq.r2 -> a # 1\np.r3 -> b # 0\n",
        "",
    ),
    // a chain rule, in Boolean
    (
        &["-m", "boolean", "runs", "G"],
        "q\nq -> q # x\nq -> a() # y\n",
        "",
        Status::Done,
        "q\nq.r1(x0:) -> q.x0\nq.r2 -> a\n",
        "",
    ),
    // a missing weight is the greatest one in widest
    (
        &["-m", "widest", "runs", "G"],
        "q\nq -> f(p)\np -> a # 0\n",
        "",
        Status::Done,
        "q\nq.r1(x0:) -> f(p.x0) # 1000000000000000\np.r2 -> a # 0\n",
        "",
    ),
    // a run above the greatest cost is no matter here
    (
        &["runs", "G"],
        "q\nq -> f(q) # 1000000000000000\nq -> a # 1\n",
        "",
        Status::Done,
        "q\nq.r1(x0:) -> f(q.x0) # 1000000000000000\nq.r2 -> a # 1\n",
        "",
    ),
    // a weight that is too large
    (
        &["runs", "G"],
        "q\nq -> f(p) # 10000000000000000\n",
        "",
        Status::BadInput {
            file: 1,
            fault: FileFault {
                line: 2,
                kind: FaultKind::WeightTooLarge,
            },
        },
        "",
        "tiburon: file 1: line 2: weight too large\n",
    ),
    // what it writes is linear, nondeleting and not extended
    (
        &["check", "G"],
        DERIVATIONS,
        "",
        Status::Done,
        "linear yes\nnondeleting yes\nextended no\n",
        "",
    ),
    // the derivations of one tree
    (
        &["backward", "G", "T"],
        DERIVATIONS,
        "t\nt -> S(a S(a a))\n",
        Status::Done,
        "q0\nq0 -> r1(q1 q2) # 1\nq1 -> r2 # 2\nq2 -> r1(q3 q4) # 1\nq3 -> r2 # 2\nq4 -> r2 # 2\n",
        "",
    ),
    // the cheapest derivations, of the domain of what it writes
    (
        &["kbest", "-k", "3", "G"],
        "q0\nq0 -> r1(q0 q0) # 1\nq0 -> r2 # 2\n",
        "",
        Status::Done,
        "r2 # 2\nr1(r2 r2) # 5\nr1(r2 r1(r2 r2)) # 8\n",
        "",
    ),
    // and back again: the outputs of the derivations are the trees of the grammar
    (
        &["forward", "G", "T"],
        "q0\nq0 -> r1(q0 q0)\nq0 -> r2\n",
        DERIVATIONS,
        Status::Done,
        "q0\nq0 -> S(q0 q0) # 1\nq0 -> a # 2\n",
        "",
    ),
    // it takes one file
    (
        &["runs", "G", "T"],
        BINARY,
        BINARY,
        Status::Usage,
        "",
        "tiburon: usage: tiburon [-m MODE] [-k N] [-w N] [--limit N] [--beam N] OPERATION FILE...\n",
    ),
];
