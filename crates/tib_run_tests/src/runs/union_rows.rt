// The worked rows on `union`.
use crate::runs::rows::{BINARY, Row};
use tib_lex::{FaultKind, FileFault};
use tib_operations::Status;

pub static UNITED: [Row; 16] = [
    // the rules of both starts, and the states that are used below
    (
        &["union", "G", "T"],
        BINARY,
        "p\np -> b # 3\n",
        Status::Done,
        "q0\nq0 -> S(q1 q1) # 1\nq0 -> a # 2\nq0 -> b # 3\nq1 -> S(q1 q1) # 1\nq1 -> a # 2\n",
        "",
    ),
    // the normal form of the sum has 3 states and 16 parts of rules
    (
        &["union", "--limit", "19", "G", "T"],
        BINARY,
        "p\np -> b # 3\n",
        Status::Done,
        "q0\nq0 -> S(q1 q1) # 1\nq0 -> a # 2\nq0 -> b # 3\nq1 -> S(q1 q1) # 1\nq1 -> a # 2\n",
        "",
    ),
    (
        &["union", "--limit", "18", "G", "T"],
        BINARY,
        "p\np -> b # 3\n",
        Status::TooMany { limit: 18 },
        "",
        "tiburon: more than 18 parts\n",
    ),
    // a tree of both has the lesser cost
    (
        &["union", "G", "T"],
        "q\nq -> a # 5\nq -> f(a)\n",
        "q\nq -> a # 2\n",
        Status::Done,
        "q0\nq0 -> a # 2\nq0 -> f(q1) # 0\nq1 -> a # 0\n",
        "",
    ),
    // with itself: the same costs, and the states twice
    (
        &["union", "G", "T"],
        BINARY,
        BINARY,
        Status::Done,
        "q0\nq0 -> S(q1 q1) # 1\nq0 -> S(q2 q2) # 1\nq0 -> a # 2\nq1 -> S(q1 q1) # 1\nq1 -> a # 2\nq2 -> S(q2 q2) # 1\nq2 -> a # 2\n",
        "",
    ),
    // both without a tree
    (
        &["union", "G", "T"],
        "q\n",
        "p\np -> f(p)\n",
        Status::Done,
        "q0\n",
        "",
    ),
    // the second has no tree, and the first start is on no right side
    (
        &["union", "G", "T"],
        "q\nq -> f(p) # 1\nq -> f(r) # 3\np -> a # 2\nr -> a # 1\n",
        "p\np -> f(p)\n",
        Status::Done,
        "q0\nq0 -> f(q1) # 1\nq0 -> f(q2) # 3\nq1 -> a # 2\nq2 -> a # 1\n",
        "",
    ),
    // a cycle of chain rules, and labels that are names of states
    (
        &["union", "G", "T"],
        "q\nq -> r # 0\nr -> q # 0\nr -> a # 4\n",
        "q\nq -> f(\"q0\" \"q\")\n",
        Status::Done,
        "q0\nq0 -> a # 4\nq0 -> f(q1 q2) # 0\nq1 -> \"q0\" # 0\nq2 -> q # 0\n",
        "",
    ),
    // a tree of the second would cost one more than the greatest cost
    (
        &["union", "G", "T"],
        "q\nq -> a # 1000000000000000\n",
        "p\np -> f(p) # 1\np -> a # 1000000000000000\n",
        Status::Done,
        "q0\nq0 -> a # 1000000000000000\n",
        "",
    ),
    // in widest the greater weight counts
    (
        &["-m", "widest", "union", "G", "T"],
        "q\nq -> a # 3\n",
        "p\np -> a # 7\np -> b\n",
        Status::Done,
        "q0\nq0 -> a # 7\nq0 -> b # 1000000000000000\n",
        "",
    ),
    // in bottleneck a tree of both has the least of its greatest costs
    (
        &["-m", "bottleneck", "union", "G", "T"],
        "q\nq -> f(p) # 1\nq -> f(r) # 3\np -> a # 2\nr -> a # 1\n",
        "r\nr -> f(p) # 2\np -> a # 2\n",
        Status::Done,
        "q0\nq0 -> f(q1) # 1\nq0 -> f(q2) # 3\nq0 -> f(q3) # 2\nq1 -> a # 2\nq2 -> a # 1\nq3 -> a # 2\n",
        "",
    ),
    // states of one name in both files are two states
    (
        &["-m", "boolean", "union", "G", "T"],
        "q\nq -> a # 0.5\n",
        "q\nq -> g(q)\nq -> b\n",
        Status::Done,
        "q0\nq0 -> a\nq0 -> b\nq0 -> g(q1)\nq1 -> b\nq1 -> g(q1)\n",
        "",
    ),
    // the other options do not act
    (
        &["-w", "8", "-k5", "union", "--beam=3", "G", "T"],
        "q\nq -> a\n",
        "p\np -> b\n",
        Status::Done,
        "q0\nq0 -> a # 0\nq0 -> b # 0\n",
        "",
    ),
    // a fault of the second file
    (
        &["union", "G", "T"],
        BINARY,
        "p\np -> a # 0.5\n",
        Status::BadInput {
            file: 2,
            fault: FileFault {
                line: 2,
                kind: FaultKind::NotWhole,
            },
        },
        "",
        "tiburon: file 2: line 2: weight is not a whole number\n",
    ),
    // the first file's fault comes first
    (
        &["union", "G", "T"],
        "q\nq -> S(q",
        "",
        Status::BadInput {
            file: 1,
            fault: FileFault {
                line: 2,
                kind: FaultKind::BadRule,
            },
        },
        "",
        "tiburon: file 1: line 2: bad rule\n",
    ),
    // a file too few
    (
        &["union", "G"],
        BINARY,
        "",
        Status::Usage,
        "",
        "tiburon: usage: tiburon [-m MODE] [-k N] [-w N] [--limit N] [--beam N] OPERATION FILE...\n",
    ),
];
