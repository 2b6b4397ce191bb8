// The worked rows on `difference`, and on the operations that have the other trees.
use crate::runs::rows::{BINARY, Row};
use tib_lex::{FaultKind, FileFault};
use tib_operations::Status;

const MONADIC: &str = "q\nq -> f(q) # 1\nq -> a # 2\n";

const EVEN: &str = "p\np -> f(f(p))\np -> a\n";

const LEFT_LEANING: &str = "p\np -> S(p r)\np -> a\nr -> a\n";

pub static DIFFERENCES: [Row; 23] = [
    // the trees with an odd number of f
    (
        &["difference", "G", "T"],
        MONADIC,
        EVEN,
        Status::Done,
        "q0\nq0 -> q2 # 0\nq1 -> a # 2\nq1 -> f(q2) # 1\nq2 -> f(q1) # 1\n",
        "",
    ),
    // the cost of the first stays, whatever the second's
    (
        &["difference", "G", "T"],
        "q\nq -> a # 1\nq -> b # 2\n",
        "p\np -> a # 7\n",
        Status::Done,
        "q0\nq0 -> q1 # 0\nq1 -> b # 2\n",
        "",
    ),
    // less itself
    (
        &["difference", "G", "T"],
        BINARY,
        BINARY,
        Status::Done,
        "q0\n",
        "",
    ),
    // less a grammar without a tree
    (
        &["difference", "G", "T"],
        BINARY,
        "p\np -> f(p)\n",
        Status::Done,
        "q0\nq0 -> q1 # 0\nq1 -> S(q1 q1) # 1\nq1 -> a # 2\n",
        "",
    ),
    // a grammar without a tree, less another
    (
        &["difference", "G", "T"],
        "p\np -> f(p)\n",
        BINARY,
        Status::Done,
        "q0\n",
        "",
    ),
    // the second's weights do not count: a run above the greatest cost is a run, and any name is a
    // weight
    (
        &["difference", "G", "T"],
        "q\nq -> f(a) # 3\nq -> b # 1\n",
        "p\np -> f(r) # 1000000000000000\nr -> a # half\n",
        Status::Done,
        "q0\nq0 -> q1 # 0\nq1 -> b # 1\n",
        "",
    ),
    // a weight of the first counts
    (
        &["difference", "G", "T"],
        "q\nq -> b # half\n",
        "p\np -> a\n",
        Status::BadInput {
            file: 1,
            fault: FileFault {
                line: 2,
                kind: FaultKind::NotWhole,
            },
        },
        "",
        "tiburon: file 1: line 2: weight is not a whole number\n",
    ),
    // the tree that is left would cost one more than the greatest cost
    (
        &["difference", "G", "T"],
        "q\nq -> f(p) # 1000000000000000\np -> a\np -> b # 1\n",
        "p\np -> f(a)\n",
        Status::Done,
        "q0\n",
        "",
    ),
    // a label of two ranks, a label that is a name, and a cycle of chain rules in the second
    (
        &["difference", "G", "T"],
        "q\nq -> a # 1\nq -> a(q) # 2\nq -> \"q\"\n",
        "p\np -> a\np -> r\nr -> p\nr -> q\n",
        Status::Done,
        "q0\nq0 -> q1 # 0\nq1 -> a(q1) # 2\nq1 -> a(q2) # 2\nq2 -> a # 1\nq2 -> q # 0\n",
        "",
    ),
    // three sets of states that trees of the first reach: none, the start alone, both
    (
        &["difference", "-w", "4", "G", "T"],
        BINARY,
        LEFT_LEANING,
        Status::Done,
        "q0\nq0 -> q1 # 0\nq1 -> S(q1 q1) # 1\nq1 -> S(q1 q2) # 1\nq1 -> S(q1 q3) # 1\nq1 -> S(q2 q1) # 1\nq1 -> S(q2 q2) # 1\nq1 -> S(q3 q1) # 1\nq1 -> S(q3 q2) # 1\nq2 -> S(q2 q3) # 1\nq2 -> S(q3 q3) # 1\nq3 -> a # 2\n",
        "",
    ),
    // the normal forms have 6 and 10 parts, the reached set 14
    (
        &["difference", "--limit", "14", "G", "T"],
        MONADIC,
        EVEN,
        Status::Done,
        "q0\nq0 -> q2 # 0\nq1 -> a # 2\nq1 -> f(q2) # 1\nq2 -> f(q1) # 1\n",
        "",
    ),
    (
        &["difference", "--limit", "13", "G", "T"],
        MONADIC,
        EVEN,
        Status::TooMany { limit: 13 },
        "",
        "tiburon: more than 13 parts\n",
    ),
    // an empty set counts nothing
    (
        &["difference", "--limit", "8", "G", "T"],
        BINARY,
        "p\np -> f(p)\n",
        Status::Done,
        "q0\nq0 -> q1 # 0\nq1 -> S(q1 q1) # 1\nq1 -> a # 2\n",
        "",
    ),
    (
        &["difference", "--limit", "7", "G", "T"],
        BINARY,
        "p\np -> f(p)\n",
        Status::TooMany { limit: 7 },
        "",
        "tiburon: more than 7 parts\n",
    ),
    // in widest the weight of the first stays
    (
        &["-m", "widest", "difference", "G", "T"],
        "q\nq -> a # 3\nq -> b\n",
        "p\np -> a # 9\nq -> c\n",
        Status::Done,
        "q0\nq0 -> q1 # 1000000000000000\nq1 -> b # 1000000000000000\n",
        "",
    ),
    // in Boolean no weight is printed
    (
        &["-m", "boolean", "difference", "G", "T"],
        BINARY,
        LEFT_LEANING,
        Status::Done,
        "q0\nq0 -> q1\nq1 -> S(q1 q1)\nq1 -> S(q1 q2)\nq1 -> S(q1 q3)\nq1 -> S(q2 q1)\nq1 -> S(q2 q2)\nq1 -> S(q3 q1)\nq1 -> S(q3 q2)\nq2 -> S(q2 q3)\nq2 -> S(q3 q3)\nq3 -> a\n",
        "",
    ),
    (
        &["-m", "boolean", "difference", "G", "T"],
        MONADIC,
        EVEN,
        Status::Done,
        "q0\nq0 -> q2\nq1 -> a\nq1 -> f(q2)\nq2 -> f(q1)\n",
        "",
    ),
    // the other part of the same grammar
    (
        &["-m", "boolean", "intersect", "G", "T"],
        MONADIC,
        EVEN,
        Status::Done,
        "q0\nq0 -> a\nq0 -> f(q1)\nq1 -> f(q0)\n",
        "",
    ),
    // both parts together
    (
        &["-m", "boolean", "union", "G", "T"],
        "q0\nq0 -> q2\nq1 -> a\nq1 -> f(q2)\nq2 -> f(q1)\n",
        "q0\nq0 -> a\nq0 -> f(q1)\nq1 -> f(q0)\n",
        Status::Done,
        "q0\nq0 -> a\nq0 -> f(q1)\nq0 -> f(q4)\nq1 -> a\nq1 -> f(q2)\nq2 -> f(q1)\nq3 -> a\nq3 -> f(q4)\nq4 -> f(q3)\n",
        "",
    ),
    // they have the trees of the grammar
    (
        &["compare", "G", "T"],
        MONADIC,
        "q0\nq0 -> a\nq0 -> f(q1)\nq0 -> f(q4)\nq1 -> a\nq1 -> f(q2)\nq2 -> f(q1)\nq3 -> a\nq3 -> f(q4)\nq4 -> f(q3)\n",
        Status::Done,
        "same\n",
        "",
    ),
    // a fault of the second file
    (
        &["difference", "G", "T"],
        "q\nq -> a\n",
        "p\np -> f(\n",
        Status::BadInput {
            file: 2,
            fault: FileFault {
                line: 2,
                kind: FaultKind::BadRule,
            },
        },
        "",
        "tiburon: file 2: line 2: bad rule\n",
    ),
    // the first file's fault comes first
    (
        &["difference", "G", "T"],
        "q\nq -> S(q",
        "",
        Status::BadInput {
            file: 1,
            fault: FileFault {
                line: 2,
                kind: FaultKind::BadRule,
            },
        },
        "",
        "tiburon: file 1: line 2: bad rule\n",
    ),
    // a file too few
    (
        &["difference", "G"],
        BINARY,
        "",
        Status::Usage,
        "",
        "tiburon: usage: tiburon [-m MODE] [-k N] [-w N] [--limit N] [--beam N] OPERATION FILE...\n",
    ),
];
