// The worked rows on `compare`.
use crate::runs::kbest_rows::DOUBLINGS;
use crate::runs::rows::{BINARY, RIGHT, Row};
use tib_lex::{FaultKind, FileFault};
use tib_operations::Status;

const ONE_LEAF: &str = "p\np -> b\n";

const OTHER_LEAF: &str = "q\nq -> a\n";

const ENDLESS: &str = "q\nq -> f(q)\n";

// The start has one tree, of more than 10,000 nodes.
const DEEP: &str =
    "q\nq -> S(q13 q13 a)\nq13 -> S(q12 q12)\nq12 -> S(q11 q11)\nq11 -> S(q10 q10)\nq10 -> S(q9 q9)\nq9 -> S(q8 q8)\nq8 -> S(q7 q7)\nq7 -> S(q6 q6)\nq6 -> S(q5 q5)\nq5 -> S(q4 q4)\nq4 -> S(q3 q3)\nq3 -> S(q2 q2)\nq2 -> S(q1 q1)\nq1 -> S(q0 q0)\nq0 -> a\n";

// The worked rows on `compare`.
pub static COMPARED: [Row; 22] = [
    // each side has a tree that the other lacks, and the label of the second is less
    (
        &["compare", "--limit=8", "G", "T"],
        ONE_LEAF,
        OTHER_LEAF,
        Status::Done,
        "second a\n",
        "",
    ),
    (
        &["compare", "--limit=7", "G", "T"],
        ONE_LEAF,
        OTHER_LEAF,
        Status::TooMany { limit: 7 },
        "",
        "tiburon: more than 7 parts\n",
    ),
    (
        &["compare", "G", "T"],
        OTHER_LEAF,
        ONE_LEAF,
        Status::Done,
        "first a\n",
        "",
    ),
    // all trees of one side, and those whose branches go to the left
    (
        &["compare", "G", "T"],
        BINARY,
        RIGHT,
        Status::Done,
        "first S(a S(a a))\n",
        "",
    ),
    (
        &["-m", "bottleneck", "compare", "G", "T"],
        RIGHT,
        BINARY,
        Status::Done,
        "second S(a S(a a))\n",
        "",
    ),
    // one grammar
    (
        &["compare", "G", "T"],
        BINARY,
        BINARY,
        Status::Done,
        "same\n",
        "",
    ),
    // the same trees in other words, in each mode: no weight counts
    (
        &["-mwidest", "compare", "G", "T"],
        BINARY,
        "r\nr -> a # none\nr -> S(r p)\np -> r # 1.5\n",
        Status::Done,
        "same\n",
        "",
    ),
    (
        &["-m", "boolean", "compare", "G", "T"],
        "q\nq -> f(p) # 1000000000000000\np -> a # 1\n",
        "q\nq -> f(a) # 1000000000000001\n",
        Status::Done,
        "same\n",
        "",
    ),
    (
        &["compare", "G", "T"],
        "q\nq -> f(p) # 1000000000000000\np -> a # 1\n",
        "q\nq -> f(a)\n",
        Status::Done,
        "same\n",
        "",
    ),
    // neither side has a tree
    (
        &["compare", "G", "T"],
        ENDLESS,
        "q\n",
        Status::Done,
        "same\n",
        "",
    ),
    // labels that are written in quotes, and one that is not
    (
        &["compare", "G", "T"],
        ENDLESS,
        "q\nq -> c(q q)\nq -> \"a b\"(q \"\")\nq -> d(\"q\")\n",
        Status::Done,
        "second d(q)\n",
        "",
    ),
    (
        &["compare", "G", "T"],
        "q\nq -> \"a b\"(c \"\")\n",
        ENDLESS,
        Status::Done,
        "first \"a b\"(c \"\")\n",
        "",
    ),
    // the least tree is too large
    (
        &["compare", "G", "T"],
        DOUBLINGS,
        ENDLESS,
        Status::TreeTooLarge,
        "",
        "tiburon: a tree has more than 10000 nodes\n",
    ),
    // faults of the files, as in boolean
    (
        &["compare", "G", "T"],
        "q\nq -> f(q) # #\n",
        "q\nq -> f(q\n",
        Status::BadInput {
            file: 1,
            fault: FileFault {
                line: 2,
                kind: FaultKind::BadRule,
            },
        },
        "",
        "tiburon: file 1: line 2: bad rule\n",
    ),
    (
        &["compare", "G", "T"],
        BINARY,
        "q\nq -> a # 1.5\nq -> f(q\n",
        Status::BadInput {
            file: 2,
            fault: FileFault {
                line: 3,
                kind: FaultKind::BadRule,
            },
        },
        "",
        "tiburon: file 2: line 3: bad rule\n",
    ),
    // one file too few
    (
        &["compare", "G"],
        BINARY,
        BINARY,
        Status::Usage,
        "",
        "tiburon: usage: tiburon [-m MODE] [-k N] [-w N] [--limit N] [--beam N] OPERATION FILE...\n",
    ),
    // neither grammar is in normal form or trimmed: p is of no use, and a chain leads to the others
    (
        &["--limit=1000", "compare", "G", "T"],
        "q\nq -> S(a r)\nq -> r\nr -> b\np -> c\n",
        "s\ns -> b\ns -> S(a b)\n",
        Status::Done,
        "same\n",
        "",
    ),
    (
        &["--limit=1000", "compare", "G", "T"],
        "q\nq -> S(a r)\nr -> b\nr -> \"c d\"\n",
        "s\ns -> S(a b)\n",
        Status::Done,
        "first S(a \"c d\")\n",
        "",
    ),
    (
        &["--limit=1000", "compare", "G", "T"],
        ONE_LEAF,
        OTHER_LEAF,
        Status::Done,
        "second a\n",
        "",
    ),
    (
        &["--limit=1000", "compare", "G", "T"],
        "q\nq -> b\nq -> a\n",
        "q\n",
        Status::Done,
        "first a\n",
        "",
    ),
    (
        &["--limit=1000", "compare", "G", "T"],
        "q\n",
        "q\n",
        Status::Done,
        "same\n",
        "",
    ),
    (
        &["--limit=1000", "compare", "G", "T"],
        DEEP,
        "q\n",
        Status::TreeTooLarge,
        "",
        "tiburon: a tree has more than 10000 nodes\n",
    ),
];
