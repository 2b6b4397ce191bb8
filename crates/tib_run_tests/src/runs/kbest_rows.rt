// The worked rows on `kbest`: the order of trees in each mode.
use crate::runs::rows::{BINARY, FOREST, READINGS_WEIGHED, Row, TWO_WAYS};
use tib_lex::{FaultKind, FileFault};
use tib_operations::Status;

// Of the least greatest costs that of the small tree is not less, and it is first.
const SMALL_AT_COST: &str = "q\nq -> f(p r) # 0\np -> g(g(e)) # 0\np -> c # 4\nr -> d # 5\n";

// Two trees of the start are cheap, and what is below the third has a large second tree.
const LARGE_UNASKED: &str =
    "q\nq -> a # 1\nq -> b # 2\nq -> h(p) # 5\np -> f(y t0)\ny -> c\ny -> k(t0)\nt0 -> g(t1 t1)\nt1 -> g(t2 t2)\nt2 -> g(t3 t3)\nt3 -> g(t4 t4)\nt4 -> g(t5 t5)\nt5 -> g(t6 t6)\nt6 -> g(t7 t7)\nt7 -> g(t8 t8)\nt8 -> g(t9 t9)\nt9 -> g(t10 t10)\nt10 -> g(t11 t11)\nt11 -> g(t12 t12)\nt12 -> e\n";

// The one tree has 16,383 nodes.
pub const DOUBLINGS: &str =
    "p0\np0 -> f(p1 p1)\np1 -> f(p2 p2)\np2 -> f(p3 p3)\np3 -> f(p4 p4)\np4 -> f(p5 p5)\np5 -> f(p6 p6)\np6 -> f(p7 p7)\np7 -> f(p8 p8)\np8 -> f(p9 p9)\np9 -> f(p10 p10)\np10 -> f(p11 p11)\np11 -> f(p12 p12)\np12 -> f(p13 p13)\np13 -> a\n";

const TOO_LARGE: &str = "tiburon: a tree has more than 10000 nodes\n";

// Trees, and some at one cost with each mode.
const SEVERAL: &str = "q\nq -> a # 3\nq -> a # 7\nq -> b # 9\nq -> f(a)\n";

const USAGE: &str =
    "tiburon: usage: tiburon [-m MODE] [-k N] [-w N] [--limit N] [--beam N] OPERATION FILE...\n";

// The worked rows on `kbest`: the order of trees in each mode.
pub static LISTED: [Row; 15] = [
    // the cheapest tree alone where no number is given
    (&["kbest", "G"], BINARY, "", Status::Done, "a # 2\n", ""),
    // at equal costs the tree whose first child is smaller comes first
    (
        &["kbest", "-k", "3", "G"],
        BINARY,
        "",
        Status::Done,
        "a # 2\nS(a a) # 5\nS(a S(a a)) # 8\n",
        "",
    ),
    (
        &["-k4", "kbest", "G"],
        BINARY,
        "",
        Status::Done,
        "a # 2\nS(a a) # 5\nS(a S(a a)) # 8\nS(S(a a) a) # 8\n",
        "",
    ),
    // of the greatest costs
    (
        &["-m", "bottleneck", "kbest", "-k", "3", "G"],
        BINARY,
        "",
        Status::Done,
        "a # 2\nS(a a) # 2\nS(a S(a a)) # 2\n",
        "",
    ),
    (
        &["-m", "bottleneck", "kbest", "-k", "2", "G"],
        SMALL_AT_COST,
        "",
        Status::Done,
        "f(c d) # 5\nf(g(g(e)) d) # 5\n",
        "",
    ),
    (
        &["-m", "bottleneck", "kbest", "G"],
        SMALL_AT_COST,
        "",
        Status::Done,
        "f(c d) # 5\n",
        "",
    ),
    (
        &["kbest", "-k", "9", "G"],
        SMALL_AT_COST,
        "",
        Status::Done,
        "f(g(g(e)) d) # 5\nf(c d) # 9\n",
        "",
    ),
    // levels of several costs
    (
        &["-m", "bottleneck", "-k", "3", "kbest", "G"],
        SEVERAL,
        "",
        Status::Done,
        "f(a) # 0\na # 3\nb # 9\n",
        "",
    ),
    (
        &["-m", "bottleneck", "-k", "2", "kbest", "G"],
        SEVERAL,
        "",
        Status::Done,
        "f(a) # 0\na # 3\n",
        "",
    ),
    // of the least weights the greatest is first
    (
        &["-m", "widest", "kbest", "-k", "3", "G"],
        SEVERAL,
        "",
        Status::Done,
        "f(a) # 1000000000000000\nb # 9\na # 7\n",
        "",
    ),
    (
        &["-m", "widest", "kbest", "-k", "10000", "G"],
        SEVERAL,
        "",
        Status::Done,
        "f(a) # 1000000000000000\nb # 9\na # 7\n",
        "",
    ),
    (
        &["-m", "widest", "kbest", "G"],
        SEVERAL,
        "",
        Status::Done,
        "f(a) # 1000000000000000\n",
        "",
    ),
    (
        &["-k", "3", "kbest", "G"],
        SEVERAL,
        "",
        Status::Done,
        "f(a) # 0\na # 3\nb # 9\n",
        "",
    ),
    // by the order of trees alone
    (
        &["-m", "boolean", "kbest", "-k", "3", "G"],
        BINARY,
        "",
        Status::Done,
        "a\nS(a a)\nS(a S(a a))\n",
        "",
    ),
    (
        &["-m", "boolean", "kbest", "-k", "5", "G"],
        SEVERAL,
        "",
        Status::Done,
        "a\nb\nf(a)\n",
        "",
    ),
];

// Those on how many trees there are and how large, and on faults.
pub static LISTED_OTHERS: [Row; 13] = [
    // two runs give one tree, which is listed once
    (
        &["kbest", "-k", "2", "G"],
        TWO_WAYS,
        "",
        Status::Done,
        "f(a) # 3\n",
        "",
    ),
    (
        &["kbest", "-k", "2", "G"],
        "q\nq -> a # 1\nq -> a # 3\n",
        "",
        Status::Done,
        "a # 1\n",
        "",
    ),
    // more than there are
    (
        &["kbest", "-k", "10000", "G"],
        "q\nq -> a # 1\n",
        "",
        Status::Done,
        "a # 1\n",
        "",
    ),
    (
        &["kbest", "-k", "50", "G"],
        FOREST,
        "",
        Status::Done,
        READINGS_WEIGHED,
        "",
    ),
    // none
    (
        &["kbest", "-k", "3", "G"],
        "q\nq -> f(q)\n",
        "",
        Status::Done,
        "",
        "",
    ),
    // what costs more than the greatest cost is none
    (
        &["kbest", "-k", "3", "G"],
        "q\nq -> f(p) # 1000000000000000\np -> a # 1\np -> b\n",
        "",
        Status::Done,
        "f(b) # 1000000000000000\n",
        "",
    ),
    // chains of states
    (
        &["kbest", "-k", "3", "G"],
        "q\nq -> r # 0\nr -> q # 0\nr -> a # 4\nq -> f(g(r)) # 1\n",
        "",
        Status::Done,
        "a # 4\nf(g(a)) # 5\nf(g(f(g(a)))) # 6\n",
        "",
    ),
    // a large tree that is asked for, and one that is not
    (
        &["kbest", "G"],
        DOUBLINGS,
        "",
        Status::TreeTooLarge,
        "",
        TOO_LARGE,
    ),
    (
        &["-m", "bottleneck", "kbest", "-k", "2", "G"],
        DOUBLINGS,
        "",
        Status::TreeTooLarge,
        "",
        TOO_LARGE,
    ),
    (
        &["kbest", "-k", "2", "G"],
        LARGE_UNASKED,
        "",
        Status::Done,
        "a # 1\nb # 2\n",
        "",
    ),
    // too many parts, a file with a fault, and words that are no command
    (
        &["--limit=5", "kbest", "G"],
        BINARY,
        "",
        Status::TooMany { limit: 5 },
        "",
        "tiburon: more than 5 parts\n",
    ),
    (
        &["kbest", "G"],
        "q\nq -> a\nq ->\n",
        "",
        Status::BadInput {
            file: 1,
            fault: FileFault {
                line: 3,
                kind: FaultKind::BadRule,
            },
        },
        "",
        "tiburon: file 1: line 3: bad rule\n",
    ),
    (
        &["kbest", "-k", "0", "G"],
        BINARY,
        "",
        Status::Usage,
        "",
        USAGE,
    ),
];
