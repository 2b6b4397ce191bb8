// The worked rows on `determinize`.
use crate::runs::rows::Row;
use tib_lex::{FaultKind, FileFault};
use tib_operations::Status;

const AMBIGUOUS: &str = "q\nq -> f(p) # 1\nq -> f(r) # 3\np -> a # 2\nr -> a # 1\n";

const DETERMINED: &str = "q0\nq0 -> q1 # 0\nq1 -> f(q2) # 2\nq2 -> a # 1\n";

// The residual of p over q grows with each f.
const ENDLESS: &str = "s\ns -> q\ns -> p\nq -> f(q) # 1\nq -> a # 0\np -> f(p) # 2\np -> a # 0\n";

// Whether the last letter but one is a: one set of states for each two last letters.
const LETTERS: &str =
    "p2\np0 -> e\np0 -> a(p0)\np0 -> b(p0)\np1 -> a(p0) # 1\np2 -> a(p1)\np2 -> b(p1)\n";

const LETTERS_DETERMINED: &str =
    "q0\nq0 -> q1 # 1\nq0 -> q2 # 1\nq1 -> b(q2) # 0\nq1 -> b(q4) # 0\nq2 -> a(q2) # 0\nq2 -> a(q4) # 0\nq3 -> b(q1) # 0\nq3 -> b(q3) # 0\nq3 -> e # 0\nq4 -> a(q1) # 0\nq4 -> a(q3) # 0\n";

pub static DETERMINIZED: [Row; 14] = [
    // two readings of a tree become one, at the lesser cost
    (
        &["determinize", "G"],
        AMBIGUOUS,
        "",
        Status::Done,
        DETERMINED,
        "",
    ),
    // the same in bottleneck
    (
        &["-m", "bottleneck", "determinize", "G"],
        AMBIGUOUS,
        "",
        Status::Done,
        DETERMINED,
        "",
    ),
    // the same in Boolean
    (
        &["-m", "boolean", "determinize", "G"],
        AMBIGUOUS,
        "",
        Status::Done,
        "q0\nq0 -> q1\nq1 -> f(q2)\nq2 -> a\n",
        "",
    ),
    // in widest the greatest weight is nothing, so the chain rule has it
    (
        &["-m", "widest", "determinize", "G"],
        AMBIGUOUS,
        "",
        Status::Done,
        "q0\nq0 -> q1 # 1000000000000000\nq1 -> f(q2) # 1\nq2 -> a # 2\n",
        "",
    ),
    // the normal form has thirteen parts
    (
        &["determinize", "--limit", "13", "G"],
        AMBIGUOUS,
        "",
        Status::Done,
        DETERMINED,
        "",
    ),
    (
        &["determinize", "--limit", "12", "G"],
        AMBIGUOUS,
        "",
        Status::TooMany { limit: 12 },
        "",
        "tiburon: more than 12 parts\n",
    ),
    // residuals that grow without end
    (
        &["determinize", "--limit", "50", "G"],
        ENDLESS,
        "",
        Status::TooMany { limit: 50 },
        "",
        "tiburon: more than 50 parts\n",
    ),
    (
        &["-w", "8", "--limit", "50", "determinize", "G"],
        ENDLESS,
        "",
        Status::TooMany { limit: 50 },
        "",
        "tiburon: more than 50 parts\n",
    ),
    // no run at all
    (
        &["determinize", "G"],
        "q\nq -> f(q)\n",
        "",
        Status::Done,
        "q0\n",
        "",
    ),
    // the start is in two vectors, in one of them with a residual
    (
        &["determinize", "G"],
        "q\nq -> a # 3\nq -> f(p) # 0\np -> a # 1\n",
        "",
        Status::Done,
        "q0\nq0 -> q1 # 0\nq0 -> q2 # 2\nq1 -> f(q2) # 0\nq2 -> a # 1\n",
        "",
    ),
    // all sets of states are reached
    (
        &["determinize", "G"],
        LETTERS,
        "",
        Status::Done,
        LETTERS_DETERMINED,
        "",
    ),
    // two children, of which each may be the new one
    (
        &["determinize", "G"],
        "q\nq -> S(q q) # 1\nq -> a # 2\n",
        "",
        Status::Done,
        "q0\nq0 -> q1 # 0\nq1 -> S(q1 q1) # 1\nq1 -> a # 2\n",
        "",
    ),
    // what is above the greatest cost is no run
    (
        &["determinize", "G"],
        "q\nq -> f(p) # 1\np -> a # 1000000000000000\nq -> a # 5\n",
        "",
        Status::Done,
        "q0\nq0 -> q1 # 0\nq1 -> a # 5\n",
        "",
    ),
    // a fault of the file
    (
        &["determinize", "G"],
        "q\nq -> \"\n",
        "",
        Status::BadInput {
            file: 1,
            fault: FileFault {
                line: 2,
                kind: FaultKind::BadToken,
            },
        },
        "",
        "tiburon: file 1: line 2: bad token\n",
    ),
];
