// The worked rows on `count`.
use crate::runs::rows::{BINARY, FOREST, Row};
use tib_lex::{FaultKind, FileFault};
use tib_operations::Status;

const AMBIGUOUS: &str = "q\nq -> f(p) # 1\nq -> f(r) # 3\np -> a # 2\nr -> a # 1\n";

const PAIRED: &str = "q\nq -> f(p p)\nq -> f(p r)\np -> a\np -> b\nr -> a\n";

const DIGITS: &str =
    "q\nq -> f(p p p)\np -> g(d d d d d)\nd -> a0\nd -> a1\nd -> a2\nd -> a3\nd -> a4\nd -> a5\nd -> a6\nd -> a7\nd -> a8\nd -> a9\n";

pub static COUNTED: [Row; 18] = [
    // the two readings of the forest
    (
        &["count", "G"],
        FOREST,
        "",
        Status::Done,
        "states 6\nrules 7\nruns 2\ntrees 2\n",
        "",
    ),
    // one tree by two runs
    (
        &["count", "G"],
        AMBIGUOUS,
        "",
        Status::Done,
        "states 3\nrules 4\nruns 2\ntrees 1\n",
        "",
    ),
    // trees of any size
    (
        &["count", "G"],
        BINARY,
        "",
        Status::Done,
        "states 1\nrules 2\nruns endless\ntrees endless\n",
        "",
    ),
    // a cycle of chain rules: endlessly many runs of one tree
    (
        &["count", "G"],
        "q\nq -> r # 0\nr -> q # 0\nr -> a # 4\n",
        "",
        Status::Done,
        "states 2\nrules 3\nruns endless\ntrees 1\n",
        "",
    ),
    // no tree: the start stays, and no rule
    (
        &["count", "G"],
        "q\nq -> f(q)\np -> a\n",
        "",
        Status::Done,
        "states 1\nrules 0\nruns 0\ntrees 0\n",
        "",
    ),
    // as many runs and trees as the greatest cost
    (
        &["count", "G"],
        DIGITS,
        "",
        Status::Done,
        "states 3\nrules 12\nruns 1000000000000000\ntrees 1000000000000000\n",
        "",
    ),
    // one more of both
    (
        &["count", "G"],
        "q\nq -> f(p p p)\np -> g(d d d d d)\nd -> a0\nd -> a1\nd -> a2\nd -> a3\nd -> a4\nd -> a5\nd -> a6\nd -> a7\nd -> a8\nd -> a9\nq -> b\n",
        "",
        Status::Done,
        "states 3\nrules 13\nruns many\ntrees many\n",
        "",
    ),
    // equal rules count each, and are in runs of their own
    (
        &["count", "G"],
        "q\nq -> a\nq -> a\nq -> p\np -> a\n",
        "",
        Status::Done,
        "states 2\nrules 4\nruns 3\ntrees 1\n",
        "",
    ),
    // the weights do not count in any mode: any name is one, and so is a number above the greatest
    // cost
    (
        &["-m", "widest", "count", "G"],
        "q\nq -> f(p) # half\np -> a # 1000000000000001\nu -> b\n",
        "",
        Status::Done,
        "states 2\nrules 2\nruns 1\ntrees 1\n",
        "",
    ),
    // a run above the greatest cost counts
    (
        &["count", "G"],
        "q\nq -> f(p) # 1000000000000000\np -> a\np -> b # 1\n",
        "",
        Status::Done,
        "states 2\nrules 3\nruns 2\ntrees 2\n",
        "",
    ),
    // the normal form has 13 parts
    (
        &["count", "--limit", "13", "G"],
        AMBIGUOUS,
        "",
        Status::Done,
        "states 3\nrules 4\nruns 2\ntrees 1\n",
        "",
    ),
    (
        &["count", "--limit", "12", "G"],
        AMBIGUOUS,
        "",
        Status::TooMany { limit: 12 },
        "",
        "tiburon: more than 12 parts\n",
    ),
    // the normal form has 17 parts, the reached set 27
    (
        &["count", "--limit", "27", "G"],
        PAIRED,
        "",
        Status::Done,
        "states 3\nrules 5\nruns 6\ntrees 4\n",
        "",
    ),
    (
        &["count", "--limit", "26", "G"],
        PAIRED,
        "",
        Status::TooMany { limit: 26 },
        "",
        "tiburon: more than 26 parts\n",
    ),
    // where there are endlessly many trees no vectors are made
    (
        &["count", "--limit", "7", "-w", "4", "G"],
        BINARY,
        "",
        Status::Done,
        "states 1\nrules 2\nruns endless\ntrees endless\n",
        "",
    ),
    // a fault of the file
    (
        &["count", "G"],
        "q\nq -> ->\n",
        "",
        Status::BadInput {
            file: 1,
            fault: FileFault {
                line: 2,
                kind: FaultKind::BadRule,
            },
        },
        "",
        "tiburon: file 1: line 2: bad rule\n",
    ),
    // in Boolean too, and the options of other operations do not act
    (
        &["-m", "boolean", "-w", "16", "-k5", "--beam=3", "count", "G"],
        AMBIGUOUS,
        "",
        Status::Done,
        "states 3\nrules 4\nruns 2\ntrees 1\n",
        "",
    ),
    // a file too many
    (
        &["count", "G", "T"],
        BINARY,
        "",
        Status::Usage,
        "",
        "tiburon: usage: tiburon [-m MODE] [-k N] [-w N] [--limit N] [--beam N] OPERATION FILE...\n",
    ),
];
