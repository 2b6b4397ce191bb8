// The worked rows on `trim`.
use crate::runs::rows::{BINARY, Row};
use tib_lex::{FaultKind, FileFault};
use tib_operations::Status;

// In min-plus one of the two trees costs the greatest cost, and the other one more.
const TWO_AT_THE_TOP: &str = "q\nq -> f(p) # 1000000000000000\np -> a\np -> b # 1\n";

pub static TRIMMED: [Row; 15] = [
    // a state that no run from the start uses
    (
        &["trim", "G"],
        "q\nq -> A(r s) # 0\nr -> b # 1\ns -> c # 4\ns -> d # 2\nu -> B(u) # 0\n",
        "",
        Status::Done,
        "q\nq -> A(r s) # 0\nr -> b # 1\ns -> c # 4\ns -> d # 2\n",
        "",
    ),
    // f(b) would cost one more than the greatest cost, so no complete run has its last rule
    (
        &["trim", "G"],
        TWO_AT_THE_TOP,
        "",
        Status::Done,
        "q\nq -> f(p) # 1000000000000000\np -> a # 0\n",
        "",
    ),
    // the normal form keeps that rule: it is live, and its state useful
    (
        &["normal", "G"],
        TWO_AT_THE_TOP,
        "",
        Status::Done,
        "q0\nq0 -> f(q1) # 1000000000000000\nq1 -> a # 0\nq1 -> b # 1\n",
        "",
    ),
    // in bottleneck both trees have a cost
    (
        &["-m", "bottleneck", "trim", "G"],
        TWO_AT_THE_TOP,
        "",
        Status::Done,
        "q\nq -> f(p) # 1000000000000000\np -> a # 0\np -> b # 1\n",
        "",
    ),
    // the start has no run
    (
        &["trim", "G"],
        "q\nq -> f(q)\np -> a\n",
        "",
        Status::Done,
        "q\n",
        "",
    ),
    // a cycle of chain rules is in complete runs
    (
        &["trim", "G"],
        "q\nq -> r # 0\nr -> q # 0\nr -> a # 4\n",
        "",
        Status::Done,
        "q\nq -> r # 0\nr -> q # 0\nr -> a # 4\n",
        "",
    ),
    // equal rules stay, each on its line
    (
        &["trim", "G"],
        "% doubles\nq\nq -> a # 5\nq -> a # 002.0\nq -> a # 5\n",
        "",
        Status::Done,
        "q\nq -> a # 5\nq -> a # 2\nq -> a # 5\n",
        "",
    ),
    // a label is quoted only for the name of a state that stays
    (
        &["trim", "G"],
        "q\nq -> f(\"p\" r \"r\")\np -> h(p)\nr -> p()\nr -> p\n",
        "",
        Status::Done,
        "q\nq -> f(p r \"r\") # 0\nr -> p # 0\n",
        "",
    ),
    // the order is that of the file
    (
        &["trim", "G"],
        "q\np -> g(u)\nr -> b # 1\np -> a # 2\nq -> f(p r)\nu -> g(u)\n",
        "",
        Status::Done,
        "q\nr -> b # 1\np -> a # 2\nq -> f(p r) # 0\n",
        "",
    ),
    // nothing that it makes has parts, so it is never too much
    (
        &["trim", "--limit", "1", "G"],
        "q\nq -> f(g(a) q) # 3\nq -> r # 1\nr -> b # 2\n",
        "",
        Status::Done,
        "q\nq -> f(g(a) q) # 3\nq -> r # 1\nr -> b # 2\n",
        "",
    ),
    // in widest a missing weight is the greatest one
    (
        &["-m", "widest", "trim", "G"],
        "q\nq -> f(g(p) a)\np -> b # 0\nu -> a # 1\n",
        "",
        Status::Done,
        "q\nq -> f(g(p) a) # 1000000000000000\np -> b # 0\n",
        "",
    ),
    // in Boolean, where no cost is printed
    (
        &["-m", "boolean", "trim", "G"],
        TWO_AT_THE_TOP,
        "",
        Status::Done,
        "q\nq -> f(p)\np -> a\np -> b\n",
        "",
    ),
    // a weight that is too large
    (
        &["trim", "G"],
        "q\nq -> f(p) # 1000000000000001\n",
        "",
        Status::BadInput {
            file: 1,
            fault: FileFault {
                line: 2,
                kind: FaultKind::WeightTooLarge,
            },
        },
        "",
        "tiburon: file 1: line 2: weight too large\n",
    ),
    // a file without tokens
    (
        &["trim", "G"],
        "% none\n",
        "",
        Status::BadInput {
            file: 1,
            fault: FileFault {
                line: 1,
                kind: FaultKind::NoStart,
            },
        },
        "",
        "tiburon: file 1: line 1: no start\n",
    ),
    // it takes one file
    (
        &["trim", "G", "T"],
        BINARY,
        BINARY,
        Status::Usage,
        "",
        "tiburon: usage: tiburon [-m MODE] [-k N] [-w N] [--limit N] [--beam N] OPERATION FILE...\n",
    ),
];
