// The worked rows on `image`.
use crate::runs::rows::Row;
use tib_lex::{FaultKind, FileFault};
use tib_operations::Status;

const DOUBLED: &str = "A(a)";

const DOUBLING: &str = "t\nt.A(x0:) -> B(t.x0 t.x0) # 1\nt.a -> b # 0\nt.a -> c # 2\n";

const OUTPUTS: &str = "q0\nq0 -> B(q1 q1) # 1\nq1 -> b # 0\nq1 -> c # 2\n";

// The worked rows on `image`.
pub static IMAGED: [Row; 16] = [
    // both copies are made of one node, each with its own choice
    (
        &["image", "G", "T"],
        DOUBLED,
        DOUBLING,
        Status::Done,
        OUTPUTS,
        "",
    ),
    // within just its parts
    (
        &["--limit=14", "image", "G", "T"],
        DOUBLED,
        DOUBLING,
        Status::Done,
        OUTPUTS,
        "",
    ),
    // and below them
    (
        &["image", "G", "T", "--limit", "13"],
        DOUBLED,
        DOUBLING,
        Status::TooMany { limit: 13 },
        "",
        "tiburon: more than 13 parts\n",
    ),
    // a label that no rule reads
    (
        &["image", "G", "T"],
        "A(d)",
        DOUBLING,
        Status::Done,
        "q0\n",
        "",
    ),
    // a variable asks for the label of its own node
    (
        &["image", "G", "T"],
        "S(a b)",
        "t\nt.S(x0:b x1:) -> Z(t.x1)\nt.b -> c\n",
        Status::Done,
        "q0\n",
        "",
    ),
    (
        &["image", "G", "T"],
        "S(a b)",
        "t\nt.S(x0:a x1:) -> Z(t.x1)\nt.b -> c\n",
        Status::Done,
        "q0\nq0 -> Z(q1) # 0\nq1 -> c # 0\n",
        "",
    ),
    // what is left out need not be read: no rule reads the first child
    (
        &["image", "G", "T"],
        "S(d(d d) b)",
        "t\nt.S(x0: x1:) -> Z(t.x1)\nt.b -> c # 4\n",
        Status::Done,
        "q0\nq0 -> Z(q1) # 0\nq1 -> c # 4\n",
        "",
    ),
    // two labels on the left, a state for each place, and a lone pair on the right
    (
        &["image", "G", "T"],
        "A(B(a) a)",
        "t\nt.A(B(x0:) x1:) -> t.x0 # 1\nt.A(x0: x1:) -> F(u.x1 t.x1) # 2\nt.a -> b # 3\nu.a -> c # 5\n",
        Status::Done,
        "q0\nq0 -> F(q3 q2) # 2\nq0 -> q1 # 1\nq1 -> b # 3\nq2 -> b # 3\nq3 -> c # 5\n",
        "",
    ),
    // in Boolean
    (
        &["-m", "boolean", "image", "G", "T"],
        DOUBLED,
        DOUBLING,
        Status::Done,
        "q0\nq0 -> B(q1 q1)\nq1 -> b\nq1 -> c\n",
        "",
    ),
    // several trees: the second is reported
    (
        &["image", "G", "T"],
        "A(a)\na",
        DOUBLING,
        Status::BadInput {
            file: 1,
            fault: FileFault {
                line: 2,
                kind: FaultKind::BadTree,
            },
        },
        "",
        "tiburon: file 1: line 2: bad tree\n",
    ),
    (
        &["image", "G", "T"],
        "\n% a tree\nA(a)\n\n\na\na\n",
        DOUBLING,
        Status::BadInput {
            file: 1,
            fault: FileFault {
                line: 6,
                kind: FaultKind::BadTree,
            },
        },
        "",
        "tiburon: file 1: line 6: bad tree\n",
    ),
    // but a fault of a line comes first, wherever it is
    (
        &["image", "G", "T"],
        "a\nb\n(",
        DOUBLING,
        Status::BadInput {
            file: 1,
            fault: FileFault {
                line: 3,
                kind: FaultKind::BadTree,
            },
        },
        "",
        "tiburon: file 1: line 3: bad tree\n",
    ),
    // no tree
    (
        &["image", "G", "T"],
        "\n% none\n",
        DOUBLING,
        Status::BadInput {
            file: 1,
            fault: FileFault {
                line: 1,
                kind: FaultKind::BadTree,
            },
        },
        "",
        "tiburon: file 1: line 1: bad tree\n",
    ),
    // the file of the tree is read before that of the transducer
    (
        &["image", "G", "T"],
        "\"a",
        "t\nt.x0 -> a\n",
        Status::BadInput {
            file: 1,
            fault: FileFault {
                line: 1,
                kind: FaultKind::BadToken,
            },
        },
        "",
        "tiburon: file 1: line 1: bad token\n",
    ),
    // a faulty transducer
    (
        &["image", "G", "T"],
        DOUBLED,
        "t\nt.x0 -> a\n",
        Status::BadInput {
            file: 2,
            fault: FileFault {
                line: 2,
                kind: FaultKind::LoneVariable,
            },
        },
        "",
        "tiburon: file 2: line 2: lone variable on the left\n",
    ),
    // the file of the tree alone
    (
        &["image", "G"],
        DOUBLED,
        "",
        Status::Usage,
        "",
        "tiburon: usage: tiburon [-m MODE] [-k N] [-w N] [--limit N] [--beam N] OPERATION FILE...\n",
    ),
];
