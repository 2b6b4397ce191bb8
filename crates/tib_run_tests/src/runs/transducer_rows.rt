// The worked rows on transducers.
use crate::runs::rows::Row;
use tib_lex::{FaultKind, FileFault};
use tib_operations::Status;

const PLAIN: &str = "linear yes\nnondeleting yes\nextended no\n";

// The second rule leaves x0 out and has two labels on the left.
const MIXED: &str = "q\nq.A(x0: x1:) -> B(q.x1 q.x0)\nq.A(x0: B(x1:)) -> C(q.x1)\nq.a -> b\n";

// The worked rows on `check`.
pub static CHECKED: [Row; 24] = [
    // no rule at all
    (&["check", "G"], "q\n", "", Status::Done, PLAIN, ""),
    // a variable without its colon, a quoted label, and a quoted leaf that would be a variable
    (
        &["check", "G"],
        "q\nq.\"A\"(x5) -> \"x5:\"(q.x5)\n",
        "",
        Status::Done,
        PLAIN,
        "",
    ),
    // a label that a variable asks for is reported in a fourth line
    (
        &["check", "G"],
        "q\nq.A(x0:NP) -> B(q.x0)\n",
        "",
        Status::Done,
        "linear yes\nnondeleting yes\nextended no\nlabelled yes 1\n",
        "",
    ),
    // a class of each kind
    (
        &["check", "G"],
        MIXED,
        "",
        Status::Done,
        "linear yes\nnondeleting no 2\nextended yes 2\n",
        "",
    ),
    // nothing that it makes has parts, so it is never too much
    (
        &["--limit", "1", "check", "G"],
        MIXED,
        "",
        Status::Done,
        "linear yes\nnondeleting no 2\nextended yes 2\n",
        "",
    ),
    // rules are counted, and not lines; the first that decides is named
    (
        &["check", "G"],
        "q\n% a copy\n\nq.a -> b # 1\nq.A(x0:) -> B(q.x0 q.x0) # 2\nq.B(x0: x1:\"V P\") -> B(r.x0 q.x0)\nr.B(a(x7:) x2:) -> q.x2\n",
        "",
        Status::Done,
        "linear no 2\nnondeleting no 3\nextended yes 4\nlabelled yes 3\n",
        "",
    ),
    // the label at the root is the one label
    (
        &["check", "G"],
        "q\nq.A(x0: x1:) -> B(C(q.x1) q.x0)\nq.A(\"x0\" x1) -> q.x1\n",
        "",
        Status::Done,
        "linear yes\nnondeleting yes\nextended yes 2\n",
        "",
    ),
    // in each mode
    (
        &["-mbottleneck", "check", "G"],
        MIXED,
        "",
        Status::Done,
        "linear yes\nnondeleting no 2\nextended yes 2\n",
        "",
    ),
    (
        &["-mboolean", "check", "G"],
        "q\nq.a -> b # 0.5\n",
        "",
        Status::Done,
        PLAIN,
        "",
    ),
    // each fault, after a good rule
    (
        &["check", "G"],
        "q\nq.x0: -> a\n",
        "",
        Status::BadInput {
            file: 1,
            fault: FileFault {
                line: 2,
                kind: FaultKind::LoneVariable,
            },
        },
        "",
        "tiburon: file 1: line 2: lone variable on the left\n",
    ),
    (
        &["check", "G"],
        "q\nq.a -> b\nq.x0:NP -> a\nq -> a\n",
        "",
        Status::BadInput {
            file: 1,
            fault: FileFault {
                line: 3,
                kind: FaultKind::LoneVariable,
            },
        },
        "",
        "tiburon: file 1: line 3: lone variable on the left\n",
    ),
    (
        &["check", "G"],
        "q\nq.a -> b\nq.A(x0: x0:) -> q.x1 # 0.5\n",
        "",
        Status::BadInput {
            file: 1,
            fault: FileFault {
                line: 3,
                kind: FaultKind::VariableTwice,
            },
        },
        "",
        "tiburon: file 1: line 3: variable twice on the left\n",
    ),
    (
        &["check", "G"],
        "q\nq.a -> b\n\nq.A(x0:) -> q.x1 # 0.5\n",
        "",
        Status::BadInput {
            file: 1,
            fault: FileFault {
                line: 4,
                kind: FaultKind::UnknownVariable,
            },
        },
        "",
        "tiburon: file 1: line 4: unknown variable\n",
    ),
    (
        &["check", "G"],
        "q\nq.a -> b\nq.A(x0:) -> x0\n",
        "",
        Status::BadInput {
            file: 1,
            fault: FileFault {
                line: 3,
                kind: FaultKind::BadRule,
            },
        },
        "",
        "tiburon: file 1: line 3: bad rule\n",
    ),
    // a grammar is no transducer
    (
        &["check", "G"],
        "q\nq -> a\n",
        "",
        Status::BadInput {
            file: 1,
            fault: FileFault {
                line: 2,
                kind: FaultKind::BadRule,
            },
        },
        "",
        "tiburon: file 1: line 2: bad rule\n",
    ),
    (
        &["check", "G"],
        "q\nq.a -> b\nq.a -> \"b\n",
        "",
        Status::BadInput {
            file: 1,
            fault: FileFault {
                line: 3,
                kind: FaultKind::BadToken,
            },
        },
        "",
        "tiburon: file 1: line 3: bad token\n",
    ),
    (
        &["check", "G"],
        "q\nq.a -> b\nq.a -> b # 0.5\n",
        "",
        Status::BadInput {
            file: 1,
            fault: FileFault {
                line: 3,
                kind: FaultKind::NotWhole,
            },
        },
        "",
        "tiburon: file 1: line 3: weight is not a whole number\n",
    ),
    (
        &["check", "G"],
        "q\nq.a -> b\nq.a -> b # 1000000000000001\n",
        "",
        Status::BadInput {
            file: 1,
            fault: FileFault {
                line: 3,
                kind: FaultKind::WeightTooLarge,
            },
        },
        "",
        "tiburon: file 1: line 3: weight too large\n",
    ),
    (
        &["-mboolean", "check", "G"],
        "q\nq.A(x0:) -> q.x1 # 0.5\n",
        "",
        Status::BadInput {
            file: 1,
            fault: FileFault {
                line: 2,
                kind: FaultKind::UnknownVariable,
            },
        },
        "",
        "tiburon: file 1: line 2: unknown variable\n",
    ),
    // no start
    (
        &["check", "G"],
        "% nothing\n\n",
        "",
        Status::BadInput {
            file: 1,
            fault: FileFault {
                line: 1,
                kind: FaultKind::NoStart,
            },
        },
        "",
        "tiburon: file 1: line 1: no start\n",
    ),
    (
        &["check", "G"],
        "q.A\n",
        "",
        Status::BadInput {
            file: 1,
            fault: FileFault {
                line: 1,
                kind: FaultKind::BadRule,
            },
        },
        "",
        "tiburon: file 1: line 1: bad rule\n",
    ),
    // it takes one file
    (
        &["check", "G", "G"],
        "q\n",
        "",
        Status::Usage,
        "",
        "tiburon: usage: tiburon [-m MODE] [-k N] [-w N] [--limit N] [--beam N] OPERATION FILE...\n",
    ),
    (
        &["check"],
        "q\n",
        "",
        Status::Usage,
        "",
        "tiburon: usage: tiburon [-m MODE] [-k N] [-w N] [--limit N] [--beam N] OPERATION FILE...\n",
    ),
    // a weight of widest
    (
        &["-mwidest", "check", "G"],
        "q\nq.a -> b # 7\nq.A(x0:a) -> b # 8\n",
        "",
        Status::Done,
        "linear yes\nnondeleting no 2\nextended no\nlabelled yes 2\n",
        "",
    ),
];
