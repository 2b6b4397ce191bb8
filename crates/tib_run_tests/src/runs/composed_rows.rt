// The worked rows on `compose`.
use crate::runs::rows::Row;
use tib_lex::{FaultKind, FileFault};
use tib_operations::Status;
use tib_transducer::ClassFault;

/// A transducer whose right-hand side has two labels.
const TWO_LABELS: &str = "q\nq.A(x0:) -> B(C(q.x0)) # 1\nq.a -> b # 2\n";

/// One that translates these labels.
const TRANSLATING: &str = "p\np.B(x0:) -> p.x0 # 3\np.C(x0:) -> D(p.x0) # 0\np.b -> e # 1\n";

const COPYING: &str = "q\nq.A(B(x0:) x1:) -> F(q.x0 q.x0) # 1\nq.a -> b # 2\n";

const ERASING: &str = "q\nq.A(x0:) -> q.x0 # 1\nq.a -> b # 2\n";

// The worked rows on `compose`.
pub static COMPOSED: [Row; 8] = [
    // a right-hand side of two labels is translated by two rules
    (
        &["compose", "G", "T"],
        TWO_LABELS,
        TRANSLATING,
        Status::Done,
        "q0\nq0.A(x0:) -> D(q0.x0) # 4\nq0.a -> e # 3\n",
        "",
    ),
    // the first copies, leaves out and has two labels on the left
    (
        &["compose", "G", "T"],
        COPYING,
        "p\np.F(x0: x1:) -> G(p.x1 p.x0) # 1\np.b -> c # 0\n",
        Status::Done,
        "q0\nq0.A(B(x0:) x1:) -> G(q0.x0 q0.x0) # 2\nq0.a -> c # 2\n",
        "",
    ),
    // a right-hand side without a label is not translated
    (
        &["compose", "G", "T"],
        ERASING,
        "p\np.b -> c # 3\n",
        Status::Done,
        "q0\nq0.A(x0:) -> q0.x0 # 1\nq0.a -> c # 5\n",
        "",
    ),
    // no rule of the second reads what the first puts out
    (
        &["compose", "G", "T"],
        "q\nq.a -> b\n",
        "p\np.c -> d\n",
        Status::Done,
        "q0\n",
        "",
    ),
    // the second is not linear
    (
        &["compose", "G", "T"],
        TWO_LABELS,
        "p\np.B(x0:) -> E(p.x0 p.x0)\n",
        Status::Class {
            file: 2,
            rule: 1,
            fault: ClassFault::NotLinear,
        },
        "",
        "tiburon: file 2: rule 1: not linear\n",
    ),
    // the second has two labels on the left; a class comes before the limit
    (
        &["--limit=1", "compose", "G", "T"],
        TWO_LABELS,
        "p\np.B(C(x0:)) -> D(p.x0)\n",
        Status::Class {
            file: 2,
            rule: 1,
            fault: ClassFault::Extended,
        },
        "",
        "tiburon: file 2: rule 1: extended\n",
    ),
    // the pairs have more parts than the limit
    (
        &["compose", "G", "T", "--limit=3"],
        ERASING,
        "p\np.b -> c # 3\n",
        Status::TooMany { limit: 3 },
        "",
        "tiburon: more than 3 parts\n",
    ),
    // a faulty transducer is the second file
    (
        &["compose", "G", "T"],
        ERASING,
        "p\np.x\n",
        Status::BadInput {
            file: 2,
            fault: FileFault {
                line: 2,
                kind: FaultKind::BadRule,
            },
        },
        "",
        "tiburon: file 2: line 2: bad rule\n",
    ),
];
