// The worked rows on `forward` and `backward`.
use crate::runs::rows::{BINARY, Row};
use tib_lex::{FaultKind, FileFault};
use tib_operations::Status;
use tib_transducer::ClassFault;

const DELETED_FROM: &str = "q\nq -> A(r s) # 0\nr -> b # 1\ns -> c # 4\ns -> d # 2\n";

// The first rule leaves x1 out.
const DELETING: &str = "t\nt.A(x0: x1:) -> B(t.x0) # 1\nt.b -> e # 0\n";

const PARTS: &str = "q\nq -> S(p p) # 0\np -> NP(a) # 1\np -> VP(a) # 2\n";

const ASKING: &str = "t\nt.S(x0:NP x1:) -> Z(t.x0) # 1\nt.NP(x0:) -> n # 0\nt.VP(x0:) -> v # 0\n";

const SWAPPING: &str = "t\nt.A(x0: x1:) -> B(t.x1 t.x0) # 1\nt.a -> b # 0\nt.c -> d # 2\n";

const SWAPPED_FROM: &str = "s\ns -> B(u v) # 3\nu -> b # 0\nv -> d # 1\n";

const SWAPPED: &str = "q0\nq0 -> A(q2 q1) # 4\nq1 -> a # 0\nq2 -> c # 3\n";

// The worked rows on `forward`.
pub static FORWARD: [Row; 15] = [
    // infinitely many inputs for one output
    (
        &["forward", "G", "T"],
        "q\nq -> A(q) # 0\nq -> a # 2\n",
        "t\nt.A(x0:) -> t.x0 # 0\nt.a -> b # 1\n",
        Status::Done,
        "q0\nq0 -> b # 3\nq0 -> q0 # 0\n",
        "",
    ),
    // what is left out costs its inside cost
    (
        &["forward", "G", "T"],
        DELETED_FROM,
        DELETING,
        Status::Done,
        "q0\nq0 -> B(q1) # 3\nq1 -> e # 1\n",
        "",
    ),
    // the same in bottleneck
    (
        &["-mbottleneck", "forward", "G", "T"],
        DELETED_FROM,
        DELETING,
        Status::Done,
        "q0\nq0 -> B(q1) # 2\nq1 -> e # 1\n",
        "",
    ),
    // the same in Boolean
    (
        &["-m", "boolean", "forward", "G", "T"],
        DELETED_FROM,
        DELETING,
        Status::Done,
        "q0\nq0 -> B(q1)\nq1 -> e\n",
        "",
    ),
    // the same in widest, with other weights
    (
        &["forward", "-mwidest", "G", "T"],
        "q\nq -> A(r s) # 9\nr -> b # 1\ns -> c # 4\ns -> d # 2\n",
        "t\nt.A(x0: x1:) -> B(t.x0) # 7\nt.b -> e # 8\n",
        Status::Done,
        "q0\nq0 -> B(q1) # 4\nq1 -> e # 1\n",
        "",
    ),
    // no tree of the grammar is read
    (
        &["forward", "G", "T"],
        "q\nq -> a\n",
        "t\nt.b -> c\n",
        Status::Done,
        "q0\n",
        "",
    ),
    // a label that a variable asks for
    (
        &["forward", "G", "T"],
        PARTS,
        ASKING,
        Status::Done,
        "q0\nq0 -> Z(q1) # 2\nq1 -> n # 1\n",
        "",
    ),
    // a label that a variable asks for which is left out
    (
        &["forward", "G", "T"],
        PARTS,
        "t\nt.S(x0: x1:VP) -> Z(t.x0) # 1\nt.NP(x0:) -> n # 0\nt.VP(x0:) -> v # 0\n",
        Status::Done,
        "q0\nq0 -> Z(q1) # 3\nq1 -> n # 1\nq1 -> v # 2\n",
        "",
    ),
    // a left-hand side of two labels
    (
        &["forward", "G", "T"],
        "q\nq -> A(B(q) q) # 2\nq -> a # 1\n",
        "t\nt.A(B(x0:) x1:) -> C(t.x0 t.x1) # 3\nt.a -> c # 4\n",
        Status::Done,
        "q0\nq0 -> C(q0 q0) # 5\nq0 -> c # 5\n",
        "",
    ),
    // a rule that is not linear
    (
        &["forward", "G", "T"],
        BINARY,
        "t\nt.S(x0: x1:) -> S(t.x0 t.x0)\n",
        Status::Class {
            file: 2,
            rule: 1,
            fault: ClassFault::NotLinear,
        },
        "",
        "tiburon: file 2: rule 1: not linear\n",
    ),
    // of two rules that are not linear the first is named; rules are counted, and not lines
    (
        &["forward", "G", "T"],
        BINARY,
        "t\n% none\nt.a -> a\nt.S(x0: x1:) -> S(t.x0 t.x0)\nt.S(x0: x1:) -> S(t.x1 t.x1)\n",
        Status::Class {
            file: 2,
            rule: 2,
            fault: ClassFault::NotLinear,
        },
        "",
        "tiburon: file 2: rule 2: not linear\n",
    ),
    // a class comes before the limit
    (
        &["--limit", "1", "forward", "G", "T"],
        BINARY,
        "t\nt.S(x0: x1:) -> S(t.x0 t.x0)\n",
        Status::Class {
            file: 2,
            rule: 1,
            fault: ClassFault::NotLinear,
        },
        "",
        "tiburon: file 2: rule 1: not linear\n",
    ),
    // the normal form has more parts than the limit
    (
        &["--limit=12", "forward", "G", "T"],
        DELETED_FROM,
        DELETING,
        Status::TooMany { limit: 12 },
        "",
        "tiburon: more than 12 parts\n",
    ),
    // a faulty transducer is the second file
    (
        &["forward", "G", "T"],
        DELETED_FROM,
        "t\nt.x\n",
        Status::BadInput {
            file: 2,
            fault: FileFault {
                line: 2,
                kind: FaultKind::BadRule,
            },
        },
        "",
        "tiburon: file 2: line 2: bad rule\n",
    ),
    // the first file's fault comes first
    (
        &["forward", "G", "T"],
        "",
        "t\nt.x\n",
        Status::BadInput {
            file: 1,
            fault: FileFault {
                line: 1,
                kind: FaultKind::NoStart,
            },
        },
        "",
        "tiburon: file 1: line 1: no start\n",
    ),
];

// The worked rows on `backward`.
pub static BACKWARD: [Row; 13] = [
    // the two children change their places
    (
        &["backward", "G", "T"],
        SWAPPING,
        SWAPPED_FROM,
        Status::Done,
        SWAPPED,
        "",
    ),
    // the same in bottleneck
    (
        &["-m", "bottleneck", "backward", "G", "T"],
        SWAPPING,
        SWAPPED_FROM,
        Status::Done,
        "q0\nq0 -> A(q2 q1) # 3\nq1 -> a # 0\nq2 -> c # 2\n",
        "",
    ),
    // the same in Boolean
    (
        &["backward", "-mboolean", "G", "T"],
        SWAPPING,
        SWAPPED_FROM,
        Status::Done,
        "q0\nq0 -> A(q2 q1)\nq1 -> a\nq2 -> c\n",
        "",
    ),
    // the same in widest
    (
        &["-mwidest", "backward", "G", "T"],
        SWAPPING,
        SWAPPED_FROM,
        Status::Done,
        "q0\nq0 -> A(q2 q1) # 1\nq1 -> a # 0\nq2 -> c # 1\n",
        "",
    ),
    // a label that a variable asks for
    (
        &["backward", "G", "T"],
        "t\nt.A(x0:c x1:) -> B(t.x1 t.x0) # 1\nt.a -> b # 0\nt.c -> d # 2\n",
        SWAPPED_FROM,
        Status::Done,
        SWAPPED,
        "",
    ),
    // a label that no tree of the state has
    (
        &["backward", "G", "T"],
        "t\nt.A(x0:a x1:) -> B(t.x1 t.x0) # 1\nt.a -> b # 0\nt.c -> d # 2\n",
        SWAPPED_FROM,
        Status::Done,
        "q0\n",
        "",
    ),
    // a left-hand side of two labels
    (
        &["backward", "G", "T"],
        "t\nt.A(B(x0:) x1:) -> C(t.x1 t.x0) # 3\nt.a -> c # 4\n",
        "q\nq -> C(q q) # 2\nq -> c # 1\n",
        Status::Done,
        "q0\nq0 -> A(B(q0) q0) # 5\nq0 -> a # 5\n",
        "",
    ),
    // a rule that is not nondeleting
    (
        &["backward", "G", "T"],
        DELETING,
        BINARY,
        Status::Class {
            file: 1,
            rule: 1,
            fault: ClassFault::NotNondeleting,
        },
        "",
        "tiburon: file 1: rule 1: not nondeleting\n",
    ),
    // of the two classes that a rule breaks the first is named
    (
        &["backward", "G", "T"],
        "t\nt.a -> b\nt.A(x0: x1:) -> B(t.x0 t.x0)\n",
        BINARY,
        Status::Class {
            file: 1,
            rule: 2,
            fault: ClassFault::NotLinear,
        },
        "",
        "tiburon: file 1: rule 2: not linear\n",
    ),
    // a class comes before the limit
    (
        &["--limit=1", "backward", "G", "T"],
        DELETING,
        BINARY,
        Status::Class {
            file: 1,
            rule: 1,
            fault: ClassFault::NotNondeleting,
        },
        "",
        "tiburon: file 1: rule 1: not nondeleting\n",
    ),
    // and after the faults of both files
    (
        &["backward", "G", "T"],
        DELETING,
        "q\nq ->\n",
        Status::BadInput {
            file: 2,
            fault: FileFault {
                line: 2,
                kind: FaultKind::BadRule,
            },
        },
        "",
        "tiburon: file 2: line 2: bad rule\n",
    ),
    // the reached set has more parts than the limit
    (
        &["--limit", "16", "backward", "G", "T"],
        SWAPPING,
        SWAPPED_FROM,
        Status::TooMany { limit: 16 },
        "",
        "tiburon: more than 16 parts\n",
    ),
    // a file too many
    (
        &["backward", "G", "T", "x"],
        SWAPPING,
        SWAPPED_FROM,
        Status::Usage,
        "",
        "tiburon: usage: tiburon [-m MODE] [-k N] [-w N] [--limit N] [--beam N] OPERATION FILE...\n",
    ),
];
