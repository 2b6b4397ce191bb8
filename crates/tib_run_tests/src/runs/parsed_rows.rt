// The worked rows on `parse`.
use crate::runs::rows::Row;
use tib_lex::{FaultKind, FileFault};
use tib_operations::Status;
use tib_transducer::ClassFault;

const WORDS: &str = "u u v\n";

const SPELLING: &str = "t\nt.S(x0: x1:) -> t.x0 t.x1 # 1\nt.a -> u # 0\nt.b -> u v # 2\n";

const SPELLED: &str = "q0\nq0 -> S(q1 q2) # 1\nq1 -> a # 0\nq2 -> b # 2\n";

const SILENT: &str = "t\nt.a -> *e* # 4\n";

// The worked rows on `parse`.
pub static PARSED: [Row; 16] = [
    // the last two words are read by one rule
    (
        &["parse", "G", "T"],
        SPELLING,
        WORDS,
        Status::Done,
        SPELLED,
        "",
    ),
    // and the first two
    (
        &["parse", "G", "T"],
        SPELLING,
        "u v u\n",
        Status::Done,
        "q0\nq0 -> S(q1 q2) # 1\nq1 -> b # 2\nq2 -> a # 0\n",
        "",
    ),
    // the same in the other modes
    (
        &["-m", "bottleneck", "parse", "G", "T"],
        SPELLING,
        WORDS,
        Status::Done,
        SPELLED,
        "",
    ),
    (
        &["-mwidest", "parse", "G", "T"],
        SPELLING,
        WORDS,
        Status::Done,
        SPELLED,
        "",
    ),
    (
        &["-m", "boolean", "parse", "G", "T"],
        SPELLING,
        WORDS,
        Status::Done,
        "q0\nq0 -> S(q1 q2)\nq1 -> a\nq2 -> b\n",
        "",
    ),
    // the empty string: a key and a rule, six parts
    (
        &["parse", "--limit=6", "G", "T"],
        SILENT,
        "*e*\n",
        Status::Done,
        "q0\nq0 -> a # 4\n",
        "",
    ),
    (
        &["parse", "--limit=5", "G", "T"],
        SILENT,
        "*e*\n",
        Status::TooMany { limit: 5 },
        "",
        "tiburon: more than 5 parts\n",
    ),
    // a word that no rule has, and a quoted one that is no empty string
    (
        &["parse", "G", "T"],
        SPELLING,
        "w\n",
        Status::Done,
        "q0\n",
        "",
    ),
    (
        &["parse", "G", "T"],
        SILENT,
        "\"*e*\"\n",
        Status::Done,
        "q0\n",
        "",
    ),
    // variables change their places, and one asks for a label
    (
        &["parse", "G", "T"],
        "q\nq.S(x0:N x1:) -> p.x1 p.x0 # 1\np.N -> u\np.a -> v\np.b -> u\n",
        "v u\n",
        Status::Done,
        "q0\nq0 -> S(q2 q1) # 1\nq1 -> a # 0\nq2 -> N # 0\n",
        "",
    ),
    // a left-hand side of several labels
    (
        &["parse", "G", "T"],
        "q\nq.S(x0: B(C)) -> q.x0 u # 1\nq.a -> v # 3\n",
        "v u u\n",
        Status::Done,
        "q0\nq0 -> S(q2 B(C)) # 1\nq1 -> a # 3\nq2 -> S(q1 B(C)) # 1\n",
        "",
    ),
    // transducers that are refused
    (
        &["parse", "G", "T"],
        "t\nt.A(x0:) -> t.x0 t.x0\n",
        "u\n",
        Status::Class {
            file: 1,
            rule: 1,
            fault: ClassFault::NotLinear,
        },
        "",
        "tiburon: file 1: rule 1: not linear\n",
    ),
    (
        &["parse", "G", "T"],
        "t\nt.a -> u\nt.A(x0:) -> u\n",
        "u\n",
        Status::Class {
            file: 1,
            rule: 2,
            fault: ClassFault::NotNondeleting,
        },
        "",
        "tiburon: file 1: rule 2: not nondeleting\n",
    ),
    // faults of the files
    (
        &["parse", "G", "T"],
        SPELLING,
        "u\nv\n",
        Status::BadInput {
            file: 2,
            fault: FileFault {
                line: 2,
                kind: FaultKind::BadString,
            },
        },
        "",
        "tiburon: file 2: line 2: bad string\n",
    ),
    (
        &["parse", "G", "T"],
        "t\nt.A(x0:) -> *e* t.x0\n",
        "u\nv\n",
        Status::BadInput {
            file: 1,
            fault: FileFault {
                line: 2,
                kind: FaultKind::BadRule,
            },
        },
        "",
        "tiburon: file 1: line 2: bad rule\n",
    ),
    // one file too few
    (
        &["parse", "G"],
        SPELLING,
        WORDS,
        Status::Usage,
        "",
        "tiburon: usage: tiburon [-m MODE] [-k N] [-w N] [--limit N] [--beam N] OPERATION FILE...\n",
    ),
];
