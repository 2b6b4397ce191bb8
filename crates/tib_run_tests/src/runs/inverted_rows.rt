// The worked rows on `invert`.
use crate::runs::rows::Row;
use tib_lex::{FaultKind, FileFault};
use tib_operations::Status;
use tib_transducer::ClassFault;

const CROSSING: &str = "t\nt.A(x0: x1:) -> B(t.x1 t.x0) # 1\nt.a -> b # 0\nt.c -> d # 2\n";

const CROSSED: &str = "t\nt.B(x0: x1:) -> A(t.x1 t.x0) # 1\nt.b -> a # 0\nt.d -> c # 2\n";

pub static INVERTED: [Row; 15] = [
    // the two sides change their places
    (&["invert", "G"], CROSSING, "", Status::Done, CROSSED, ""),
    // and back again
    (&["invert", "G"], CROSSED, "", Status::Done, CROSSING, ""),
    // a right side of two labels becomes a left side of two
    (
        &["invert", "G"],
        "q\nq.A(x0:) -> B(C(q.x0)) # 1\nq.a -> b # 2\n",
        "",
        Status::Done,
        "q\nq.B(C(x0:)) -> A(q.x0) # 1\nq.b -> a # 2\n",
        "",
    ),
    // variables are numbered anew
    (
        &["invert", "G"],
        "q\nq.A(B(x3:) x1) -> C(p.x1 c q.x3) # 1\np.a -> \"a.b\"\nq.b -> D(e) # 2\n",
        "",
        Status::Done,
        "q\nq.C(x0: c x1:) -> A(B(q.x1) p.x0) # 1\np.\"a.b\" -> a # 0\nq.D(e) -> b # 2\n",
        "",
    ),
    // a right side that is a lone pair
    (
        &["invert", "G"],
        "q\nq.a -> b\nq.A(x0:) -> q.x0\n",
        "",
        Status::Class {
            file: 1,
            rule: 2,
            fault: ClassFault::NotStrict,
        },
        "",
        "tiburon: file 1: rule 2: not strict\n",
    ),
    // a variable that asks for a label comes before a lone pair
    (
        &["invert", "G"],
        "q\nq.A(x0:NP) -> q.x0\n",
        "",
        Status::Class {
            file: 1,
            rule: 1,
            fault: ClassFault::Labelled,
        },
        "",
        "tiburon: file 1: rule 1: labelled\n",
    ),
    // a variable that is left out
    (
        &["invert", "G"],
        "t\nt.A(x0: x1:) -> B(t.x0) # 1\nt.b -> e # 0\n",
        "",
        Status::Class {
            file: 1,
            rule: 1,
            fault: ClassFault::NotNondeleting,
        },
        "",
        "tiburon: file 1: rule 1: not nondeleting\n",
    ),
    // not linear comes before not nondeleting
    (
        &["invert", "G"],
        "q\nq.A(x0: x1:) -> B(q.x0 q.x0)\n",
        "",
        Status::Class {
            file: 1,
            rule: 1,
            fault: ClassFault::NotLinear,
        },
        "",
        "tiburon: file 1: rule 1: not linear\n",
    ),
    // no rule
    (&["invert", "G"], "q\n", "", Status::Done, "q\n", ""),
    // labels that must be quoted on the other side, in widest
    (
        &["-m", "widest", "invert", "G"],
        "q\nq.\"x0\" -> \"\"\nq.\"a b\" -> \"q.x0\" # 5\n",
        "",
        Status::Done,
        "q\nq.\"\" -> \"x0\" # 1000000000000000\nq.\"q.x0\" -> \"a b\" # 5\n",
        "",
    ),
    // nothing that it makes has parts, so it is never too much
    (
        &["-m", "boolean", "invert", "--limit", "1", "G"],
        CROSSING,
        "",
        Status::Done,
        "t\nt.B(x0: x1:) -> A(t.x1 t.x0)\nt.b -> a\nt.d -> c\n",
        "",
    ),
    // equal rules stay
    (
        &["invert", "G"],
        "q\nq.a -> b # 1000000000000000\nq.a -> b # 1000000000000000\n",
        "",
        Status::Done,
        "q\nq.b -> a # 1000000000000000\nq.b -> a # 1000000000000000\n",
        "",
    ),
    // a faulty file
    (
        &["invert", "G"],
        "q\nq.a -> q.x0\n",
        "",
        Status::BadInput {
            file: 1,
            fault: FileFault {
                line: 2,
                kind: FaultKind::UnknownVariable,
            },
        },
        "",
        "tiburon: file 1: line 2: unknown variable\n",
    ),
    // the first rule outside the classes is named, by whichever class it breaks
    (
        &["--limit=1", "invert", "G"],
        "q\nq.a -> b\nq.b -> c\nq.A(x0:) -> q.x0\nq.B(x0: x1:) -> C(q.x0)\n",
        "",
        Status::Class {
            file: 1,
            rule: 3,
            fault: ClassFault::NotStrict,
        },
        "",
        "tiburon: file 1: rule 3: not strict\n",
    ),
    // it takes one file
    (
        &["invert", "G", "T"],
        CROSSING,
        "",
        Status::Usage,
        "",
        "tiburon: usage: tiburon [-m MODE] [-k N] [-w N] [--limit N] [--beam N] OPERATION FILE...\n",
    ),
];
