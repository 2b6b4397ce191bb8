// The worked rows on `through`.
use crate::runs::rows::{BINARY, FOREST, Row};
use tib_lex::{FaultKind, FileFault};
use tib_operations::Status;

pub static THROUGH: [Row; 14] = [
    // the cheapest run with each rule
    (
        &["through", "G"],
        "q\nq -> f(p) # 1\nq -> f(r) # 3\np -> a # 2\nr -> a # 1\n",
        "",
        Status::Done,
        "q\nq -> f(p) # 3\nq -> f(r) # 4\np -> a # 3\nr -> a # 4\n",
        "",
    ),
    // the cheapest run with the first rule is that of S(a a)
    (
        &["through", "G"],
        BINARY,
        "",
        Status::Done,
        "q\nq -> S(q q) # 5\nq -> a # 2\n",
        "",
    ),
    // in bottleneck a run costs its most expensive rule
    (
        &["-m", "bottleneck", "through", "G"],
        "q\nq -> f(p) # 1\nq -> f(r) # 3\np -> a # 2\nr -> a # 1\n",
        "",
        Status::Done,
        "q\nq -> f(p) # 2\nq -> f(r) # 3\np -> a # 2\nr -> a # 3\n",
        "",
    ),
    // in widest the greatest of the least weights counts
    (
        &["-m", "widest", "through", "G"],
        "q\nq -> f(p) # 3\nq -> b # 9\np -> a # 7\np -> c # 1\n",
        "",
        Status::Done,
        "q\nq -> f(p) # 3\nq -> b # 9\np -> a # 3\np -> c # 1\n",
        "",
    ),
    // in Boolean it is the text of `trim`
    (
        &["-m", "boolean", "through", "G"],
        "q\nq -> A(r s) # 0\nr -> b # 1\ns -> c # 4\ns -> d # 2\nu -> B(u) # 0\n",
        "",
        Status::Done,
        "q\nq -> A(r s)\nr -> b\ns -> c\ns -> d\n",
        "",
    ),
    // a rule in no complete run has no line
    (
        &["through", "G"],
        "q\nq -> f(p) # 1000000000000000\np -> a\np -> b # 1\n",
        "",
        Status::Done,
        "q\nq -> f(p) # 1000000000000000\np -> a # 1000000000000000\n",
        "",
    ),
    // equal rules have a line each
    (
        &["through", "G"],
        "q\nq -> a # 5\nq -> a # 2\nq -> a # 5\n",
        "",
        Status::Done,
        "q\nq -> a # 5\nq -> a # 2\nq -> a # 5\n",
        "",
    ),
    // the second rule is only in runs that go round
    (
        &["through", "G"],
        "q\nq -> r # 1\nr -> q # 1\nr -> a # 4\n",
        "",
        Status::Done,
        "q\nq -> r # 5\nr -> q # 7\nr -> a # 5\n",
        "",
    ),
    // the start has no run
    (
        &["through", "G"],
        "q\nq -> f(q)\n",
        "",
        Status::Done,
        "q\n",
        "",
    ),
    // nested sides and a chain rule
    (
        &["through", "G"],
        "q\nq -> f(g(a) q) # 3\nq -> r # 1\nr -> b # 2\n",
        "",
        Status::Done,
        "q\nq -> f(g(a) q) # 6\nq -> r # 3\nr -> b # 3\n",
        "",
    ),
    // twice a costs just the greatest cost, and once c costs more
    (
        &["through", "G"],
        "q\nq -> f(p p) # 500000000000000\nq -> b # 1\np -> a # 250000000000000\np -> c # 250000000000001\n",
        "",
        Status::Done,
        "q\nq -> f(p p) # 1000000000000000\nq -> b # 1\np -> a # 1000000000000000\n",
        "",
    ),
    // nothing that it makes has parts, so it is never too much
    (
        &["through", "--limit", "1", "G"],
        FOREST,
        "",
        Status::Done,
        "qS\nqS -> S(qI qVP) # 13\nqI -> NP(PRP(I)) # 13\nqVP -> VP(V(saw) qNP qPP) # 13\nqVP -> VP(V(saw) qNX) # 15\nqNX -> NP(qNP qPP) # 15\nqNP -> NP(DT(the) NN(man)) # 13\nqPP -> PP(P(with) NP(DT(the) NN(telescope))) # 13\n",
        "",
    ),
    // a faulty file
    (
        &["through", "G"],
        "q\nq -> a -> b\n",
        "",
        Status::BadInput {
            file: 1,
            fault: FileFault {
                line: 2,
                kind: FaultKind::BadRule,
            },
        },
        "",
        "tiburon: file 1: line 2: bad rule\n",
    ),
    // it takes one file
    (
        &["through"],
        BINARY,
        "",
        Status::Usage,
        "",
        "tiburon: usage: tiburon [-m MODE] [-k N] [-w N] [--limit N] [--beam N] OPERATION FILE...\n",
    ),
];
