// The worked rows.
use tib_lex::{FaultKind, FileFault};
use tib_operations::Status;

// The words, the files `G` and `T`, and what the run returns and writes on the output and the log.
pub type Row = (
    &'static [&'static str],
    &'static str,
    &'static str,
    Status,
    &'static str,
    &'static str,
);

pub const BINARY: &str = "q\nq -> S(q q) # 1\nq -> a # 2\n";

pub const RIGHT: &str = "p\np -> S(p r) # 2\np -> a # 1\nr -> a # 0\n";

pub const FOREST: &str =
    "% I saw the man with the telescope\nqS\nqS -> S(qI qVP) # 1\nqI -> NP(PRP(I)) # 2\nqVP -> VP(V(saw) qNP qPP) # 5\nqVP -> VP(V(saw) qNX) # 3\nqNX -> NP(qNP qPP) # 4\nqNP -> NP(DT(the) NN(man)) # 2\nqPP -> PP(P(with) NP(DT(the) NN(telescope))) # 3.000\n";

const READINGS: &str =
    "S(NP(PRP(I)) VP(V(saw) NP(DT(the) NN(man)) PP(P(with) NP(DT(the) NN(telescope)))))\nS(NP(PRP(I)) VP(V(saw) NP(NP(DT(the) NN(man)) PP(P(with) NP(DT(the) NN(telescope))))))\n";

pub const READINGS_WEIGHED: &str =
    "S(NP(PRP(I)) VP(V(saw) NP(DT(the) NN(man)) PP(P(with) NP(DT(the) NN(telescope))))) # 13\nS(NP(PRP(I)) VP(V(saw) NP(NP(DT(the) NN(man)) PP(P(with) NP(DT(the) NN(telescope)))))) # 15\n";

const UNUSED: &str = "q\nq -> A(r s) # 0\nr -> b # 1\ns -> c # 4\ns -> d # 2\nu -> B(u)\n";

const NESTED: &str = "q\nq -> f(g(a) q) # 3\nq -> r # 1\nr -> b # 2\n";

const NESTED_NORMAL: &str = "q0\nq0 -> b # 3\nq0 -> f(q1 q0) # 3\nq1 -> g(q2) # 0\nq2 -> a # 0\n";

pub const TWO_WAYS: &str = "q\nq -> f(r) # 1\nq -> f(s) # 3\nr -> a # 2\ns -> a # 1\n";

// The worked rows on `weigh`: costs, weights, and files that are no grammar.
pub static WEIGHED: [Row; 13] = [
    // the cost of a tree
    (
        &["weigh", "G", "T"],
        BINARY,
        "S(a a)\n",
        Status::Done,
        "S(a a) # 5\n",
        "",
    ),
    // an unknown label is no fault
    (
        &["weigh", "G", "T"],
        BINARY,
        "S(b a)\na\n",
        Status::Done,
        "S(b a) # none\na # 2\n",
        "",
    ),
    // the same in bottleneck
    (
        &["-m", "bottleneck", "weigh", "G", "T"],
        BINARY,
        "S(a a)\nS(b a)\n",
        Status::Done,
        "S(a a) # 2\nS(b a) # none\n",
        "",
    ),
    // the same in Boolean, where no cost is printed
    (
        &["weigh", "-mboolean", "G", "T"],
        BINARY,
        "S(a a)\nS(b a)\n",
        Status::Done,
        "S(a a)\nS(b a) # none\n",
        "",
    ),
    // a file without tokens is no grammar
    (
        &["weigh", "G", "T"],
        "",
        "a\n",
        Status::BadInput {
            file: 1,
            fault: FileFault {
                line: 1,
                kind: FaultKind::NoStart,
            },
        },
        "",
        "tiburon: file 1: line 1: no start\n",
    ),
    // a chain cycle of cost 0
    (
        &["weigh", "G", "T"],
        "q\nq -> r # 0\nr -> q # 0\nr -> a # 4\n",
        "a\n",
        Status::Done,
        "a # 4\n",
        "",
    ),
    // a cost above the greatest one counts as none
    (
        &["weigh", "G", "T"],
        "q\nq -> f(p) # 1000000000000000\np -> a # 1\n",
        "f(a)\n",
        Status::Done,
        "f(a) # none\n",
        "",
    ),
    // a weight above the greatest one
    (
        &["weigh", "G", "T"],
        "q\nq -> f(p) # 1000000000000001\np -> a # 1\n",
        "f(a)\n",
        Status::BadInput {
            file: 1,
            fault: FileFault {
                line: 2,
                kind: FaultKind::WeightTooLarge,
            },
        },
        "",
        "tiburon: file 1: line 2: weight too large\n",
    ),
    // zeros after the point
    (
        &["weigh", "G", "T"],
        "q\nq -> S(q q) # 1\nq -> a # 2.000\n",
        "a\n",
        Status::Done,
        "a # 2\n",
        "",
    ),
    // a weight that is not whole
    (
        &["weigh", "G", "T"],
        "q\nq -> S(q q) # 1\nq -> a # 0.5\n",
        "a\n",
        Status::BadInput {
            file: 1,
            fault: FileFault {
                line: 3,
                kind: FaultKind::NotWhole,
            },
        },
        "",
        "tiburon: file 1: line 3: weight is not a whole number\n",
    ),
    // in Boolean any name is a weight
    (
        &["-m", "boolean", "weigh", "G", "T"],
        "q\nq -> S(q q) # 1\nq -> a # 0.5\n",
        "a\n",
        Status::Done,
        "a\n",
        "",
    ),
    // a right-hand side that is no tree
    (
        &["weigh", "G", "T"],
        "q\nq -> S(q",
        "a\n",
        Status::BadInput {
            file: 1,
            fault: FileFault {
                line: 2,
                kind: FaultKind::BadRule,
            },
        },
        "",
        "tiburon: file 1: line 2: bad rule\n",
    ),
    // a quoted token that is not closed
    (
        &["weigh", "G", "T"],
        "q\nq -> \"a",
        "a\n",
        Status::BadInput {
            file: 1,
            fault: FileFault {
                line: 2,
                kind: FaultKind::BadToken,
            },
        },
        "",
        "tiburon: file 1: line 2: bad token\n",
    ),
];

// Those on rules of every form, limits, labels and both files, and words that are no command.
pub static WEIGHED_OTHERS: [Row; 14] = [
    // a nested right-hand side
    (
        &["weigh", "G", "T"],
        "q\nq -> f(a)\n",
        "f(a)\n",
        Status::Done,
        "f(a) # 0\n",
        "",
    ),
    // a chain rule
    (
        &["weigh", "G", "T"],
        "q\nq -> r\nr -> a\n",
        "a\n",
        Status::Done,
        "a # 0\n",
        "",
    ),
    // an empty tree file
    (&["weigh", "G", "T"], BINARY, "", Status::Done, "", ""),
    // the normal form has as many parts as the limit
    (
        &["weigh", "--limit", "7", "G", "T"],
        BINARY,
        "a\n",
        Status::Done,
        "a # 2\n",
        "",
    ),
    // the normal form has more parts than the limit
    (
        &["weigh", "--limit=6", "G", "T"],
        BINARY,
        "a\n",
        Status::TooMany { limit: 6 },
        "",
        "tiburon: more than 6 parts\n",
    ),
    // quoted leaves are labels
    (
        &["weigh", "G", "T"],
        "q\nq -> f(\"q\" \"q0\")\n",
        "f(q \"q0\")\n",
        Status::Done,
        "f(q q0) # 0\n",
        "",
    ),
    // labels that need quotes
    (
        &["weigh", "G", "T"],
        "q\nq -> \"a b\"(\"->\" \"\\\"\")\n",
        "\"a b\"(\"->\" \"\\\"\")\n",
        Status::Done,
        "\"a b\"(\"->\" \"\\\"\") # 0\n",
        "",
    ),
    // nested sides and chain rules
    (
        &["weigh", "G", "T"],
        "q\nq -> f(g(a) q) # 3\nq -> r # 1\nr -> b # 2\n",
        "f(g(a) b)\nb\n",
        Status::Done,
        "f(g(a) b) # 6\nb # 3\n",
        "",
    ),
    // a parse forest
    (
        &["weigh", "G", "T"],
        FOREST,
        READINGS,
        Status::Done,
        READINGS_WEIGHED,
        "",
    ),
    // a faulty tree file is the second file
    (
        &["weigh", "G", "T"],
        BINARY,
        "a\n\n(a)\n",
        Status::BadInput {
            file: 2,
            fault: FileFault {
                line: 3,
                kind: FaultKind::BadTree,
            },
        },
        "",
        "tiburon: file 2: line 3: bad tree\n",
    ),
    // the first file's fault comes first
    (
        &["weigh", "G", "T"],
        "q\nq ->\n",
        "(\n",
        Status::BadInput {
            file: 1,
            fault: FileFault {
                line: 2,
                kind: FaultKind::BadRule,
            },
        },
        "",
        "tiburon: file 1: line 2: bad rule\n",
    ),
    // options after the operation, workers accepted
    (
        &["-w", "4", "weigh", "-k", "3", "G", "T"],
        BINARY,
        "a\n",
        Status::Done,
        "a # 2\n",
        "",
    ),
    // an option twice
    (
        &["-k1", "-k2", "weigh", "G", "T"],
        BINARY,
        "a\n",
        Status::Usage,
        "",
        "tiburon: usage: tiburon [-m MODE] [-k N] [-w N] [--limit N] [--beam N] OPERATION FILE...\n",
    ),
    // a file too many
    (
        &["weigh", "x", "G", "T"],
        BINARY,
        "a\n",
        Status::Usage,
        "",
        "tiburon: usage: tiburon [-m MODE] [-k N] [-w N] [--limit N] [--beam N] OPERATION FILE...\n",
    ),
];

// Those on `inside` and `normal`.
pub static ONE_FILE: [Row; 22] = [
    // one grammar alone
    // each state, one without a run among them
    (
        &["inside", "G"],
        UNUSED,
        "",
        Status::Done,
        "q # 3\nr # 1\ns # 2\nu # none\n",
        "",
    ),
    // the same in bottleneck
    (
        &["-mbottleneck", "inside", "G"],
        UNUSED,
        "",
        Status::Done,
        "q # 2\nr # 1\ns # 2\nu # none\n",
        "",
    ),
    // the same in Boolean, where no cost is printed
    (
        &["inside", "-m", "boolean", "G"],
        UNUSED,
        "",
        Status::Done,
        "q\nr\ns\nu # none\n",
        "",
    ),
    // chains, a cycle of cost 0, and a run that costs too much
    (
        &["inside", "G"],
        "q\nq -> r # 0\nr -> q # 0\nr -> a # 4\ns -> f(s2) # 1000000000000000\ns2 -> a # 1\n",
        "",
        Status::Done,
        "q # 4\nr # 4\ns # none\ns2 # 1\n",
        "",
    ),
    // the start alone
    (&["inside", "G"], "q\n", "", Status::Done, "q # none\n", ""),
    // no grammar
    (
        &["inside", "G"],
        "q\nq -> S(a # 1\n",
        "",
        Status::BadInput {
            file: 1,
            fault: FileFault {
                line: 2,
                kind: FaultKind::BadRule,
            },
        },
        "",
        "tiburon: file 1: line 2: bad rule\n",
    ),
    // it takes one file
    (
        &["inside", "G", "G"],
        UNUSED,
        "",
        Status::Usage,
        "",
        "tiburon: usage: tiburon [-m MODE] [-k N] [-w N] [--limit N] [--beam N] OPERATION FILE...\n",
    ),
    // a place has a state of its own, chains are followed, and rules are sorted
    (
        &["normal", "G"],
        NESTED,
        "",
        Status::Done,
        NESTED_NORMAL,
        "",
    ),
    // its normal form has 17 parts
    (
        &["normal", "--limit", "17", "G"],
        NESTED,
        "",
        Status::Done,
        NESTED_NORMAL,
        "",
    ),
    (
        &["normal", "--limit=16", "G"],
        NESTED,
        "",
        Status::TooMany { limit: 16 },
        "",
        "tiburon: more than 16 parts\n",
    ),
    // the same in bottleneck, where a chain costs its greatest weight
    (
        &["-mbottleneck", "normal", "G"],
        NESTED,
        "",
        Status::Done,
        "q0\nq0 -> b # 2\nq0 -> f(q1 q0) # 3\nq1 -> g(q2) # 0\nq2 -> a # 0\n",
        "",
    ),
    // the same in Boolean, where no cost is printed
    (
        &["-mboolean", "normal", "G"],
        NESTED,
        "",
        Status::Done,
        "q0\nq0 -> b\nq0 -> f(q1 q0)\nq1 -> g(q2)\nq2 -> a\n",
        "",
    ),
    // labels that are names of states
    (
        &["normal", "G"],
        "q\nq -> f(\"q\" \"q0\")\n",
        "",
        Status::Done,
        "q0\nq0 -> f(q1 q2) # 0\nq1 -> q # 0\nq2 -> \"q0\" # 0\n",
        "",
    ),
    (
        &["normal", "G"],
        "q\nq -> f(q q0)\n",
        "",
        Status::Done,
        "q0\n",
        "",
    ),
    // a file without tokens
    (
        &["normal", "G"],
        "",
        "",
        Status::BadInput {
            file: 1,
            fault: FileFault {
                line: 1,
                kind: FaultKind::NoStart,
            },
        },
        "",
        "tiburon: file 1: line 1: no start\n",
    ),
    // a bracket and a quote that are not closed
    (
        &["normal", "G"],
        "q\nq -> S(q",
        "",
        Status::BadInput {
            file: 1,
            fault: FileFault {
                line: 2,
                kind: FaultKind::BadRule,
            },
        },
        "",
        "tiburon: file 1: line 2: bad rule\n",
    ),
    (
        &["normal", "G"],
        "q\nq -> \"a",
        "",
        Status::BadInput {
            file: 1,
            fault: FileFault {
                line: 2,
                kind: FaultKind::BadToken,
            },
        },
        "",
        "tiburon: file 1: line 2: bad token\n",
    ),
    // equal rules keep the least cost; a state that no run uses, and a rule that costs too much,
    // are left out
    (
        &["normal", "G"],
        "q\nq -> a # 5\nq -> a # 2\nq -> f(r) # 1000000000000000\nr -> b # 1\nu -> f(u)\n",
        "",
        Status::Done,
        "q0\nq0 -> a # 2\n",
        "",
    ),
    // rules of one state are sorted by the bytes of their lines
    (
        &["normal", "G"],
        "q\nq -> a(q)\nq -> a # 10\nq -> B\n",
        "",
        Status::Done,
        "q0\nq0 -> B # 0\nq0 -> a # 10\nq0 -> a(q0) # 0\n",
        "",
    ),
    // a cycle of chains of cost 0
    (
        &["normal", "G"],
        "q\nq -> r # 0\nr -> q # 0\nr -> a # 4\n",
        "",
        Status::Done,
        "q0\nq0 -> a # 4\n",
        "",
    ),
    // a grammar with no run keeps its start
    (
        &["normal", "G"],
        "q\nq -> f(q)\n",
        "",
        Status::Done,
        "q0\n",
        "",
    ),
    // it takes one file
    (
        &["normal"],
        NESTED,
        "",
        Status::Usage,
        "",
        "tiburon: usage: tiburon [-m MODE] [-k N] [-w N] [--limit N] [--beam N] OPERATION FILE...\n",
    ),
];

// Those on `prune`.
pub static PRUNED: [Row; 16] = [
    // what costs no more than the cheapest tree
    (
        &["prune", "G"],
        TWO_WAYS,
        "",
        Status::Done,
        "q0\nq0 -> f(q1) # 1\nq1 -> a # 2\n",
        "",
    ),
    // a beam of what the other one more costs
    (
        &["--beam", "1", "prune", "G"],
        TWO_WAYS,
        "",
        Status::Done,
        "q0\nq0 -> f(q1) # 1\nq0 -> f(q2) # 3\nq1 -> a # 2\nq2 -> a # 1\n",
        "",
    ),
    // a rule whose cheapest run costs 5 beside the cheapest tree of 2
    (
        &["--beam", "2", "prune", "G"],
        BINARY,
        "",
        Status::Done,
        "q0\nq0 -> a # 2\n",
        "",
    ),
    // a beam that just reaches it
    (
        &["prune", "--beam=3", "G"],
        BINARY,
        "",
        Status::Done,
        "q0\nq0 -> S(q0 q0) # 1\nq0 -> a # 2\n",
        "",
    ),
    // no tree at all
    (
        &["prune", "G"],
        "q\nq -> f(q)\n",
        "",
        Status::Done,
        "q0\n",
        "",
    ),
    // the same in bottleneck, where a run costs its most expensive rule
    (
        &["-mbottleneck", "prune", "G"],
        TWO_WAYS,
        "",
        Status::Done,
        "q0\nq0 -> f(q1) # 1\nq1 -> a # 2\n",
        "",
    ),
    // both in bottleneck
    (
        &["-mbottleneck", "--beam=1", "prune", "G"],
        TWO_WAYS,
        "",
        Status::Done,
        "q0\nq0 -> f(q1) # 1\nq0 -> f(q2) # 3\nq1 -> a # 2\nq2 -> a # 1\n",
        "",
    ),
    // in widest both trees have the weight 1
    (
        &["-mwidest", "prune", "G"],
        TWO_WAYS,
        "",
        Status::Done,
        "q0\nq0 -> f(q1) # 1\nq0 -> f(q2) # 3\nq1 -> a # 2\nq2 -> a # 1\n",
        "",
    ),
    // weights of 5 and 3, and a beam below their difference
    (
        &["-mwidest", "--beam=1", "prune", "G"],
        "q\nq -> a # 5\nq -> b # 3\n",
        "",
        Status::Done,
        "q0\nq0 -> a # 5\n",
        "",
    ),
    // and one that reaches it
    (
        &["-mwidest", "--beam=2", "prune", "G"],
        "q\nq -> a # 5\nq -> b # 3\n",
        "",
        Status::Done,
        "q0\nq0 -> a # 5\nq0 -> b # 3\n",
        "",
    ),
    // a bound above the greatest cost
    (
        &["-mwidest", "--beam=1000000000000000", "prune", "G"],
        "q\nq -> a # 5\nq -> b # 0\n",
        "",
        Status::Done,
        "q0\nq0 -> a # 5\nq0 -> b # 0\n",
        "",
    ),
    // in Boolean each tree costs 0
    (
        &["-mboolean", "prune", "G"],
        TWO_WAYS,
        "",
        Status::Done,
        "q0\nq0 -> f(q1)\nq0 -> f(q2)\nq1 -> a\nq2 -> a\n",
        "",
    ),
    // a grammar that is not in normal form
    (
        &["prune", "G"],
        NESTED,
        "",
        Status::Done,
        "q0\nq0 -> b # 3\n",
        "",
    ),
    // all of it
    (
        &["prune", "G", "--beam", "3"],
        NESTED,
        "",
        Status::Done,
        NESTED_NORMAL,
        "",
    ),
    // a normal form above the limit
    (
        &["--limit", "1", "prune", "G"],
        BINARY,
        "",
        Status::TooMany { limit: 1 },
        "",
        "tiburon: more than 1 parts\n",
    ),
    // a beam that is too wide
    (
        &["--beam=1000000000000001", "prune", "G"],
        BINARY,
        "",
        Status::Usage,
        "",
        "tiburon: usage: tiburon [-m MODE] [-k N] [-w N] [--limit N] [--beam N] OPERATION FILE...\n",
    ),
];

// Those on `intersect`.
pub static INTERSECTED: [Row; 20] = [
    // no tree is in both
    (
        &["intersect", "G", "T"],
        "q\nq -> a\n",
        "p\np -> b\n",
        Status::Done,
        "q0\n",
        "",
    ),
    // the product of the costs, from the pair of the starts
    (
        &["intersect", "G", "T"],
        BINARY,
        RIGHT,
        Status::Done,
        "q0\nq0 -> S(q0 q1) # 3\nq0 -> a # 3\nq1 -> a # 2\n",
        "",
    ),
    // the same in bottleneck
    (
        &["-mbottleneck", "intersect", "G", "T"],
        BINARY,
        RIGHT,
        Status::Done,
        "q0\nq0 -> S(q0 q1) # 2\nq0 -> a # 2\nq1 -> a # 2\n",
        "",
    ),
    // the same in Boolean, where no cost is printed
    (
        &["intersect", "-m=boolean", "G", "T"],
        BINARY,
        RIGHT,
        Status::Done,
        "q0\nq0 -> S(q0 q1)\nq0 -> a\nq1 -> a\n",
        "",
    ),
    // the reached set has as many parts as the limit
    (
        &["--limit", "14", "intersect", "G", "T"],
        BINARY,
        RIGHT,
        Status::Done,
        "q0\nq0 -> S(q0 q1) # 3\nq0 -> a # 3\nq1 -> a # 2\n",
        "",
    ),
    // it has one more
    (
        &["--limit", "13", "intersect", "G", "T"],
        BINARY,
        RIGHT,
        Status::TooMany { limit: 13 },
        "",
        "tiburon: more than 13 parts\n",
    ),
    // the second normal form has one more
    (
        &["--limit", "9", "intersect", "G", "T"],
        BINARY,
        RIGHT,
        Status::TooMany { limit: 9 },
        "",
        "tiburon: more than 9 parts\n",
    ),
    // the first has
    (
        &["--limit", "6", "intersect", "G", "T"],
        BINARY,
        RIGHT,
        Status::TooMany { limit: 6 },
        "",
        "tiburon: more than 6 parts\n",
    ),
    // a label over one state is not that label alone
    (
        &["intersect", "G", "T"],
        "q\nq -> f(q) # 1\nq -> f # 2\n",
        "p\np -> f # 3\n",
        Status::Done,
        "q0\nq0 -> f # 5\n",
        "",
    ),
    // a product above the greatest cost is none
    (
        &["intersect", "G", "T"],
        "q\nq -> a # 1000000000000000\nq -> b # 1\n",
        "p\np -> a # 1\np -> b # 2\n",
        Status::Done,
        "q0\nq0 -> b # 3\n",
        "",
    ),
    // in bottleneck the product is the greater one
    (
        &["-m", "bottleneck", "intersect", "G", "T"],
        "q\nq -> a # 1000000000000000\n",
        "p\np -> a # 1\n",
        Status::Done,
        "q0\nq0 -> a # 1000000000000000\n",
        "",
    ),
    // a pair that is reached, but from which no tree is in both
    (
        &["intersect", "G", "T"],
        "q\nq -> f(r) # 1\nq -> c # 1\nr -> a # 1\n",
        "p\np -> f(s) # 1\np -> c # 1\ns -> b # 1\n",
        Status::Done,
        "q0\nq0 -> c # 2\n",
        "",
    ),
    // nested sides and chain rules
    (
        &["intersect", "G", "T"],
        "q\nq -> f(g(a))\n",
        "p\np -> r # 1\nr -> f(x)\nx -> g(y)\ny -> a # 2\n",
        Status::Done,
        "q0\nq0 -> f(q1) # 1\nq1 -> g(q2) # 0\nq2 -> a # 2\n",
        "",
    ),
    // states are named by their keys, not by the order of sight
    (
        &["intersect", "G", "T"],
        "q\nq -> f(s r)\nr -> a\ns -> b\n",
        "p\np -> f(x y)\nx -> b\ny -> a\n",
        Status::Done,
        "q0\nq0 -> f(q2 q1) # 0\nq1 -> a # 0\nq2 -> b # 0\n",
        "",
    ),
    // a label that is the name of a state
    (
        &["intersect", "G", "T"],
        "q\nq -> g(q) # 1\nq -> \"q0\"\n",
        "p\np -> q0 # 7\n",
        Status::Done,
        "q0\nq0 -> \"q0\" # 7\n",
        "",
    ),
    // a grammar with itself
    (
        &["intersect", "G", "T"],
        BINARY,
        BINARY,
        Status::Done,
        "q0\nq0 -> S(q0 q0) # 2\nq0 -> a # 4\n",
        "",
    ),
    // of equal rules the cheapest stays
    (
        &["intersect", "G", "T"],
        "q\nq -> a # 5\nq -> a # 2\n",
        "p\np -> a # 1\n",
        Status::Done,
        "q0\nq0 -> a # 3\n",
        "",
    ),
    // a second file without tokens
    (
        &["intersect", "G", "T"],
        BINARY,
        "% none\n",
        Status::BadInput {
            file: 2,
            fault: FileFault {
                line: 1,
                kind: FaultKind::NoStart,
            },
        },
        "",
        "tiburon: file 2: line 1: no start\n",
    ),
    // the first file's fault comes first
    (
        &["intersect", "G", "T"],
        "q\nq -> S(q",
        "",
        Status::BadInput {
            file: 1,
            fault: FileFault {
                line: 2,
                kind: FaultKind::BadRule,
            },
        },
        "",
        "tiburon: file 1: line 2: bad rule\n",
    ),
    // a file too many
    (
        &["intersect", "x", "G", "T"],
        BINARY,
        RIGHT,
        Status::Usage,
        "",
        "tiburon: usage: tiburon [-m MODE] [-k N] [-w N] [--limit N] [--beam N] OPERATION FILE...\n",
    ),
];

// Those in the mode widest. (One table of all would be too large a term for the prover.)
pub static WIDEST: [Row; 8] = [
    // in widest the least weight of a run counts
    (
        &["-m", "widest", "weigh", "G", "T"],
        BINARY,
        "S(a a)\na\nb\n",
        Status::Done,
        "S(a a) # 1\na # 2\nb # none\n",
        "",
    ),
    // the least weight is no missing one, and a missing one is the greatest
    (
        &["-mwidest", "weigh", "G", "T"],
        "q\nq -> a # 0\nq -> c\n",
        "a\nb\nc\n",
        Status::Done,
        "a # 0\nb # none\nc # 1000000000000000\n",
        "",
    ),
    // the greatest weight
    (
        &["-m", "widest", "weigh", "G", "T"],
        "q\nq -> a # 1000000000000000\n",
        "a\n",
        Status::Done,
        "a # 1000000000000000\n",
        "",
    ),
    // a weight above it
    (
        &["-m", "widest", "weigh", "G", "T"],
        "q\nq -> a # 1000000000000001\n",
        "a\n",
        Status::BadInput {
            file: 1,
            fault: FileFault {
                line: 2,
                kind: FaultKind::WeightTooLarge,
            },
        },
        "",
        "tiburon: file 1: line 2: weight too large\n",
    ),
    // the greatest weight of a run from each state
    (
        &["-m", "widest", "inside", "G"],
        UNUSED,
        "",
        Status::Done,
        "q # 0\nr # 1\ns # 4\nu # none\n",
        "",
    ),
    // of equal rules the one of the greatest weight stays
    (
        &["normal", "-m", "widest", "G"],
        "q\nq -> a # 3\nq -> a # 7\nq -> b\n",
        "",
        Status::Done,
        "q0\nq0 -> a # 7\nq0 -> b # 1000000000000000\n",
        "",
    ),
    // a chain has its least weight, and a place of the normal form the greatest
    (
        &["-mwidest", "normal", "G"],
        NESTED,
        "",
        Status::Done,
        "q0\nq0 -> b # 1\nq0 -> f(q1 q0) # 3\nq1 -> g(q2) # 1000000000000000\nq2 -> a # 1000000000000000\n",
        "",
    ),
    // of two weights the lesser counts
    (
        &["-m", "widest", "intersect", "G", "T"],
        BINARY,
        RIGHT,
        Status::Done,
        "q0\nq0 -> S(q0 q1) # 1\nq0 -> a # 1\nq1 -> a # 0\n",
        "",
    ),
];
