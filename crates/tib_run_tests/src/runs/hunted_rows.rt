// A row on each operation that hunts, with the keys of its hunt.
use crate::runs::rows::Row;
use tib_operations::Status;

// A row; how many keys its hunt reaches, with the sum of their positions and that of the squares;
// and the first of two positions that are expanded in one round.
pub type Hunt = (Row, u64, u64, u64, u32);

const LEAVES: &str = "q\nq -> S(r s) # 1\nr -> a # 2\ns -> b # 3\n";

const OTHER_LEAVES: &str = "q\nq -> Z(r s) # 1\nr -> c # 2\ns -> d # 3\n";

const LEAVES_TURNED: &str = "t\nt.S(x0: x1:) -> Z(t.x0 t.x1) # 1\nt.a -> c # 2\nt.b -> d # 3\n";

const LEAVES_MADE: &str = "q\nq.A(x0: x1:) -> S(r.x0 s.x1)\nr.a -> a\ns.b -> b\n";

const LEAVES_SPELLED: &str = "q\nq.S(x0: x1:) -> r.x0 s.x1\nr.a -> u\ns.b -> v\n";

pub static HUNTED: [Hunt; 12] = [
    (
        (
            &["intersect", "G", "T"],
            LEAVES,
            LEAVES,
            Status::Done,
            "q0\nq0 -> S(q1 q2) # 2\nq1 -> a # 4\nq2 -> b # 6\n",
            "",
        ),
        3,
        3,
        5,
        1,
    ),
    (
        (
            &["forward", "G", "T"],
            LEAVES,
            LEAVES_TURNED,
            Status::Done,
            "q0\nq0 -> Z(q1 q2) # 2\nq1 -> c # 4\nq2 -> d # 6\n",
            "",
        ),
        3,
        3,
        5,
        1,
    ),
    (
        (
            &["backward", "G", "T"],
            LEAVES_TURNED,
            OTHER_LEAVES,
            Status::Done,
            "q0\nq0 -> S(q1 q2) # 2\nq1 -> a # 4\nq2 -> b # 6\n",
            "",
        ),
        3,
        3,
        5,
        1,
    ),
    (
        (
            &["compose", "G", "T"],
            LEAVES_MADE,
            LEAVES_TURNED,
            Status::Done,
            "q0\nq0.A(x0: x1:) -> Z(q1.x0 q2.x1) # 1\nq1.a -> c # 2\nq2.b -> d # 3\n",
            "",
        ),
        3,
        3,
        5,
        1,
    ),
    (
        (
            &["image", "G", "T"],
            "S(a b)\n",
            LEAVES_TURNED,
            Status::Done,
            "q0\nq0 -> Z(q1 q2) # 1\nq1 -> c # 2\nq2 -> d # 3\n",
            "",
        ),
        3,
        3,
        5,
        1,
    ),
    // each way to share the two words between r and s has two keys of its own
    (
        (
            &["parse", "G", "T"],
            LEAVES_SPELLED,
            "u v\n",
            Status::Done,
            "q0\nq0 -> S(q1 q2) # 0\nq1 -> a # 0\nq2 -> b # 0\n",
            "",
        ),
        7,
        21,
        91,
        1,
    ),
    (
        (
            &["domain", "G"],
            LEAVES_MADE,
            "",
            Status::Done,
            "q0\nq0 -> A(q1 q2) # 0\nq1 -> a # 0\nq2 -> b # 0\n",
            "",
        ),
        3,
        3,
        5,
        1,
    ),
    // the labels without children are the seeds
    (
        (
            &["compare", "G", "T"],
            LEAVES,
            OTHER_LEAVES,
            Status::Done,
            "first S(a b)\n",
            "",
        ),
        6,
        15,
        55,
        0,
    ),
    (
        (
            &["determinize", "G"],
            LEAVES,
            "",
            Status::Done,
            "q0\nq0 -> q1 # 0\nq1 -> S(q2 q3) # 1\nq2 -> a # 2\nq3 -> b # 3\n",
            "",
        ),
        3,
        3,
        5,
        0,
    ),
    (
        (
            &["difference", "G", "T"],
            LEAVES,
            OTHER_LEAVES,
            Status::Done,
            "q0\nq0 -> q1 # 0\nq1 -> S(q2 q3) # 1\nq2 -> a # 2\nq3 -> b # 3\n",
            "",
        ),
        3,
        3,
        5,
        0,
    ),
    (
        (
            &["count", "G"],
            LEAVES,
            "",
            Status::Done,
            "states 3\nrules 3\nruns 1\ntrees 1\n",
            "",
        ),
        3,
        3,
        5,
        0,
    ),
    // the grammar that is made has 2^7 vectors; the third round has the positions 2 and 3
    (
        (
            &["demo", "7"],
            "",
            "",
            Status::Done,
            "states 129\nrules 321\nbest a(a(a(a(a(a(a(e))))))) # 1\n",
            "",
        ),
        128,
        8128,
        690880,
        2,
    ),
];
