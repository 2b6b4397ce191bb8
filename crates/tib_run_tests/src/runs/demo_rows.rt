// The worked rows on `demo`, which reads no file.
use crate::runs::rows::Row;
use tib_operations::Status;

/// The row of the first test of a machine.
pub static SEVEN: Row = (
    &["demo", "7"],
    "",
    "",
    Status::Done,
    "states 129\nrules 321\nbest a(a(a(a(a(a(a(e))))))) # 1\n",
    "",
);

pub static DEMONSTRATED: [Row; 8] = [
    (
        &["demo", "1"],
        "",
        "",
        Status::Done,
        "states 3\nrules 6\nbest a(e) # 1\n",
        "",
    ),
    // the other options do not act
    (
        &["-k5", "demo", "--beam=3", "1"],
        "",
        "",
        Status::Done,
        "states 3\nrules 6\nbest a(e) # 1\n",
        "",
    ),
    (
        &["-mboolean", "demo", "1"],
        "",
        "",
        Status::Done,
        "states 3\nrules 6\nbest a(e)\n",
        "",
    ),
    // the normal form has thirteen parts, and the reached set nineteen
    (
        &["demo", "--limit=19", "1"],
        "",
        "",
        Status::Done,
        "states 3\nrules 6\nbest a(e) # 1\n",
        "",
    ),
    (
        &["demo", "--limit=18", "1"],
        "",
        "",
        Status::TooMany { limit: 18 },
        "",
        "tiburon: more than 18 parts\n",
    ),
    (
        &["demo", "3"],
        "",
        "",
        Status::Done,
        "states 9\nrules 21\nbest a(a(a(e))) # 1\n",
        "",
    ),
    (
        &["demo", "17"],
        "",
        "",
        Status::Usage,
        "",
        "tiburon: usage: tiburon [-m MODE] [-k N] [-w N] [--limit N] [--beam N] OPERATION FILE...\n",
    ),
    (
        &["demo", "1", "G"],
        "",
        "",
        Status::Usage,
        "",
        "tiburon: usage: tiburon [-m MODE] [-k N] [-w N] [--limit N] [--beam N] OPERATION FILE...\n",
    ),
];
