// Words with the jobs that they ask for, and words that are refused.
use std::alloc::{AllocError, Global};
use std::test::Fail;
use tib_command::{CommandError, Job, Mode, Operation, read_words};

// The words as texts of their own.
fn texts_of(alloc: Global, words: &[&str]) -> Result<Vec<String>, AllocError> {
    let mut texts = Vec::new(alloc);
    for word in words {
        texts.push(String::from_str(alloc, word)?)?;
    }
    Ok(texts)
}

fn job(alloc: Global, words: &[&str]) -> Result<Job, CommandError> {
    let words = texts_of(alloc, words)?;
    read_words(alloc, words.as_slice())
}

// Words, and the mode, the operation, the numbers of `-k`, `-w` and `--limit` and the names of the
// files that they give.
type Accepted = (
    &'static [&'static str],
    Mode,
    Operation,
    u32,
    u32,
    u64,
    &'static [&'static str],
);

static ACCEPTED: [Accepted; 33] = [
    (
        &["-k5", "weigh", "g", "t"],
        Mode::MinPlus,
        Operation::Weigh,
        5,
        1,
        20000000,
        &["g", "t"],
    ),
    (
        &["-k=5", "weigh", "g", "t"],
        Mode::MinPlus,
        Operation::Weigh,
        5,
        1,
        20000000,
        &["g", "t"],
    ),
    (
        &["-k", "5", "weigh", "g", "t"],
        Mode::MinPlus,
        Operation::Weigh,
        5,
        1,
        20000000,
        &["g", "t"],
    ),
    (
        &["weigh", "-k", "000000000005", "g", "t"],
        Mode::MinPlus,
        Operation::Weigh,
        5,
        1,
        20000000,
        &["g", "t"],
    ),
    (
        &["weigh", "g", "t", "--limit=5"],
        Mode::MinPlus,
        Operation::Weigh,
        1,
        1,
        5,
        &["g", "t"],
    ),
    (
        &["weigh", "g", "--limit", "5", "t"],
        Mode::MinPlus,
        Operation::Weigh,
        1,
        1,
        5,
        &["g", "t"],
    ),
    (
        &["weigh", "g", "t", "--limit", "20000000"],
        Mode::MinPlus,
        Operation::Weigh,
        1,
        1,
        20000000,
        &["g", "t"],
    ),
    (
        &["weigh", "-k10000", "g", "t"],
        Mode::MinPlus,
        Operation::Weigh,
        10000,
        1,
        20000000,
        &["g", "t"],
    ),
    (
        &["-w16", "weigh", "g", "t"],
        Mode::MinPlus,
        Operation::Weigh,
        1,
        16,
        20000000,
        &["g", "t"],
    ),
    (
        &["weigh", "--", "-g", "-t"],
        Mode::MinPlus,
        Operation::Weigh,
        1,
        1,
        20000000,
        &["-g", "-t"],
    ),
    (
        &["--", "weigh", "-g", "-t"],
        Mode::MinPlus,
        Operation::Weigh,
        1,
        1,
        20000000,
        &["-g", "-t"],
    ),
    (
        &["weigh", "g", "--", "-t"],
        Mode::MinPlus,
        Operation::Weigh,
        1,
        1,
        20000000,
        &["g", "-t"],
    ),
    (
        &["weigh", "--", "--", "-k5"],
        Mode::MinPlus,
        Operation::Weigh,
        1,
        1,
        20000000,
        &["--", "-k5"],
    ),
    (
        &["weigh", "-", "-"],
        Mode::MinPlus,
        Operation::Weigh,
        1,
        1,
        20000000,
        &["-", "-"],
    ),
    (
        &["weigh", "é", "a/b.txt"],
        Mode::MinPlus,
        Operation::Weigh,
        1,
        1,
        20000000,
        &["é", "a/b.txt"],
    ),
    (
        &["-w", "2", "weigh", "-k", "3", "g", "--limit=7", "t"],
        Mode::MinPlus,
        Operation::Weigh,
        3,
        2,
        7,
        &["g", "t"],
    ),
    (
        &["-m", "minplus", "weigh", "a", "b"],
        Mode::MinPlus,
        Operation::Weigh,
        1,
        1,
        20000000,
        &["a", "b"],
    ),
    (
        &["-mboolean", "weigh", "a", "b"],
        Mode::Boolean,
        Operation::Weigh,
        1,
        1,
        20000000,
        &["a", "b"],
    ),
    (
        &["-m=bottleneck", "weigh", "a", "a"],
        Mode::Bottleneck,
        Operation::Weigh,
        1,
        1,
        20000000,
        &["a", "a"],
    ),
    (
        &["-mwidest", "weigh", "a", "a"],
        Mode::Widest,
        Operation::Weigh,
        1,
        1,
        20000000,
        &["a", "a"],
    ),
    (
        &["weigh", "weigh", "weigh"],
        Mode::MinPlus,
        Operation::Weigh,
        1,
        1,
        20000000,
        &["weigh", "weigh"],
    ),
    (
        &["inside", "g"],
        Mode::MinPlus,
        Operation::Inside,
        1,
        1,
        20000000,
        &["g"],
    ),
    (
        &["normal", "--limit=3", "-mboolean", "--", "-g"],
        Mode::Boolean,
        Operation::Normal,
        1,
        1,
        3,
        &["-g"],
    ),
    (
        &["-k10000", "kbest", "-m", "widest", "g"],
        Mode::Widest,
        Operation::KBest,
        10000,
        1,
        20000000,
        &["g"],
    ),
    (
        &["-w3", "intersect", "g", "--limit", "14", "h"],
        Mode::MinPlus,
        Operation::Intersect,
        1,
        3,
        14,
        &["g", "h"],
    ),
    (
        &["forward", "-mwidest", "g", "t"],
        Mode::Widest,
        Operation::Forward,
        1,
        1,
        20000000,
        &["g", "t"],
    ),
    (
        &["--limit=9", "backward", "t", "g"],
        Mode::MinPlus,
        Operation::Backward,
        1,
        1,
        9,
        &["t", "g"],
    ),
    (
        &["compose", "-mboolean", "t", "--limit=5", "u"],
        Mode::Boolean,
        Operation::Compose,
        1,
        1,
        5,
        &["t", "u"],
    ),
    (
        &["image", "--limit", "14", "trees", "t", "-w4"],
        Mode::MinPlus,
        Operation::Image,
        1,
        4,
        14,
        &["trees", "t"],
    ),
    (
        &["parse", "t", "-mwidest", "s", "--limit=8"],
        Mode::Widest,
        Operation::Parse,
        1,
        1,
        8,
        &["t", "s"],
    ),
    (
        &["-w2", "compare", "g", "g"],
        Mode::MinPlus,
        Operation::Compare,
        1,
        2,
        20000000,
        &["g", "g"],
    ),
    (
        &["-m", "bottleneck", "determinize", "--limit", "13", "g"],
        Mode::Bottleneck,
        Operation::Determinize,
        1,
        1,
        13,
        &["g"],
    ),
    (
        &["check", "t"],
        Mode::MinPlus,
        Operation::Check,
        1,
        1,
        20000000,
        &["t"],
    ),
];

// Words on one file, and the beam that they give.
static BEAMS: [(&[&str], u64); 5] = [
    (&["prune", "g"], 0),
    (&["--beam", "3", "prune", "g"], 3),
    (&["prune", "g", "--beam=0000000000000012"], 12),
    (&["prune", "--beam=1000000000000000", "g"], 1000000000000000),
    (&["normal", "--beam", "7", "--limit=9", "--", "g"], 7),
];

// Words that ask for `demo`, and the number that they give.
static NUMBERS: [(&[&str], u32); 5] = [
    (&["demo", "1"], 1),
    (&["demo", "16"], 16),
    (&["-mboolean", "demo", "000000000007", "-w8"], 7),
    (&["-k5", "demo", "--limit=19", "--", "1"], 1),
    (&["normal", "g"], 0),
];

// Words whose operation, files or number are not of the language.
static OTHER_TASKS: [&[&str]; 68] = [
    &["demo"],
    &["demo", "0"],
    &["demo", "17"],
    &["demo", "x"],
    &["demo", ""],
    &["demo", "+7"],
    &["demo", "--", "-7"],
    &["demo", "0000000000001"],
    &["demo", "1", "2"],
    &["demo", "1", "g"],
    &["Demo", "1"],
    &["prune"],
    &["prune", "g", "h"],
    &["Prune", "g"],
    &[],
    &["--"],
    &["weigh"],
    &["weigh", "g"],
    &["weigh", "g", "t", "u"],
    &["tiburon", "weigh", "g", "t"],
    &["Weigh", "g", "t"],
    &["kbest"],
    &["kbest", "g", "h"],
    &["Kbest", "g"],
    &["-k", "0", "kbest", "g"],
    &["normal"],
    &["normal", "g", "h"],
    &["normal", ""],
    &["inside"],
    &["inside", "g", "h"],
    &["Inside", "g"],
    &["intersect"],
    &["intersect", "g"],
    &["intersect", "g", "h", "i"],
    &["forward"],
    &["forward", "g"],
    &["forward", "g", "t", "u"],
    &["Forward", "g", "t"],
    &["backward"],
    &["backward", "t"],
    &["backward", "t", "g", "h"],
    &["backwards", "t", "g"],
    &["compose"],
    &["compose", "t"],
    &["compose", "t", "u", "v"],
    &["Compose", "t", "u"],
    &["image"],
    &["image", "trees"],
    &["image", "trees", "t", "u"],
    &["images", "trees", "t"],
    &["parse"],
    &["parse", "t"],
    &["parse", "t", "s", "s"],
    &["Parse", "t", "s"],
    &["compare"],
    &["compare", "g"],
    &["compare", "g", "h", "i"],
    &["compares", "g", "h"],
    &["determinize"],
    &["determinize", "g", "h"],
    &["determinise", "g"],
    &["check"],
    &["check", "t", "u"],
    &["Check", "t"],
    &["help", "weigh"],
    &["", "weigh", "g", "t"],
    &["weigh", "", "t"],
    &["weigh", "g", ""],
];

// Words whose options are not.
static OTHER_OPTIONS: [&[&str]; 50] = [
    &["--beam=1000000000000001", "prune", "g"],
    &["--beam=00000000000000001", "prune", "g"],
    &["--beam", "-1", "prune", "g"],
    &["--beam=", "prune", "g"],
    &["prune", "g", "--beam"],
    &["--beam=1", "--beam=1", "prune", "g"],
    &["--bea=1", "prune", "g"],
    &["-beam", "1", "prune", "g"],
    &["--beam1", "prune", "g"],
    &["-k==5", "weigh", "g", "t"],
    &["-k=", "weigh", "g", "t"],
    &["-k", "-5", "weigh", "g", "t"],
    &["-k", "-", "weigh", "g", "t"],
    &["-k", "", "weigh", "g", "t"],
    &["-k", "=5", "weigh", "g", "t"],
    &["-k", "--", "weigh", "g", "t"],
    &["-k"],
    &["weigh", "g", "t", "-k"],
    &["-k+5", "weigh", "g", "t"],
    &["-k", "+5", "weigh", "g", "t"],
    &["-k0", "weigh", "g", "t"],
    &["-k10001", "weigh", "g", "t"],
    &["-w0", "weigh", "g", "t"],
    &["-w17", "weigh", "g", "t"],
    &["--limit=0", "weigh", "g", "t"],
    &["--limit=20000001", "weigh", "g", "t"],
    &["--limit=", "weigh", "g", "t"],
    &["--limit==5", "weigh", "g", "t"],
    &["--limit", "-5", "weigh", "g", "t"],
    &["--limi", "5", "weigh", "g", "t"],
    &["--limi=5", "weigh", "g", "t"],
    &["--limit5", "weigh", "g", "t"],
    &["-limit", "5", "weigh", "g", "t"],
    &["--k=5", "weigh", "g", "t"],
    &["--=5", "weigh", "g", "t"],
    &["---", "weigh", "g", "t"],
    &["-kmk", "weigh", "g", "t"],
    &["-k5w3", "weigh", "g", "t"],
    &["-k5", "-k5", "weigh", "g", "t"],
    &["-m", "minplus", "-m", "minplus", "weigh", "a", "b"],
    &["-m", "MinPlus", "weigh", "a", "b"],
    &["-m"],
    &["--help"],
    &["-h"],
    &["-V"],
    &["--version"],
    &["-é", "weigh", "g", "t"],
    &["-ké", "weigh", "g", "t"],
    &["-k1234567890123", "weigh", "g", "t"],
    &["-k0000000000005", "weigh", "g", "t"],
];

// Whether the files have these names.
fn have_names(files: &[String], names: &[&str]) -> bool {
    if files.len() != names.len() {
        return false;
    }
    for at in 0..files.len() {
        if files[at].as_str() != names[at] {
            return false;
        }
    }
    true
}

#[test]
fn words_of_the_language_give_their_job(rt: HostRuntime) -> Result<(), Fail> {
    for (words, mode, operation, k, workers, limit, files) in &ACCEPTED {
        let job = job(rt.alloc(), words)?;
        assert_eq!(rt; (job.mode, job.operation), (*mode, *operation));
        assert_eq!(rt; (job.k, job.workers, job.limit), (*k, *workers, *limit));
        assert!(rt; have_names(&job.files, files));
    }
    Ok(())
}

#[test]
fn beams_are_read(rt: HostRuntime) -> Result<(), Fail> {
    for (words, beam) in &BEAMS {
        assert_eq!(rt; job(rt.alloc(), words)?.beam, *beam);
    }
    Ok(())
}

#[test]
fn numbers_are_read(rt: HostRuntime) -> Result<(), Fail> {
    for (words, demo) in &NUMBERS {
        assert_eq!(rt; job(rt.alloc(), words)?.demo, *demo);
    }
    Ok(())
}

#[test]
fn other_tasks_are_refused(rt: HostRuntime) {
    for words in &OTHER_TASKS {
        assert!(rt; matches!(job(rt.alloc(), words), Err(CommandError::Usage)));
    }
}

#[test]
fn other_options_are_refused(rt: HostRuntime) {
    for words in &OTHER_OPTIONS {
        assert!(rt; matches!(job(rt.alloc(), words), Err(CommandError::Usage)));
    }
}
