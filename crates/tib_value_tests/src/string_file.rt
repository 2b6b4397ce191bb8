// Strings and tree-to-string transducers, and files that are none.
use crate::texts::{no_wrong, repeated};
use std::alloc::{AllocError, Global};
use std::test::Fail;
use tib_cost::MinPlus;
use tib_lex::ReadError;
use tib_strings::{StringRule, StringTransducer, Word, read_string, read_string_transducer};
use tib_transducer::Pair;
use tib_tree::{Label, Labels};

// A file, and the texts of its words, each with a bar after it, or what is printed of its fault.
type Row = (&'static str, &'static str);

static ROWS: [Row; 28] = [
    ("the boy\n", "the|boy|"),
    ("\n% none\n \t\r\n a \"b c\" a % end\n\n", "a|b c|a|"),
    ("*e*", ""),
    ("\n *e* % none\n\n", ""),
    ("\"*e*\"", "*e*|"),
    ("\"*e*\" \"*e*\"", "*e*|*e*|"),
    ("*e x *e*e", "*e|x|*e*e|"),
    ("\"\" \"\\\"\" \"->\"", "|\"|->|"),
    ("t.x0 x0 x0: x1:a t.A", "t.x0|x0|x0:|x1:a|t.A|"),
    ("", "line 1: bad string"),
    ("\n\n % none", "line 1: bad string"),
    ("a\nb\n", "line 2: bad string"),
    ("*e*\n\n*e*\n", "line 3: bad string"),
    ("a\n\n\"", "line 3: bad token"),
    ("\na *e*", "line 2: bad string"),
    ("*e* *e*", "line 1: bad string"),
    ("\"*e*\" *e*", "line 1: bad string"),
    ("a(b)", "line 1: bad string"),
    ("a -> b", "line 1: bad string"),
    ("a # 1", "line 1: bad string"),
    ("\n( \"", "line 2: bad token"),
    ("->\na\n\"", "line 1: bad string"),
    // the fronts of a file
    ("a", "a|"),
    ("a \"", "line 1: bad token"),
    ("a \"b", "line 1: bad token"),
    ("a \"b\"", "a|b|"),
    ("a \"b\"\n", "a|b|"),
    ("a \"b\"\n-", "line 2: bad string"),
];

fn push_label(labels: &Labels, label: Label, out: &mut Vec<u8>) -> Result<(), AllocError> {
    if label as usize >= labels.len() {
        return Ok(());
    }
    out.extend_from_slice(labels.text(label))
}

fn push_word(labels: &Labels, word: Label, out: &mut Vec<u8>) -> Result<(), AllocError> {
    push_label(labels, word, out)?;
    out.extend_from_slice(b"|")
}

// The texts of words, each with a bar after it.
fn texts_of(alloc: Global, words: &[Label], labels: &Labels) -> Result<Vec<u8>, AllocError> {
    let mut out = Vec::new(alloc);
    for word in words {
        push_word(labels, *word, &mut out)?;
    }
    Ok(out)
}

fn text_of_error(alloc: Global, error: ReadError) -> Result<Vec<u8>, AllocError> {
    let text = error.to_string(alloc)?;
    text.as_bytes().to_vec(alloc)
}

// What is reported of a file.
fn told(alloc: Global, bytes: &[u8]) -> Result<Vec<u8>, AllocError> {
    if bytes.len() > 8_388_608 {
        return Err(AllocError);
    }
    let mut labels = Labels::new(alloc);
    match read_string(alloc, bytes, &mut labels) {
        Ok(string) => texts_of(alloc, &string, &labels),
        Err(error) => text_of_error(alloc, error),
    }
}

// Whether this is what is reported.
fn is_told(told: Result<Vec<u8>, AllocError>, want: &str) -> bool {
    match told {
        Ok(found) => found.as_slice() == want.as_bytes(),
        Err(_) => false,
    }
}

fn rows() -> &'static [Row] {
    &ROWS
}

// The first of these files of which something else is reported.
fn first_wrong(alloc: Global, rows: &[Row]) -> Option<&'static str> {
    for (text, want) in rows {
        if !is_told(told(alloc, text.as_bytes()), want) {
            return Some(text);
        }
    }
    None
}

#[test]
fn a_file_gives_its_string_or_its_fault(rt: HostRuntime) -> Result<(), Fail> {
    no_wrong(first_wrong(rt.alloc(), rows()))
}

// How many words are read of a file of this many.
fn count(alloc: Global, words: u32) -> Result<usize, ReadError> {
    let bytes = repeated(alloc, b"", b"a ", words, b"")?;
    if bytes.len() > 8_388_608 {
        return Err(ReadError::OutOfMemory);
    }
    let string = read_string(alloc, &bytes, &mut Labels::new(alloc))?;
    Ok(string.len())
}

#[test]
fn a_string_has_ten_thousand_words_at_most(rt: HostRuntime) {
    assert!(rt; count(rt.alloc(), 10_000) == Ok(10_000));
    assert!(rt; count(rt.alloc(), 10_001).is_err());
}

// A transducer file, and of each rule the name of its state and its words and pairs, each with a
// bar after it, a pair as the name of its state and the number of its variable; or what is printed
// of the fault.
static RULES: [Row; 34] = [
    ("q", ""),
    (
        "q\nq.S(x0:NP VP(x1: x2:NP)) -> p.x0 p.x2 \"ga\" v.x1 # 1\np.a -> a b # 2\n",
        "q p0 p2 ga v1|p a b|",
    ),
    ("q\nq.A(x7 x3) -> q.x3 a q.x7 q.x3", "q q1 a q0 q1|"),
    ("q\nq.A(x0:\"a b\" x1:\"c\") -> q.x1 q.x0", "q q1 q0|"),
    ("q\nq.A -> *e*", "q|"),
    ("q\nq.A -> *e* # 3", "q|"),
    ("q\nq.A ->", "q|"),
    ("q\nq.A -> # 3 % none", "q|"),
    ("q\nq.A -> \"*e*\"", "q *e*|"),
    (
        "q\nq.A -> \"*e*\" \"q.x0\" \"x0\" \"->\"",
        "q *e* q.x0 x0 ->|",
    ),
    ("q\nq.A -> q. q.x .x0 x q.x0a", "q q. q.x .x0 x q.x0a|"),
    ("q\nq.A -> q.A.x0", "q q.A.x0|"),
    ("", "line 1: no start"),
    ("q.a\n", "line 1: bad rule"),
    ("q\n\nq.A -> a *e*", "line 3: bad rule"),
    ("q\nq.A -> *e* *e*", "line 2: bad rule"),
    ("q\nq.A(x0) -> x0", "line 2: bad rule"),
    ("q\nq.A(x0) -> q.x0 x0:", "line 2: bad rule"),
    ("q\nq.A(x0) -> q.x0 x5:NP", "line 2: bad rule"),
    ("q\nq.A -> a(b)", "line 2: bad rule"),
    ("q\nq.A -> a # b c", "line 2: bad rule"),
    ("q\nq.A a", "line 2: bad rule"),
    ("q\nA -> a", "line 2: bad rule"),
    ("q\nq.A -> a -> b", "line 2: bad rule"),
    ("q\nq.A -> a \"", "line 2: bad token"),
    ("q\nq.x0 -> q.x0 x0", "line 2: bad rule"),
    ("q\nq.x0 -> q.x0", "line 2: lone variable on the left"),
    (
        "q\nq.A(x0 x0) -> q.x1",
        "line 2: variable twice on the left",
    ),
    ("q\nq.A(x0) -> q.x1 # y", "line 2: unknown variable"),
    ("q\nq.A -> a # 1.5", "line 2: weight is not a whole number"),
    ("q\nq.A -> a # 1000000000000001", "line 2: weight too large"),
    // the fronts of a file of five lines
    ("q\nq.A(x0:) -> q.x0 b\nq.", "line 3: bad rule"),
    ("q\nq.A(x0:) -> q.x0 b\nq.B", "line 3: bad rule"),
    (
        "q\nq.A(x0:) -> q.x0 b\nq.B -> a\nq.C -> *e*\nq.D -> a",
        "q q0 b|q a|q|q a|",
    ),
];

fn push_state(
    transducer: &StringTransducer<MinPlus>,
    state: u32,
    out: &mut Vec<u8>,
) -> Result<(), AllocError> {
    if state >= transducer.states() {
        return Ok(());
    }
    out.extend_from_slice(transducer.name(state))
}

fn push_pair(
    transducer: &StringTransducer<MinPlus>,
    pair: &Pair<u32>,
    out: &mut Vec<u8>,
) -> Result<(), AllocError> {
    push_state(transducer, pair.state, out)?;
    if pair.variable >= 10 {
        return Ok(());
    }
    out.push(b'0' + pair.variable as u8)?;
    Ok(())
}

// A blank, and the text of a word, or a pair.
fn push_token(
    transducer: &StringTransducer<MinPlus>,
    token: &Word<u32>,
    labels: &Labels,
    out: &mut Vec<u8>,
) -> Result<(), AllocError> {
    out.extend_from_slice(b" ")?;
    match token {
        Word::Word(label) => push_label(labels, *label, out),
        Word::Hole(pair) => push_pair(transducer, pair, out),
    }
}

// The state of a rule, and its words and pairs.
fn describe(
    transducer: &StringTransducer<MinPlus>,
    rule: &StringRule<u32>,
    labels: &Labels,
    out: &mut Vec<u8>,
) -> Result<(), AllocError> {
    push_state(transducer, rule.state, out)?;
    for token in rule.right.tokens() {
        push_token(transducer, token, labels, out)?;
    }
    out.extend_from_slice(b"|")
}

// The rules of a transducer.
fn describe_all(
    alloc: Global,
    transducer: &StringTransducer<MinPlus>,
    labels: &Labels,
) -> Result<Vec<u8>, AllocError> {
    let mut out = Vec::new(alloc);
    for rule in transducer.rule_list() {
        describe(transducer, rule, labels, &mut out)?;
    }
    Ok(out)
}

// What is reported of a transducer file.
fn told_rules(alloc: Global, bytes: &[u8]) -> Result<Vec<u8>, AllocError> {
    if bytes.len() > 8_388_608 {
        return Err(AllocError);
    }
    let mut labels = Labels::new(alloc);
    match read_string_transducer::<MinPlus>(alloc, bytes, &mut labels) {
        Ok(transducer) => describe_all(alloc, &transducer, &labels),
        Err(error) => text_of_error(alloc, error),
    }
}

fn rules() -> &'static [Row] {
    &RULES
}

// The first of these transducer files of which something else is reported.
fn first_wrong_rules(alloc: Global, rows: &[Row]) -> Option<&'static str> {
    for (text, want) in rows {
        if !is_told(told_rules(alloc, text.as_bytes()), want) {
            return Some(text);
        }
    }
    None
}

#[test]
fn a_file_gives_its_string_transducer_or_its_fault(rt: HostRuntime) -> Result<(), Fail> {
    no_wrong(first_wrong_rules(rt.alloc(), rules()))
}
