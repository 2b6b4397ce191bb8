// What small transducers of one state turn into one string, as text. The labels are S 0, a 1 and b
// 2, and the words u 3, v 4 and w 5.
use crate::grammars::names;
use crate::texts::{is_text, write_dotted, write_marked, write_rules};
use crate::transducers::{Node, left_side};
use std::alloc::{AllocError, Global};
use std::sync::Wait;
use std::thread::Threads;
use tib_apply::ApplyError;
use tib_cost::{Cost, MinPlus};
use tib_expand::{Found, Open};
use tib_grammar::Rule;
use tib_image::parse::Key;
use tib_reached::{Hunters, parse, parse_together};
use tib_strings::{StringRule, StringTransducer, Word, Words};
use tib_transducer::Pair;
use tib_tree::Label;

// A rule: its left-hand side, its words, where those below 3 are pairs with the variable of this
// number, and its cost.
type Row = (&'static [Node], &'static [Label], u64);

const X0: Node = Node::Plain(0);

const X1: Node = Node::Plain(1);

const S: Node = Node::Over(0, 2);

// t.a -> u # 0
const A_TO_U: Row = (&[Node::Over(1, 0)], &[3], 0);

// t.b -> u v # 2
const B_TO_UV: Row = (&[Node::Over(2, 0)], &[3, 4], 2);

// t.S(x0: x1:) -> t.x0 t.x1 # 1
const SPELLING: [Row; 3] = [(&[S, X0, X1], &[0, 1], 1), A_TO_U, B_TO_UV];

// t.S(x0:b x1:) -> t.x1 w t.x0 # 1
const TURNING: [Row; 3] = [(&[S, Node::Asks(0, 2), X1], &[1, 5, 0], 1), A_TO_U, B_TO_UV];

// t.a -> # 4
const EMPTY: [Row; 1] = [(&[Node::Over(1, 0)], &[], 4)];

// t.S(x0: x1:) -> t.x0 # 1
const DELETING: [Row; 1] = [(&[S, X0, X1], &[0], 1)];

// A word; below 3 the pair of the state t with the variable of this number.
fn token(word: Label) -> Word<u32> {
    if word < 3 {
        return Word::Hole(Pair {
            state: 0,
            variable: word,
        });
    }
    Word::Word(word)
}

fn right_side(alloc: Global, words: &[Label]) -> Option<Words<u32>> {
    let mut tokens = Vec::new(alloc);
    for word in words {
        tokens.push(token(*word)).ok()?;
    }
    Some(Words::from_list(tokens))
}

fn rule_of(alloc: Global, row: &Row) -> Option<StringRule<u32>> {
    let (left, words, cost) = row;
    let cost = Cost::new(*cost)?;
    let left = left_side(alloc, left)?;
    Some(StringRule {
        state: 0,
        left,
        right: right_side(alloc, words)?,
        cost,
    })
}

fn rules_of(alloc: Global, rows: &[Row]) -> Option<Vec<StringRule<u32>>> {
    let mut rules = Vec::new(alloc);
    for row in rows {
        rules.push(rule_of(alloc, row)?).ok()?;
    }
    Some(rules)
}

fn transducer(alloc: Global, rows: &[Row]) -> Option<StringTransducer<MinPlus>> {
    let rules = rules_of(alloc, rows)?;
    if rules.len() > 9 {
        return None;
    }
    StringTransducer::new(names(alloc)?, rules)
}

// The places and the restriction of a key.
fn write_key(text: &mut String, key: Key) -> Result<(), AllocError> {
    write_marked(text, "", key.from() as u64)?;
    text.push_str("-")?;
    write_dotted(text, key.to(), &[key.restriction()])
}

// The keys, the rules and the parts.
fn write_found(alloc: Global, found: &Found<Key, Rule<u32>>) -> Result<String, AllocError> {
    let mut text = String::new(alloc);
    for key in &found.order {
        write_key(&mut text, *key)?;
    }
    write_rules(&mut text, &found.rules, found.parts)?;
    Ok(text)
}

// On u u v the keys at 0-1 and 1-3 give S(a b), and on u v u those at 0-2 and 2-3 give S(b a).
const ON_UUV: &str =
    "0-3.0 0-0.0 0-1.0 0-2.0 1-3.0 2-3.0 3-3.0 1-1.0 1-2.0 2-2.0 | 0 > 0 :1 :0 # 1; 0 > 0 :2 :4 # 1; 0 > 0 :3 :5 # 1; 0 > 0 :0 :6 # 1; 1 > 0 :1 :1 # 1; 2 > 0 :1 :2 # 1; 2 > 0 :2 :7 # 1; 2 > 1 # 0; 3 > 0 :1 :3 # 1; 3 > 0 :2 :8 # 1; 3 > 0 :3 :9 # 1; 4 > 0 :7 :4 # 1; 4 > 0 :8 :5 # 1; 4 > 0 :4 :6 # 1; 4 > 2 # 2; 5 > 0 :9 :5 # 1; 5 > 0 :5 :6 # 1; 6 > 0 :6 :6 # 1; 7 > 0 :7 :7 # 1; 8 > 0 :7 :8 # 1; 8 > 0 :8 :9 # 1; 8 > 1 # 0; 9 > 0 :9 :9 # 1; 126";

const ON_UVU: &str =
    "0-3.0 0-0.0 0-1.0 0-2.0 1-3.0 2-3.0 3-3.0 1-1.0 1-2.0 2-2.0 | 0 > 0 :1 :0 # 1; 0 > 0 :2 :4 # 1; 0 > 0 :3 :5 # 1; 0 > 0 :0 :6 # 1; 1 > 0 :1 :1 # 1; 2 > 0 :1 :2 # 1; 2 > 0 :2 :7 # 1; 2 > 1 # 0; 3 > 0 :1 :3 # 1; 3 > 0 :2 :8 # 1; 3 > 0 :3 :9 # 1; 3 > 2 # 2; 4 > 0 :7 :4 # 1; 4 > 0 :8 :5 # 1; 4 > 0 :4 :6 # 1; 5 > 0 :9 :5 # 1; 5 > 0 :5 :6 # 1; 5 > 1 # 0; 6 > 0 :6 :6 # 1; 7 > 0 :7 :7 # 1; 8 > 0 :7 :8 # 1; 8 > 0 :8 :9 # 1; 9 > 0 :9 :9 # 1; 126";

// The rules of a transducer, a string, how many workers there are, or 0 for a hunt without them, a
// limit, and what is returned.
type Case = (&'static [Row], &'static [Label], u32, u64, &'static str);

static CASES: [Case; 11] = [
    (&EMPTY, &[], 0, 6, "0-0.0 | 0 > 1 # 4; 6"),
    (&EMPTY, &[], 0, 5, "more than 5 parts"),
    (
        &TURNING,
        &[3, 5, 3, 4],
        0,
        99,
        "0-4.0 0-1.0 2-4.1 | 0 > 0 :2 :1 # 1; 1 > 1 # 0; 2 > 2 # 2; 21",
    ),
    (
        &TURNING,
        &[3, 5, 3],
        0,
        99,
        "0-3.0 0-1.0 2-3.1 | 0 > 0 :2 :1 # 1; 1 > 1 # 0; 19",
    ),
    (&DELETING, &[3], 0, 99, "rule 1: not nondeleting"),
    (&SPELLING, &[3, 3, 4], 0, 126, ON_UUV),
    (&SPELLING, &[3, 3, 4], 0, 125, "more than 125 parts"),
    (&SPELLING, &[3, 3, 4], 1, 126, ON_UUV),
    (&SPELLING, &[3, 3, 4], 4, 126, ON_UUV),
    (&SPELLING, &[3, 3, 4], 16, 126, ON_UUV),
    (&SPELLING, &[3, 4, 3], 0, 126, ON_UVU),
];

fn cases() -> &'static [Case] {
    &CASES
}

/// Whether this is what was found, or the text of the error.
pub fn is_told(
    alloc: Global,
    answer: Result<Found<Key, Rule<u32>>, ApplyError>,
    want: &str,
) -> bool {
    match answer {
        Ok(found) => is_text(write_found(alloc, &found), want),
        Err(error) => is_text(error.to_string(alloc), want),
    }
}

// Whether a case is answered so, by one worker or, where their number is not 0, by several; false
// where there is no such limit or number of workers.
fn is_answered<R: Threads + Wait + Sync>(
    rt: &R,
    alloc: Global,
    transducer: &StringTransducer<MinPlus>,
    case: &Case,
) -> bool {
    let (_, string, workers, limit, want) = case;
    if *limit == 0 || *limit > 999 || *workers > 16 {
        return false;
    }
    if *workers == 0 {
        return is_told(alloc, parse(alloc, transducer, string, *limit, &Open), want);
    }
    let hunters = Hunters {
        rt,
        workers: *workers,
        gate: &Open,
    };
    let answer = parse_together(&hunters, alloc, transducer, string, *limit);
    is_told(alloc, answer, want)
}

// The same, with the transducer of the case.
fn is_case_answered<R: Threads + Wait + Sync>(rt: &R, alloc: Global, case: &Case) -> bool {
    match transducer(alloc, case.0) {
        Some(transducer) => is_answered(rt, alloc, &transducer, case),
        None => false,
    }
}

#[test]
fn parsing_reaches(rt: HostRuntime) {
    for case in cases() {
        assert!(rt; is_case_answered(&rt, rt.alloc(), case));
    }
}
