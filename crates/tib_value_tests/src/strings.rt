// Small transducers with one or two states, as written in comments: a label is a number here.
use crate::transducer::{Left, left_side, names_of};
use std::alloc::{AllocError, Global};
use std::test::Fail;
use tib_cost::{MinPlus, Semiring};
use tib_strings::*;
use tib_transducer::{ClassFault, Pair};

// What a transducer's first rule lacks that lacks something: none where there is no transducer, and
// no rule where none lacks anything.
type Lack = Option<Option<(u32, ClassFault)>>;

// The names of the states, the left-hand side, the state and the variable of each pair on the
// right, which are between words, and what the first rule lacks.
type Row = (
    &'static [&'static str],
    &'static [Left],
    &'static [(u32, u32)],
    Lack,
);

const X0: Left = Left::Variable(0, None);

const X1: Left = Left::Variable(1, None);

static ROWS: [Row; 9] = [
    // t.A(x0: x1:) -> a t.x1 a p.x0 a
    (
        &["t", "p"],
        &[Left::Label(0, 2), X0, X1],
        &[(0, 1), (1, 0)],
        Some(None),
    ),
    // t.A -> a
    (&["t"], &[Left::Label(0, 0)], &[], Some(None)),
    // t.A(x0: x1:) -> a t.x1 a
    (
        &["t"],
        &[Left::Label(0, 2), X0, X1],
        &[(0, 1)],
        Some(Some((1, ClassFault::NotNondeleting))),
    ),
    // t.A(x0:) -> a t.x0 a t.x0 a
    (
        &["t"],
        &[Left::Label(0, 1), X0],
        &[(0, 0), (0, 0)],
        Some(Some((1, ClassFault::NotLinear))),
    ),
    // t.A(x0: x1:) -> a t.x0 a t.x0 a
    (
        &["t"],
        &[Left::Label(0, 2), X0, X1],
        &[(0, 0), (0, 0)],
        Some(Some((1, ClassFault::NotLinear))),
    ),
    // the state p has no name
    (&["t"], &[Left::Label(0, 1), X0], &[(1, 0)], None),
    // the left-hand side lacks x1
    (&["t"], &[Left::Label(0, 1), X0], &[(0, 1)], None),
    // the left-hand side numbers x1 before x0
    (&["t"], &[Left::Label(0, 2), X1, X0], &[(0, 0)], None),
    // there is no state
    (&[], &[Left::Label(0, 0)], &[], None),
];

fn rows() -> &'static [Row] {
    &ROWS
}

fn hole_of(pair: (u32, u32)) -> Word<u32> {
    Word::Hole(Pair {
        state: pair.0,
        variable: pair.1,
    })
}

fn words_of(alloc: Global, pairs: &[(u32, u32)]) -> Result<Vec<Word<u32>>, AllocError> {
    let mut words = vec![in alloc; Word::Word(1)]?;
    for pair in pairs {
        words.push(hole_of(*pair))?;
        words.push(Word::Word(1))?;
    }
    Ok(words)
}

// A rule of the state 0 that costs nothing.
fn rule_of(alloc: Global, row: &Row) -> Result<StringRule<u32>, AllocError> {
    let left = left_side(alloc, row.1)?;
    let words = words_of(alloc, row.2)?;
    Ok(StringRule {
        state: 0,
        left,
        right: Words::from_list(words),
        cost: MinPlus::one(),
    })
}

fn transducer(alloc: Global, row: &Row) -> Result<Option<StringTransducer<MinPlus>>, AllocError> {
    let rules = vec![in alloc; rule_of(alloc, row)?]?;
    let names = names_of(alloc, row.0)?;
    Ok(StringTransducer::new(names, rules))
}

// What the row's rule lacks, where it makes a transducer.
fn outside(alloc: Global, row: &Row) -> Result<Lack, AllocError> {
    match transducer(alloc, row)? {
        Some(transducer) => Ok(Some(string_outside(&transducer))),
        None => Ok(None),
    }
}

#[test]
fn a_rule_makes_a_transducer_where_it_has_its_shape(rt: HostRuntime) -> Result<(), Fail> {
    for row in rows() {
        assert!(rt; outside(rt.alloc(), row)? == row.3);
    }
    Ok(())
}
