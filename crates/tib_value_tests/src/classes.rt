// Small transducers of one state, as written in comments: a label is a number here, 0 for A, 1 for
// B and 2 for a.
use crate::transducer::{Left, Right, made, rules_of};
use std::alloc::{AllocError, Global};
use std::test::Fail;
use tib_cost::MinPlus;
use tib_transducer::{
    ClassError, ClassFault, Transducer, extended, first_outside, labelled, not_linear,
    not_nondeleting,
};

// What is on the left, and on the right.
type Row<'a> = (&'a [Left], &'a [Right]);

// The transducer of these rules.
fn transducer(alloc: Global, rows: &[Row<'_>]) -> Result<Transducer<MinPlus>, AllocError> {
    let rules = rules_of(alloc, rows)?;
    match made(alloc, &["t"], rules)? {
        Some(transducer) => Ok(transducer),
        None => Err(AllocError),
    }
}

// The rules that decide: the first not linear, not nondeleting, extended, labelled.
type Deciding = [Option<u32>; 4];

// Whether these rules decide.
fn are_deciding(t: &Transducer<MinPlus>, want: &Deciding) -> bool {
    not_linear(t) == want[0]
        && not_nondeleting(t) == want[1]
        && extended(t) == want[2]
        && labelled(t) == want[3]
}

// Whether these decide in the transducer of some rules.
fn decide(alloc: Global, rows: &[Row<'_>], want: &Deciding) -> Result<bool, AllocError> {
    Ok(are_deciding(&transducer(alloc, rows)?, want))
}

const A: Left = Left::Label(0, 2);

const X0: Left = Left::Variable(0, None);

const X1: Left = Left::Variable(1, None);

const T_X0: Right = Right::Pair(0, 0);

const T_X1: Right = Right::Pair(0, 1);

static RULES: [Row<'static>; 7] = [
    // t.A(x0: x1:) -> B(t.x1 t.x0)
    (&[A, X0, X1], &[Right::Label(1, 2), T_X1, T_X0]),
    // t.A(x0: x1:) -> B(t.x1 t.x0 t.x1)
    (&[A, X0, X1], &[Right::Label(1, 3), T_X1, T_X0, T_X1]),
    // t.A(x0: x1:) -> B(t.x1)
    (&[A, X0, X1], &[Right::Label(1, 1), T_X1]),
    // t.A(x0: a) -> B(t.x0)
    (&[A, X0, Left::Label(2, 0)], &[Right::Label(1, 1), T_X0]),
    // t.A(x0: x1:a) -> B(t.x1 t.x0)
    (
        &[A, X0, Left::Variable(1, Some(2))],
        &[Right::Label(1, 2), T_X1, T_X0],
    ),
    // all but the first again: t.A(x0: x1:a a) -> B(t.x1 t.x1)
    (
        &[
            Left::Label(0, 3),
            X0,
            Left::Variable(1, Some(2)),
            Left::Label(2, 0),
        ],
        &[Right::Label(1, 2), T_X1, T_X1],
    ),
    // t.A(x0: x1:) -> t.x0
    (&[A, X0, X1], &[T_X0]),
];

fn rules() -> &'static [Row<'static>] {
    &RULES
}

// Whether linear, nondeleting, not extended, not labelled and strict rules are demanded, and the
// first rule outside.
type Demand = ([bool; 5], Option<(u32, ClassFault)>);

static DEMANDS: [Demand; 6] = [
    (
        [true, true, true, true, true],
        Some((2, ClassFault::NotLinear)),
    ),
    (
        [false, true, true, true, true],
        Some((3, ClassFault::NotNondeleting)),
    ),
    (
        [false, false, true, true, true],
        Some((4, ClassFault::Extended)),
    ),
    (
        [false, false, false, true, true],
        Some((5, ClassFault::Labelled)),
    ),
    (
        [false, false, false, false, true],
        Some((7, ClassFault::NotStrict)),
    ),
    ([false, false, false, false, false], None),
];

// Whether the first rule outside of what is demanded is as it is there.
fn is_answered(t: &Transducer<MinPlus>, demand: &Demand) -> bool {
    let (demands, want) = demand;
    first_outside(
        t, demands[0], demands[1], demands[2], demands[3], demands[4],
    ) == *want
}

fn are_answered(t: &Transducer<MinPlus>) -> bool {
    for demand in &DEMANDS {
        if !is_answered(t, demand) {
            return false;
        }
    }
    true
}

// Whether each demand on the rules above is answered so.
fn are_demands_answered(alloc: Global) -> Result<bool, AllocError> {
    Ok(are_answered(&transducer(alloc, rules())?))
}

#[test]
fn the_first_rule_decides(rt: HostRuntime) -> Result<(), Fail> {
    assert!(rt; decide(rt.alloc(), rules(), &[Some(2), Some(3), Some(4), Some(5)])?);
    assert!(rt; are_demands_answered(rt.alloc())?);
    Ok(())
}

// A over 130 variables.
fn many_variables(alloc: Global) -> Result<Vec<Left>, AllocError> {
    let mut left = Vec::new(alloc);
    left.push(Left::Label(0, 130))?;
    for number in 0..130 {
        left.push(Left::Variable(number, None))?;
    }
    Ok(left)
}

// B of a rank over the variables 0 to 128, and some more.
fn many_pairs(alloc: Global, rank: u32, more: &[Right]) -> Result<Vec<Right>, AllocError> {
    let mut right = Vec::new(alloc);
    right.push(Right::Label(1, rank))?;
    for variable in 0..129 {
        right.push(Right::Pair(0, variable))?;
    }
    right.extend_from_slice(more)?;
    Ok(right)
}

// How many pairs are on the right, those after the first 129, and the rules that decide.
type Many = (u32, &'static [Right], Deciding);

static MANY: [Many; 3] = [
    (130, &[Right::Pair(0, 129)], [None, None, None, None]),
    // the variable 64 occurs twice, and then 129 is left out
    (
        131,
        &[Right::Pair(0, 129), Right::Pair(0, 64)],
        [Some(1), None, None, None],
    ),
    (
        131,
        &[Right::Pair(0, 128), Right::Pair(0, 64)],
        [Some(1), Some(1), None, None],
    ),
];

// Whether the rules of the row decide where the left-hand side has 130 variables.
fn is_decided(alloc: Global, row: &Many) -> Result<bool, AllocError> {
    let left = many_variables(alloc)?;
    let right = many_pairs(alloc, row.0, row.1)?;
    decide(alloc, &[(&left, &right)], &row.2)
}

#[test]
fn each_of_many_variables_counts(rt: HostRuntime) -> Result<(), Fail> {
    for row in &MANY {
        assert!(rt; is_decided(rt.alloc(), row)?);
    }
    Ok(())
}

// What is printed of the fault of a rule.
fn words_of(alloc: Global, rule: u32, fault: ClassFault) -> Result<String, AllocError> {
    ClassError::Class { rule, fault }.to_string(alloc)
}

#[test]
fn faults_have_their_words(rt: HostRuntime) -> Result<(), Fail> {
    let words = words_of(rt.alloc(), 3, ClassFault::NotNondeleting)?;
    assert!(rt; words.as_str() == "rule 3: not nondeleting");
    Ok(())
}
