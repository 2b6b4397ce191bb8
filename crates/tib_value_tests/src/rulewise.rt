// The derivations of a small grammar, and inverses of small transducers. A label is a number here.
use crate::rules::{LABEL_A0, LABEL_F2, LABEL_G1, Row, make_grammar};
use crate::transducer::{Left, Right, made, rules_of};
use std::alloc::{AllocError, Global};
use std::test::Fail;
use tib_cost::{MinPlus, Semiring};
use tib_rulewise::{derivations, inverse};
use tib_transducer::{Transducer, TransducerRule, first_outside};
use tib_tree::Labels;

// The two sides of a rule.
type Sides<'a> = (&'a [Left], &'a [Right]);

const X0: Left = Left::Variable(0, None);

const X1: Left = Left::Variable(1, None);

const X2: Left = Left::Variable(2, None);

// q -> f(g(q) q), q -> q, q -> a
const THREE: &[Row] = &[
    (0, &[LABEL_F2, LABEL_G1, (0, None), (0, None)], 0),
    (0, &[(0, None)], 0),
    (0, &[LABEL_A0], 0),
];

// The labels r1, r2 and r3 are the first three of a table without texts, and the right sides keep
// the labels of the grammar.
static DERIVED: [Sides<'static>; 3] = [
    (
        &[Left::Label(0, 2), X0, X1],
        &[
            Right::Label(0, 2),
            Right::Label(1, 1),
            Right::Pair(0, 0),
            Right::Pair(0, 1),
        ],
    ),
    (&[Left::Label(1, 1), X0], &[Right::Pair(0, 0)]),
    (&[Left::Label(2, 0)], &[Right::Label(2, 0)]),
];

fn is_same(rule: &TransducerRule<u32>, other: &TransducerRule<u32>) -> bool {
    rule.left.items() == other.left.items() && rule.right.items() == other.right.items()
}

fn are_same(rules: &[TransducerRule<u32>], others: &[TransducerRule<u32>]) -> bool {
    if rules.len() != others.len() {
        return false;
    }
    for i in 0..rules.len() {
        if !is_same(&rules[i], &others[i]) {
            return false;
        }
    }
    true
}

// Whether the rules of a transducer have these sides.
fn has_sides<S: Semiring>(
    alloc: Global,
    transducer: &Transducer<S>,
    sides: &[Sides<'_>],
) -> Result<bool, AllocError> {
    let wanted = rules_of(alloc, sides)?;
    Ok(are_same(transducer.rule_list(), &wanted))
}

// How many labels the derivations of three rules put into a table without texts, where these rules
// have the sides above.
fn count_derived<S: Semiring + Drop>(alloc: Global) -> Result<Option<usize>, AllocError> {
    let Some(grammar) = make_grammar::<S>(alloc, 1, THREE) else {
        return Err(AllocError);
    };
    let mut labels = Labels::new(alloc);
    let transducer = derivations::<S>(alloc, grammar, &mut labels)?;
    if !has_sides(alloc, &transducer, &DERIVED)? {
        return Ok(None);
    }
    Ok(Some(labels.len()))
}

#[test]
fn each_rule_has_a_label_of_its_own(rt: HostRuntime) -> Result<(), Fail> {
    assert!(rt; count_derived::<MinPlus>(rt.alloc())? == Some(3));
    Ok(())
}

// t.A(B(x0:) x1: x2:) -> C(t.x2 D(t.x0 e) t.x1), and its inverse.
static CROSSING: [Sides<'static>; 1] = [(
    &[Left::Label(0, 3), Left::Label(1, 1), X0, X1, X2],
    &[
        Right::Label(2, 3),
        Right::Pair(0, 2),
        Right::Label(3, 2),
        Right::Pair(0, 0),
        Right::Label(4, 0),
        Right::Pair(0, 1),
    ],
)];

static CROSSED: [Sides<'static>; 1] = [(
    &[
        Left::Label(2, 3),
        X0,
        Left::Label(3, 2),
        X1,
        Left::Label(4, 0),
        X2,
    ],
    &[
        Right::Label(0, 3),
        Right::Label(1, 1),
        Right::Pair(0, 1),
        Right::Pair(0, 2),
        Right::Pair(0, 0),
    ],
)];

// t.A(x0:) -> t.x0
static LONE: [Sides<'static>; 1] = [(&[Left::Label(0, 1), X0], &[Right::Pair(0, 0)])];

// The inverse of a transducer; none where a rule has none.
fn inverse_of(
    alloc: Global,
    transducer: Transducer<MinPlus>,
) -> Result<Option<Transducer<MinPlus>>, AllocError> {
    match first_outside(&transducer, true, true, false, true, true) {
        None => Ok(Some(inverse::<MinPlus>(alloc, transducer)?)),
        Some(_) => Ok(None),
    }
}

// Whether the inverse of the transducer of these sides has those; none where a rule has none.
fn is_turned(
    alloc: Global,
    sides: &[Sides<'_>],
    turned: &[Sides<'_>],
) -> Result<Option<bool>, AllocError> {
    let Some(transducer) = made(alloc, &["t"], rules_of(alloc, sides)?)? else {
        return Err(AllocError);
    };
    match inverse_of(alloc, transducer)? {
        Some(inverse) => Ok(Some(has_sides(alloc, &inverse, turned)?)),
        None => Ok(None),
    }
}

#[test]
fn the_sides_of_a_rule_change_their_places(rt: HostRuntime) -> Result<(), Fail> {
    assert!(rt; is_turned(rt.alloc(), &CROSSING, &CROSSED)? == Some(true));
    assert!(rt; is_turned(rt.alloc(), &CROSSED, &CROSSING)? == Some(true));
    assert!(rt; is_turned(rt.alloc(), &LONE, &LONE)? == None);
    Ok(())
}
