// Small transducers, as written in comments: a label is a number here, 0 for A, 1 for B and 2 for
// a. Where what a maker is given makes nothing, it returns what it does where memory is refused, so
// the test fails.
use std::alloc::{AllocError, Global};
use std::test::Fail;
use tib_cost::{MinPlus, Semiring};
use tib_grammar::{Item, Names, Side};
use tib_transducer::*;
use tib_tree::Label;

/// An item of a left-hand side: a label with its rank, or a variable with the label that it asks
/// for.
#[derive(Clone, Copy)]
pub(crate) enum Left {
    Label(Label, u32),
    Variable(u32, Option<Label>),
}

/// An item of a right-hand side: a label with its rank, or a state and a variable.
#[derive(Clone, Copy)]
pub(crate) enum Right {
    Label(Label, u32),
    Pair(u32, u32),
}

// The texts of names.
fn texts_of(alloc: Global, names: &[&str]) -> Result<Vec<Vec<u8>>, AllocError> {
    let mut texts = Vec::new(alloc);
    for name in names {
        texts.push(name.as_bytes().to_vec(alloc)?)?;
    }
    Ok(texts)
}

/// The states with these names.
pub(crate) fn names_of(alloc: Global, names: &[&str]) -> Result<Names, AllocError> {
    let texts = texts_of(alloc, names)?;
    if texts.len() > 1000 {
        return Err(AllocError);
    }
    match Names::from_list(alloc, texts)? {
        Some(names) => Ok(names),
        None => Err(AllocError),
    }
}

// The side of these items.
fn side_of<P: Drop>(items: Vec<Item<P>>) -> Result<Side<P>, AllocError> {
    if items.len() > 2000 {
        return Err(AllocError);
    }
    match Side::from_preorder(items) {
        Ok(side) => Ok(side),
        Err(_) => Err(AllocError),
    }
}

fn left_item(item: Left) -> Item<Variable> {
    match item {
        Left::Label(label, rank) => Item::Label { label, rank },
        Left::Variable(number, label) => Item::Hole(Variable { number, label }),
    }
}

fn left_items(alloc: Global, left: &[Left]) -> Result<Vec<Item<Variable>>, AllocError> {
    let mut items = Vec::new(alloc);
    for item in left {
        items.push(left_item(*item))?;
    }
    Ok(items)
}

/// The left-hand side of these items.
pub(crate) fn left_side(alloc: Global, left: &[Left]) -> Result<Side<Variable>, AllocError> {
    let items = left_items(alloc, left)?;
    side_of(items)
}

fn right_item(item: Right) -> Item<Pair<u32>> {
    match item {
        Right::Label(label, rank) => Item::Label { label, rank },
        Right::Pair(state, variable) => Item::Hole(Pair { state, variable }),
    }
}

fn right_items(alloc: Global, right: &[Right]) -> Result<Vec<Item<Pair<u32>>>, AllocError> {
    let mut items = Vec::new(alloc);
    for item in right {
        items.push(right_item(*item))?;
    }
    Ok(items)
}

// A rule of a state that costs nothing.
fn rule_of(
    alloc: Global,
    state: u32,
    left: &[Left],
    right: &[Right],
) -> Result<TransducerRule<u32>, AllocError> {
    let left = left_side(alloc, left)?;
    let right = side_of(right_items(alloc, right)?)?;
    Ok(TransducerRule {
        state,
        left,
        right,
        cost: MinPlus::one(),
    })
}

/// The rules of the state 0 with these left-hand and right-hand sides.
pub(crate) fn rules_of(
    alloc: Global,
    sides: &[(&[Left], &[Right])],
) -> Result<Vec<TransducerRule<u32>>, AllocError> {
    let mut rules = Vec::new(alloc);
    for (left, right) in sides {
        rules.push(rule_of(alloc, 0, left, right)?)?;
    }
    Ok(rules)
}

/// The transducer of these rules, where they make one.
pub(crate) fn made(
    alloc: Global,
    names: &[&str],
    rules: Vec<TransducerRule<u32>>,
) -> Result<Option<Transducer<MinPlus>>, AllocError> {
    if rules.len() > 100_000 {
        return Err(AllocError);
    }
    let names = names_of(alloc, names)?;
    Ok(Transducer::new(names, rules))
}

// t.A(x0:a x1:) -> B(t.x1 p.x0)
const LEFT: [Left; 3] = [
    Left::Label(0, 2),
    Left::Variable(0, Some(2)),
    Left::Variable(1, None),
];

const RIGHT: [Right; 3] = [Right::Label(1, 2), Right::Pair(0, 1), Right::Pair(1, 0)];

// The transducer of one rule of the state 0, where it makes one.
fn of_one_rule(
    alloc: Global,
    names: &[&str],
    left: &[Left],
    right: &[Right],
) -> Result<Option<Transducer<MinPlus>>, AllocError> {
    made(alloc, names, rules_of(alloc, &[(left, right)])?)
}

// A transducer with this many rules, the first 65,536 of them of its start.
fn of_many_rules(alloc: Global, count: u32) -> Result<Transducer<MinPlus>, AllocError> {
    let mut rules = Vec::new(alloc);
    for place in 0..count {
        rules.push(rule_of(alloc, place / 65_536, &LEFT, &RIGHT)?)?;
    }
    match made(alloc, &["t", "p"], rules)? {
        Some(transducer) => Ok(transducer),
        None => Err(AllocError),
    }
}

// How many states, rules and names it has, and how many rules its list.
fn counts_of(transducer: &Transducer<MinPlus>) -> (u32, u32, u32, usize) {
    (
        transducer.states(),
        transducer.rules(),
        transducer.names().len(),
        transducer.rule_list().len(),
    )
}

fn is_name(transducer: &Transducer<MinPlus>, state: u32, name: &[u8]) -> bool {
    state < transducer.states() && transducer.name(state) == name
}

// Whether this is the state of a rule, whose left-hand side has three items.
fn is_rule_of(transducer: &Transducer<MinPlus>, number: u32, state: u32) -> bool {
    if number == 0 || number > transducer.rules() {
        return false;
    }
    let rule = transducer.rule(number);
    rule.state == state && rule.left.items().len() == 3
}

// How many names and rules it is taken apart into.
fn counts_apart(transducer: Transducer<MinPlus>) -> (u32, usize) {
    let (names, rules) = transducer.into_parts();
    (names.len(), rules.len())
}

// Whether a transducer of one rule gives its parts.
fn has_parts(transducer: &Transducer<MinPlus>) -> bool {
    counts_of(transducer) == (2, 1, 2, 1)
        && is_name(transducer, 1, b"p")
        && is_rule_of(transducer, 1, 0)
}

// The same for the transducer of the one rule above, and how many names and rules it is taken apart
// into.
fn parts_of_one(alloc: Global) -> Result<(bool, (u32, usize)), AllocError> {
    match of_one_rule(alloc, &["t", "p"], &LEFT, &RIGHT)? {
        Some(transducer) => Ok((has_parts(&transducer), counts_apart(transducer))),
        None => Err(AllocError),
    }
}

#[test]
fn a_transducer_gives_its_parts(rt: HostRuntime) -> Result<(), Fail> {
    assert!(rt; parts_of_one(rt.alloc())? == (true, (2, 1)));
    Ok(())
}

// The names of the states, the two sides of a rule, and whether they make a transducer.
type Row = (
    &'static [&'static str],
    &'static [Left],
    &'static [Right],
    bool,
);

static ROWS: [Row; 7] = [
    // p has no name
    (&["t"], &LEFT, &RIGHT, false),
    // there is no name
    (&[], &LEFT, &[Right::Label(2, 0)], false),
    // t.x0: -> t.x0
    (
        &["t"],
        &[Left::Variable(0, None)],
        &[Right::Pair(0, 0)],
        false,
    ),
    // t.A(x1: x0:) -> t.x0
    (
        &["t"],
        &[
            Left::Label(0, 2),
            Left::Variable(1, None),
            Left::Variable(0, None),
        ],
        &[Right::Pair(0, 0)],
        false,
    ),
    // t.A(x0: x0:) -> t.x0
    (
        &["t"],
        &[
            Left::Label(0, 2),
            Left::Variable(0, None),
            Left::Variable(0, None),
        ],
        &[Right::Pair(0, 0)],
        false,
    ),
    // t.A(x0:a x1:) -> t.x2, and with t.x1 in its place
    (&["t"], &LEFT, &[Right::Pair(0, 2)], false),
    (&["t"], &LEFT, &[Right::Pair(0, 1)], true),
];

fn rows() -> &'static [Row] {
    &ROWS
}

// Whether a rule makes a transducer.
fn makes_one(alloc: Global, row: &Row) -> Result<bool, AllocError> {
    Ok(of_one_rule(alloc, row.0, row.1, row.2)?.is_some())
}

#[test]
fn rules_without_their_shape_make_no_transducer(rt: HostRuntime) -> Result<(), Fail> {
    for row in rows() {
        assert!(rt; makes_one(rt.alloc(), row)? == row.3);
    }
    Ok(())
}

// Whether the rules of a transducer of 65,537 rules are found by their numbers.
fn are_many_found(transducer: &Transducer<MinPlus>) -> bool {
    transducer.rules() == 65_537
        && is_rule_of(transducer, 65_536, 0)
        && is_rule_of(transducer, 65_537, 1)
}

// The same for the transducer above.
fn is_last_found(alloc: Global) -> Result<bool, AllocError> {
    Ok(are_many_found(&of_many_rules(alloc, 65_537)?))
}

#[test]
fn a_rule_past_65536_is_found(rt: HostRuntime) -> Result<(), Fail> {
    assert!(rt; is_last_found(rt.alloc())?);
    Ok(())
}
