// The matches of sides in a small grammar. The labels are f 0, g 1 and a 2.
ghost use Rattle.std.specs.Prelude.{◌<◌, length};

use crate::grammars::{Row, normal};
use std::alloc::Global;
use tib_cost::{Bottleneck, MOST, MinPlus, Semiring};
use tib_grammar::{Item, Side};
use tib_match::{HoleCost, Match, Within, few_matches, search_matches};
use tib_normal::Normal;
use tib_tree::Label;

// A side in preorder: a label over this many children, or a hole.
type Shape = &'static [Option<(Label, u32)>];

// The states at the holes of a side, and what it costs to match it so.
type Wanted = (&'static [u32], u64);

// A state, a side, and the matches of the side from the state.
type Case = (u32, Shape, &'static [Wanted]);

static RULES: [Row; 8] = [
    (0, 0, &[1, 2], 1),
    (0, 0, &[2, 2], 2),
    (1, 1, &[3], 1),
    (1, 2, &[], 5),
    (2, 1, &[3], 4),
    (2, 2, &[], 2),
    (3, 2, &[], 7),
    (3, 1, &[3], MOST),
];

// f(g(x) a)
const F_G_A: Shape = &[Some((0, 2)), Some((1, 1)), None, Some((2, 0))];

static CASES: [Case; 10] = [
    // x
    (1, &[None], &[(&[1], 0)]),
    // f(x y)
    (
        0,
        &[Some((0, 2)), None, None],
        &[(&[1, 2], 1), (&[2, 2], 2)],
    ),
    // f(g(x) y)
    (
        0,
        &[Some((0, 2)), Some((1, 1)), None, None],
        &[(&[3, 2], 2)],
    ),
    (0, F_G_A, &[(&[3], 4)]),
    // f(a a)
    (0, &[Some((0, 2)), Some((2, 0)), Some((2, 0))], &[(&[], 6)]),
    // a
    (2, &[Some((2, 0))], &[(&[], 2)]),
    (0, &[Some((2, 0))], &[]),
    // g(x)
    (3, &[Some((1, 1)), None], &[(&[3], MOST)]),
    // g(g(x))
    (1, &[Some((1, 1)), Some((1, 1)), None], &[]),
    // the label f over another number of children
    (0, &[Some((0, 1)), None], &[]),
];

fn cases() -> &'static [Case] {
    &CASES
}

fn item(shape: Option<(Label, u32)>) -> Item<u32> {
    match shape {
        Some((label, rank)) => Item::Label { label, rank },
        None => Item::Hole(0),
    }
}

fn side(alloc: Global, shape: &[Option<(Label, u32)>]) -> Option<Side<u32>> {
    let mut items = Vec::new(alloc);
    for part in shape {
        items.push(item(*part)).ok()?;
    }
    if items.len() > 99 {
        return None;
    }
    Side::from_preorder(items).ok()
}

fn is_match(one: &Match, wanted: &Wanted) -> bool {
    let (states, cost) = wanted;
    one.cost.get() == *cost && one.states.as_slice() == *states
}

fn are_matches(matches: &[Match], wanted: &[Wanted]) -> bool {
    if matches.len() != wanted.len() {
        return false;
    }
    for i in 0..matches.len() {
        if !is_match(&matches[i], &wanted[i]) {
            return false;
        }
    }
    true
}

// Whether the matches of a side from a state, read once from the front, are those wanted; false
// where memory is refused.
fn few_agree<S: Semiring>(
    alloc: Global,
    grammar: &Normal<S>,
    state: u32,
    side: &Side<u32>,
    wanted: &[Wanted],
) -> bool
    requires { state < length grammar.now.names }
{
    match few_matches(alloc, grammar, state, side, 1000) {
        Ok(Some(matches)) => are_matches(&matches, wanted),
        _ => false,
    }
}

// A cost of nothing for each hole of a side.
fn free_holes(alloc: Global, side: &Side<u32>) -> Option<Vec<HoleCost>> {
    let mut costs = Vec::new(alloc);
    for item in side.items() {
        if let Item::Hole(_) = item {
            costs.push(HoleCost::Free).ok()?;
        }
    }
    Some(costs)
}

// The same, searched for among boxes, with these costs at the holes.
fn searched_agree(
    alloc: Global,
    grammar: &Normal<MinPlus>,
    state: u32,
    side: &Side<u32>,
    costs: &[HoleCost],
    wanted: &[Wanted],
) -> bool
    requires { state < length grammar.now.names }
{
    match search_matches(alloc, grammar, state, side, MinPlus::one(), costs, 9) {
        Ok(Within::All(matches)) => are_matches(&matches, wanted),
        _ => false,
    }
}

// The same, where holes cost nothing.
fn free_agree(
    alloc: Global,
    grammar: &Normal<MinPlus>,
    state: u32,
    side: &Side<u32>,
    wanted: &[Wanted],
) -> bool
    requires { state < length grammar.now.names }
{
    match free_holes(alloc, side) {
        Some(costs) => searched_agree(alloc, grammar, state, side, &costs, wanted),
        None => false,
    }
}

// Whether both ways answer a case.
fn both_agree(alloc: Global, grammar: &Normal<MinPlus>, side: &Side<u32>, case: &Case) -> bool {
    let (state, _, wanted) = case;
    if *state >= grammar.grammar().states() {
        return false;
    }
    let few = few_agree(alloc, grammar, *state, side, wanted);
    few && free_agree(alloc, grammar, *state, side, wanted)
}

// The same for the side of the case; false where memory is refused.
fn side_agrees(alloc: Global, grammar: &Normal<MinPlus>, case: &Case) -> bool {
    match side(alloc, case.1) {
        Some(side) => both_agree(alloc, grammar, &side, case),
        None => false,
    }
}

// The same in the grammar above.
fn agrees(alloc: Global, case: &Case) -> bool {
    match normal(alloc, &RULES) {
        Some(grammar) => side_agrees(alloc, &grammar, case),
        None => false,
    }
}

// Whether a side has one match from the state 0, with the state 3 at its hole, at the cost 2.
fn costs_two<S: Semiring>(alloc: Global, grammar: &Normal<S>, side: &Side<u32>) -> bool {
    if grammar.grammar().states() == 0 {
        return false;
    }
    few_agree(alloc, grammar, 0, side, &[(&[3], 2)])
}

// The same for f(g(x) a); false where memory is refused.
fn side_costs_two<S: Semiring>(alloc: Global, grammar: &Normal<S>) -> bool {
    match side(alloc, F_G_A) {
        Some(side) => costs_two(alloc, grammar, &side),
        None => false,
    }
}

// The same in the grammar above, where the cost of a product is the greatest of its costs.
fn greatest_is_two(alloc: Global) -> bool {
    match normal::<Bottleneck>(alloc, &RULES) {
        Some(grammar) => side_costs_two(alloc, &grammar),
        None => false,
    }
}

#[test]
fn each_list_of_states_has_its_least_cost(rt: HostRuntime) {
    for case in cases() {
        assert!(rt; agrees(rt.alloc(), case));
    }
}

#[test]
fn a_product_is_that_of_the_semiring(rt: HostRuntime) {
    assert!(rt; greatest_is_two(rt.alloc()));
}
