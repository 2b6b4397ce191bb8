// Outside costs and pruned grammars of small grammars.
use crate::normals::{Row, are_of_rows, have_numbers, make_normal, normal_of, wide_rules};
use std::alloc::Global;
use std::test::Fail;
use tib_cost::{Bottleneck, Cost, MOST, MinPlus, Semiring};
use tib_grammar::Grammar;
use tib_normal::Normal;
use tib_prune::{outside, prune, prune_to_count, trim_with_insides};

/// Whether the outside costs of a grammar have these numbers.
fn has_outsides<S: Semiring + Drop>(
    alloc: Global,
    normal: &Normal<S>,
    numbers: &[Option<u64>],
) -> Result<bool, Fail> {
    let costs = outside::<S>(alloc, normal)?;
    Ok(have_numbers(&costs, numbers))
}

/// Whether the outside costs of some rules over this number of states have these numbers.
fn rows_have_outsides<S: Semiring + Drop>(
    alloc: Global,
    states: u8,
    rows: &[Row],
    numbers: &[Option<u64>],
) -> Result<bool, Fail> {
    let normal = make_normal::<S>(alloc, states, rows)?;
    has_outsides::<S>(alloc, &normal, numbers)
}

/// Whether a grammar has this number of states, and these rules.
fn is_of(grammar: &Grammar<MinPlus>, states: u32, rows: &[Row]) -> bool {
    grammar.states() == states && are_of_rows(grammar.rule_list(), rows)
}

fn beam_of(beam: u64) -> Result<Cost, Fail> {
    match Cost::new(beam) {
        Some(beam) => Ok(beam),
        None => Err("not a cost".into()),
    }
}

/// The pruned grammar of some rules over this number of states.
fn pruned_of(alloc: Global, states: u8, rows: &[Row], beam: u64) -> Result<Normal<MinPlus>, Fail> {
    let beam = beam_of(beam)?;
    let normal = make_normal::<MinPlus>(alloc, states, rows)?;
    Ok(prune::<MinPlus>(alloc, normal, beam)?)
}

/// The least pruned grammar of some rules over this number of states that keeps at least this many,
/// and its beam.
fn pruned_to(
    alloc: Global,
    states: u8,
    rows: &[Row],
    count: usize,
) -> Result<(Grammar<MinPlus>, Cost), Fail> {
    let normal = make_normal::<MinPlus>(alloc, states, rows)?;
    let (trimmed, insides) = trim_with_insides::<MinPlus>(alloc, normal)?;
    Ok(prune_to_count::<MinPlus>(alloc, trimmed, &insides, count)?)
}

/// The trimmed grammar of some rules over this number of states, and the inside costs of its
/// states.
fn trimmed_of(
    alloc: Global,
    states: u8,
    rows: &[Row],
) -> Result<(Normal<MinPlus>, Vec<Option<Cost>>), Fail> {
    let normal = make_normal::<MinPlus>(alloc, states, rows)?;
    Ok(trim_with_insides::<MinPlus>(alloc, normal)?)
}

// 0 -> f(1) # 1, 0 -> g(2) # 3, 1 -> a # 2, 2 -> a # 1
const TWO_WAYS: [Row; 4] = [
    (0, 0, &[1], 1),
    (0, 1, &[2], 3),
    (1, 2, &[], 2),
    (2, 2, &[], 1),
];

// 0 -> f(0 0) # 1, 0 -> a # 2
const BRANCHING: [Row; 2] = [(0, 0, &[0, 0], 1), (0, 1, &[], 2)];

// Each of three states by the other two.
const WIDE: [Row; 4] = [
    (0, 0, &[1, 2, 3], 0),
    (1, 1, &[], 1),
    (2, 1, &[], 4),
    (3, 1, &[], 2),
];

// State 3 has no run, so there is no context around the two beside it.
const USELESS: [Row; 4] = [
    (0, 0, &[1, 2, 3], 0),
    (1, 1, &[], 1),
    (2, 1, &[], 4),
    (3, 2, &[3], 0),
];

// The cheaper of two ways, which is found later; and costs above the greatest.
const LATER: [Row; 5] = [
    (0, 0, &[1], 5),
    (0, 1, &[2], 1),
    (1, 2, &[], 0),
    (2, 0, &[1], 1),
    (2, 3, &[3], MOST),
];

// How many states there are, the rules, and the outside costs where costs are added.
static OUTSIDES: [(u8, &[Row], &[Option<u64>]); 5] = [
    (3, &TWO_WAYS, &[Some(0), Some(1), Some(3)]),
    (1, &BRANCHING, &[Some(0)]),
    (4, &WIDE, &[Some(0), Some(6), Some(3), Some(5)]),
    (4, &USELESS, &[Some(0), None, None, Some(5)]),
    (4, &LATER, &[Some(0), Some(2), Some(1), None]),
];

static GREATEST: [Option<u64>; 4] = [Some(0), Some(4), Some(2), Some(4)];

#[test]
fn outside_costs_are_as_worked_out(rt: HostRuntime) -> Result<(), Fail> {
    for (states, rows, numbers) in &OUTSIDES {
        assert!(rt; rows_have_outsides::<MinPlus>(rt.alloc(), *states, *rows, *numbers)?);
    }
    assert!(rt; rows_have_outsides::<Bottleneck>(rt.alloc(), 4, &WIDE, &GREATEST)?);
    Ok(())
}

// Without a run nothing is within any beam.
const ENDLESS: [Row; 2] = [(0, 0, &[0], 0), (1, 1, &[], 0)];

// The cheaper of the two ways.
const ONE_WAY: [Row; 2] = [(0, 0, &[1], 1), (1, 2, &[], 2)];

const LEAF: [Row; 1] = [(0, 1, &[], 2)];

// How many states there are, the rules, the beam, and the rules within it, over as many states.
static PRUNED: [(u8, &[Row], u64, &[Row]); 5] = [
    (3, &TWO_WAYS, 0, &ONE_WAY),
    (3, &TWO_WAYS, 1, &TWO_WAYS),
    (1, &BRANCHING, 2, &LEAF),
    (1, &BRANCHING, 3, &BRANCHING),
    (2, &ENDLESS, MOST, &[]),
];

#[test]
fn rules_beyond_the_beam_are_left_out(rt: HostRuntime) -> Result<(), Fail> {
    for (states, rows, beam, kept) in &PRUNED {
        let pruned = pruned_of(rt.alloc(), *states, *rows, *beam)?;
        assert!(rt; is_of(pruned.grammar(), u32::from(*states), *kept));
    }
    Ok(())
}

// How many states there are, the rules, how many are to stay, those that stay, and the beam. The
// last row asks for more rules than there are.
static PRUNED_TO: [(u8, &[Row], usize, &[Row], u64); 6] = [
    (3, &TWO_WAYS, 0, &ONE_WAY, 0),
    (3, &TWO_WAYS, 2, &ONE_WAY, 0),
    (3, &TWO_WAYS, 3, &TWO_WAYS, 1),
    (1, &BRANCHING, 1, &LEAF, 0),
    (1, &BRANCHING, 2, &BRANCHING, 3),
    (1, &BRANCHING, 9, &BRANCHING, 3),
];

#[test]
fn at_least_so_many_rules_stay(rt: HostRuntime) -> Result<(), Fail> {
    for (states, rows, count, kept, beam) in &PRUNED_TO {
        let (pruned, least) = pruned_to(rt.alloc(), *states, *rows, *count)?;
        assert!(rt; is_of(&pruned, u32::from(*states), *kept));
        assert!(rt; least.get() == *beam);
    }
    Ok(())
}

// A pass over the rules does not lead to each state.
const ROUND: [Row; 4] = [
    (0, 0, &[2], 1),
    (1, 0, &[3], 2),
    (2, 0, &[1], 3),
    (3, 1, &[], 4),
];

// No rule leads to a state.
const APART: [Row; 2] = [(0, 0, &[], 1), (1, 0, &[], 2)];

// A rule costs too much.
const TOO_DEAR: [Row; 3] = [(0, 0, &[1], MOST), (0, 1, &[], 1), (1, 1, &[], 1)];

const APART_KEPT: [Row; 1] = [(0, 0, &[], 1)];

const TOO_DEAR_KEPT: [Row; 1] = [(0, 1, &[], 1)];

// How many states there are, the rules, and what is left of them: states, rules, and inside costs.
// What is trimmed: nothing, where a pass over the rules leads to each state or not; a state that no
// rule leads to; and a rule that costs too much, with its state.
static TRIMMED: [(u8, &[Row], u32, &[Row], &[Option<u64>]); 4] = [
    (3, &TWO_WAYS, 3, &TWO_WAYS, &[Some(3), Some(2), Some(1)]),
    (4, &ROUND, 4, &ROUND, &[Some(10), Some(6), Some(9), Some(4)]),
    (2, &APART, 1, &APART_KEPT, &[Some(1)]),
    (2, &TOO_DEAR, 1, &TOO_DEAR_KEPT, &[Some(1)]),
];

#[test]
fn grammars_are_trimmed_where_there_is_anything_to_trim(rt: HostRuntime) -> Result<(), Fail> {
    for (states, rows, left, kept, numbers) in &TRIMMED {
        let (trimmed, insides) = trimmed_of(rt.alloc(), *states, *rows)?;
        assert!(rt; is_of(trimmed.grammar(), *left, *kept));
        assert!(rt; have_numbers(&insides, *numbers));
    }
    Ok(())
}

// How many rules are left of this number, which all cost nothing.
fn count_within(alloc: Global, labels: u32) -> Result<u32, Fail> {
    let rules = wide_rules(alloc, labels)?;
    let normal = normal_of::<MinPlus>(alloc, 1, rules)?;
    let pruned = prune::<MinPlus>(alloc, normal, MinPlus::one())?;
    Ok(pruned.grammar().rules())
}

#[test]
fn more_rules_than_16_bits_count_are_pruned(rt: HostRuntime) -> Result<(), Fail> {
    assert!(rt; count_within(rt.alloc(), 70_000)? == 70_000);
    Ok(())
}
