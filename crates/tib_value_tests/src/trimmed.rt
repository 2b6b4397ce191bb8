// The rules of small grammars that are in complete runs, and what the cheapest of these runs cost.
use crate::rules::{
    LABEL_A0, LABEL_B0, LABEL_F2, LABEL_G1, Row, are_of_rows, grammar_of, make_grammar, wide_rules,
};
use std::alloc::Global;
use tib_cost::{Boolean, Bottleneck, MOST, MinPlus, Semiring, Widest};
use tib_grammar::Grammar;
use tib_trim::{through_costs, trimmed};

// How many states there are, the rules, how many states are left, the rules that are, and these at
// their through costs.
type Case = (u8, &'static [Row], u32, &'static [Row], &'static [Row]);

// q -> g(p) # MOST, p -> a # 0, p -> b # 1
const TWO_AT_THE_TOP: &[Row] = &[
    (0, &[LABEL_G1, (1, None)], MOST),
    (1, &[LABEL_A0], 0),
    (1, &[LABEL_B0], 1),
];

const ONE_LEFT: &[Row] = &[(0, &[LABEL_G1, (1, None)], MOST), (1, &[LABEL_A0], 0)];

const AT_THE_TOP: &[Row] = &[(0, &[LABEL_G1, (1, None)], MOST), (1, &[LABEL_A0], MOST)];

const BOTH_AT_THE_TOP: &[Row] = &[
    (0, &[LABEL_G1, (1, None)], MOST),
    (1, &[LABEL_A0], MOST),
    (1, &[LABEL_B0], MOST),
];

// A state that is used before it is on the left, one that no run reaches, one without a run, sides
// of several labels, a chain rule, and equal rules.
const UNTIDY: &[Row] = &[
    (2, &[LABEL_A0], 1),
    (3, &[LABEL_G1, (3, None)], 0),
    (1, &[(2, None)], 2),
    (0, &[LABEL_F2, LABEL_G1, (1, None), LABEL_A0], 3),
    (0, &[LABEL_F2, (3, None), (1, None)], 0),
    (2, &[LABEL_B0], 4),
    (2, &[LABEL_A0], 1),
];

// The start, then the states 2 and 1, in the order of the left sides.
const TIDY: &[Row] = &[
    (1, &[LABEL_A0], 1),
    (2, &[(1, None)], 2),
    (0, &[LABEL_F2, LABEL_G1, (2, None), LABEL_A0], 3),
    (1, &[LABEL_B0], 4),
    (1, &[LABEL_A0], 1),
];

const TIDY_THROUGH: &[Row] = &[
    (1, &[LABEL_A0], 6),
    (2, &[(1, None)], 6),
    (0, &[LABEL_F2, LABEL_G1, (2, None), LABEL_A0], 6),
    (1, &[LABEL_B0], 9),
    (1, &[LABEL_A0], 6),
];

const TIDY_GREATEST: &[Row] = &[
    (1, &[LABEL_A0], 3),
    (2, &[(1, None)], 3),
    (0, &[LABEL_F2, LABEL_G1, (2, None), LABEL_A0], 3),
    (1, &[LABEL_B0], 4),
    (1, &[LABEL_A0], 3),
];

// The start has no run.
const ENDLESS: &[Row] = &[(0, &[LABEL_G1, (0, None)], 0), (1, &[LABEL_A0], 0)];

// Where costs are added.
static SUMS: [Case; 3] = [
    (2, TWO_AT_THE_TOP, 2, ONE_LEFT, AT_THE_TOP),
    (4, UNTIDY, 3, TIDY, TIDY_THROUGH),
    (2, ENDLESS, 1, &[], &[]),
];

// Where the greatest cost counts. In widest a cost is the greatest cost less the weight.
static GREATEST: [Case; 3] = [
    (2, TWO_AT_THE_TOP, 2, TWO_AT_THE_TOP, BOTH_AT_THE_TOP),
    (4, UNTIDY, 3, TIDY, TIDY_GREATEST),
    (2, ENDLESS, 1, &[], &[]),
];

// Whether a grammar has this many states, and these rules.
fn is_of<S>(grammar: &Grammar<S>, states: u32, rows: &[Row]) -> bool {
    grammar.states() == states && are_of_rows(grammar.rule_list(), rows)
}

fn is_trimmed<S: Semiring + Drop>(alloc: Global, case: &Case) -> bool {
    let Some(grammar) = make_grammar::<S>(alloc, case.0, case.1) else {
        return false;
    };
    match trimmed::<S>(alloc, grammar) {
        Ok(trimmed) => is_of(&trimmed, case.2, case.3),
        Err(_) => false,
    }
}

fn has_through_costs<S: Semiring + Drop>(alloc: Global, case: &Case) -> bool {
    let Some(grammar) = make_grammar::<S>(alloc, case.0, case.1) else {
        return false;
    };
    match through_costs::<S>(alloc, grammar) {
        Ok(through) => is_of(&through, case.2, case.4),
        Err(_) => false,
    }
}

fn is_answered<S: Semiring + Drop>(alloc: Global, case: &Case) -> bool {
    is_trimmed::<S>(alloc, case) && has_through_costs::<S>(alloc, case)
}

#[test]
fn rules_in_complete_runs_stay_where_costs_are_added(rt: HostRuntime) {
    for case in &SUMS {
        assert!(rt; is_answered::<MinPlus>(rt.alloc(), case));
    }
}

#[test]
fn rules_in_complete_runs_stay_where_the_greatest_cost_counts(rt: HostRuntime) {
    for case in &GREATEST {
        assert!(rt; is_answered::<Bottleneck>(rt.alloc(), case));
        assert!(rt; is_answered::<Widest>(rt.alloc(), case));
    }
}

// All costs are 0.
const UNWEIGHTED: &[Row] = &[(0, &[(1, None)], 0), (1, &[LABEL_A0], 0)];

static ANY: Case = (3, UNWEIGHTED, 2, UNWEIGHTED, UNWEIGHTED);

#[test]
fn rules_in_complete_runs_stay_in_boolean(rt: HostRuntime) {
    assert!(rt; is_answered::<Boolean>(rt.alloc(), &ANY));
}

// How many rules are left of this number, which all cost nothing.
fn count_kept(alloc: Global, labels: u32) -> Option<u32> {
    let grammar = grammar_of::<MinPlus>(alloc, 1, wide_rules(alloc, labels)?)?;
    Some(trimmed::<MinPlus>(alloc, grammar).ok()?.rules())
}

#[test]
fn more_rules_than_16_bits_count_are_in_complete_runs(rt: HostRuntime) {
    assert!(rt; count_kept(rt.alloc(), 70_000) == Some(70_000));
}
