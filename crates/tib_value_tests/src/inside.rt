// Inside costs and trimmed grammars of small grammars.
use crate::rules::{
    LABEL_A0, LABEL_B0, LABEL_F2, LABEL_G1, Row, are_of_rows, grammar_of, have_numbers,
    make_grammar, make_normal, wide_rules,
};
use std::alloc::Global;
use tib_cost::{Boolean, Bottleneck, MOST, MinPlus, Semiring};
use tib_grammar::Grammar;
use tib_inside::{inside, trim, trim_normal, trim_rules};

/// Whether the inside costs of a grammar have these numbers.
fn are_insides<S: Semiring>(alloc: Global, grammar: &Grammar<S>, numbers: &[Option<u64>]) -> bool {
    match inside::<S>(alloc, grammar) {
        Ok(costs) => have_numbers(&costs, numbers),
        Err(_) => false,
    }
}

/// The same for the grammar of a row.
fn has_insides<S: Semiring + Drop>(alloc: Global, row: &Inside) -> bool {
    match make_grammar::<S>(alloc, row.0, row.1) {
        Some(grammar) => are_insides(alloc, &grammar, row.2),
        None => false,
    }
}

/// Whether the names of a grammar's states have these lengths.
fn has_names(grammar: &Grammar<MinPlus>, lengths: &[usize]) -> bool {
    for state in 0..grammar.states() {
        if lengths.get(state as usize).copied() != Some(grammar.name(state).len()) {
            return false;
        }
    }
    grammar.states() as usize == lengths.len()
}

/// Whether a grammar has names of these lengths, and these rules.
fn is_of(grammar: &Grammar<MinPlus>, lengths: &[usize], rows: &[Row]) -> bool {
    has_names(grammar, lengths) && are_of_rows(grammar.rule_list(), rows)
}

/// The trimmed grammar of some rules over this number of states.
fn trimmed(alloc: Global, states: u8, rows: &[Row]) -> Option<Grammar<MinPlus>> {
    trim::<MinPlus>(alloc, make_grammar::<MinPlus>(alloc, states, rows)?).ok()
}

/// Whether trimming the rules of a row leaves the names and rules of the row.
fn is_trimmed(alloc: Global, row: &Trimmed) -> bool {
    match trimmed(alloc, row.0, row.1) {
        Some(grammar) => is_of(&grammar, row.2, row.3),
        None => false,
    }
}

/// The same for rules in normal form.
fn is_normal_trimmed(alloc: Global, row: &Trimmed) -> bool {
    let Some(normal) = make_normal::<MinPlus>(alloc, row.0, row.1) else {
        return false;
    };
    match trim_normal::<MinPlus>(alloc, normal) {
        Ok(trimmed) => is_of(trimmed.grammar(), row.2, row.3),
        Err(_) => false,
    }
}

/// Whether trimming the rules of a grammar without its names leaves these states and rules.
fn are_rules_trimmed_to(
    alloc: Global,
    grammar: Grammar<MinPlus>,
    states: &[u32],
    kept: &[Row],
) -> bool {
    grammar.is_sound();
    let count = grammar.states();
    let (_, rules) = grammar.into_parts();
    match trim_rules::<MinPlus>(alloc, rules, count) {
        Ok(trimmed) => trimmed.states.as_slice() == states && are_of_rows(&trimmed.rules, kept),
        Err(_) => false,
    }
}

fn are_useless_rules_trimmed(alloc: Global) -> bool {
    match make_grammar::<MinPlus>(alloc, 4, USELESS) {
        Some(grammar) => are_rules_trimmed_to(alloc, grammar, &[0, 3], USELESS_KEPT),
        None => false,
    }
}

// q -> A(r s) # 0, r -> b # 1, s -> c # 4, s -> d # 2, u -> B(u) # 0
const WORKED: &[Row] = &[
    (0, &[LABEL_F2, (1, None), (2, None)], 0),
    (1, &[LABEL_A0], 1),
    (2, &[LABEL_A0], 4),
    (2, &[LABEL_B0], 2),
    (3, &[LABEL_G1, (3, None)], 0),
];

// Sides of several labels, a state that occurs twice, chains, and a cycle of cost 0.
const NESTED: &[Row] = &[
    (0, &[LABEL_F2, LABEL_G1, (1, None), (1, None)], 3),
    (1, &[(2, None)], 0),
    (2, &[(1, None)], 0),
    (2, &[LABEL_F2, LABEL_A0, LABEL_B0], 7),
    (1, &[LABEL_A0], 8),
];

// The greatest cost is a cost, and one more is none.
const CUT: &[Row] = &[
    (0, &[LABEL_G1, (1, None)], 1),
    (1, &[LABEL_A0], MOST),
    (2, &[(1, None)], 0),
    (3, &[(0, None)], 0),
];

const UNWEIGHTED: &[Row] = &[(0, &[(1, None)], 0), (1, &[LABEL_A0], 0)];

// State 1 has a run but is not reached, state 2 has none, and the last rule costs too much.
const USELESS: &[Row] = &[
    (1, &[LABEL_A0], 0),
    (0, &[LABEL_F2, (3, None), (2, None)], 0),
    (3, &[LABEL_B0], 1),
    (0, &[LABEL_G1, (3, None)], 2),
    (0, &[(3, None)], MOST),
];

// The start has no run.
const ENDLESS: &[Row] = &[(0, &[LABEL_G1, (0, None)], 0), (1, &[LABEL_A0], 0)];

// How many states there are, the rules, and the inside costs.
type Inside = (u8, &'static [Row], &'static [Option<u64>]);

// Where costs are added.
static INSIDES: [Inside; 3] = [
    (4, WORKED, &[Some(3), Some(1), Some(2), None]),
    (3, NESTED, &[Some(17), Some(7), Some(7)]),
    (4, CUT, &[None, Some(MOST), Some(MOST), None]),
];

#[test]
fn inside_costs_are_as_worked_out(rt: HostRuntime) {
    for row in &INSIDES {
        assert!(rt; has_insides::<MinPlus>(rt.alloc(), row));
    }
}

// Where the greater cost counts, and where all costs are 0.
static GREATEST: Inside = (4, WORKED, &[Some(2), Some(1), Some(2), None]);

static ANY: Inside = (3, UNWEIGHTED, &[Some(0), Some(0), None]);

#[test]
fn inside_costs_are_those_of_the_semiring(rt: HostRuntime) {
    assert!(rt; has_insides::<Bottleneck>(rt.alloc(), &GREATEST));
    assert!(rt; has_insides::<Boolean>(rt.alloc(), &ANY));
}

const WORKED_KEPT: &[Row] = &[
    (0, &[LABEL_F2, (1, None), (2, None)], 0),
    (1, &[LABEL_A0], 1),
    (2, &[LABEL_A0], 4),
    (2, &[LABEL_B0], 2),
];

const USELESS_KEPT: &[Row] = &[(1, &[LABEL_B0], 1), (0, &[LABEL_G1, (1, None)], 2)];

// How many states there are, the rules, the lengths of the names that are left, and the rules that
// are.
type Trimmed = (u8, &'static [Row], &'static [usize], &'static [Row]);

static TRIMMED: [Trimmed; 3] = [
    (4, WORKED, &[1, 2, 3], WORKED_KEPT),
    (4, USELESS, &[1, 4], USELESS_KEPT),
    (2, ENDLESS, &[1], &[]),
];

#[test]
fn what_no_run_uses_is_left_out(rt: HostRuntime) {
    for row in &TRIMMED {
        assert!(rt; is_trimmed(rt.alloc(), row));
    }
}

static NORMAL: Trimmed = (4, WORKED, &[1, 2, 3], WORKED_KEPT);

#[test]
fn rules_and_normal_forms_are_trimmed(rt: HostRuntime) {
    assert!(rt; are_useless_rules_trimmed(rt.alloc()) && is_normal_trimmed(rt.alloc(), &NORMAL));
}

// Whether trimming a grammar leaves this number of rules.
fn keeps(alloc: Global, grammar: Grammar<MinPlus>, rules: u32) -> bool {
    match trim::<MinPlus>(alloc, grammar) {
        Ok(trimmed) => trimmed.rules() == rules,
        Err(_) => false,
    }
}

// The grammar of one state with this number of rules.
fn wide_grammar(alloc: Global, labels: u32) -> Option<Grammar<MinPlus>> {
    grammar_of::<MinPlus>(alloc, 1, wide_rules(alloc, labels)?)
}

// Whether its inside cost is 0, and trimming keeps all of its rules.
fn is_wide_kept(alloc: Global, labels: u32) -> bool {
    match wide_grammar(alloc, labels) {
        Some(grammar) => {
            are_insides(alloc, &grammar, &[Some(0)]) && keeps(alloc, grammar, labels)
        }
        None => false,
    }
}

#[test]
fn more_rules_than_16_bits_count_are_kept(rt: HostRuntime) {
    assert!(rt; is_wide_kept(rt.alloc(), 70_000));
}
