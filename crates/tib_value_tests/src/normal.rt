// The normal forms of small grammars.
use crate::rules::{
    LABEL_A0, LABEL_B0, LABEL_F2, LABEL_G1, Row, are_of_rows, grammar_over, make_grammar,
    make_normal, make_rule, named,
};
use std::alloc::Global;
use tib_cost::{MOST, MinPlus};
use tib_grammar::{Grammar, Rule};
use tib_normal::{Normal, NormalError, normalize};

// Whether a normal form has these rules, or has too many parts where there are none.
fn is_wanted(answer: &Result<Normal<MinPlus>, NormalError>, want: &Option<&[Row]>) -> bool {
    match (answer, want) {
        (Ok(normal), Some(rows)) => are_of_rows(normal.grammar().rule_list(), rows),
        (Err(NormalError::TooMany { .. }), None) => true,
        _ => false,
    }
}

/// The same for the normal form of a grammar within the limit of a row.
fn is_within(alloc: Global, grammar: &Grammar<MinPlus>, form: &Form) -> bool {
    if form.2 < 1 || form.2 > 20_000_000 {
        return false;
    }
    let answer = normalize::<MinPlus>(alloc, grammar, form.2);
    is_wanted(&answer, &form.3)
}

/// The same for the grammar of a row.
fn has_form(alloc: Global, form: &Form) -> bool {
    match make_grammar::<MinPlus>(alloc, form.0, form.1) {
        Some(grammar) => is_within(alloc, &grammar, form),
        None => false,
    }
}

// A right-hand side of several labels, and a chain rule: 2 states, 2 of places, and rules of 4, 2,
// 2, 3 and 2 parts.
const NESTED: &[Row] = &[
    (0, &[LABEL_F2, LABEL_G1, LABEL_A0, (0, None)], 3),
    (0, &[(1, None)], 1),
    (1, &[LABEL_B0], 2),
];

const NESTED_FORM: &[Row] = &[
    (0, &[LABEL_F2, (2, None), (0, None)], 3),
    (0, &[LABEL_B0], 3),
    (1, &[LABEL_B0], 2),
    (2, &[LABEL_G1, (3, None)], 0),
    (3, &[LABEL_A0], 0),
];

// Two ways from 0 to 1, of which the longer is the cheaper, and a cycle of cost 0.
const WAYS: &[Row] = &[
    (0, &[(1, None)], 9),
    (0, &[(2, None)], 1),
    (2, &[(1, None)], 3),
    (1, &[LABEL_A0], 0),
    (1, &[(2, None)], 0),
    (2, &[(2, None)], 0),
];

const WAYS_FORM: &[Row] = &[
    (0, &[LABEL_A0], 4),
    (1, &[LABEL_A0], 0),
    (2, &[LABEL_A0], 3),
];

// Equal rules keep the least cost; a chain whose cost is above the greatest leads nowhere.
const CUT: &[Row] = &[
    (0, &[LABEL_A0], 5),
    (0, &[(1, None)], 2),
    (1, &[LABEL_A0], 1),
    (1, &[(2, None)], MOST),
    (2, &[LABEL_B0], 0),
];

const CUT_FORM: &[Row] = &[
    (0, &[LABEL_A0], 3),
    (1, &[LABEL_A0], 1),
    (1, &[LABEL_B0], MOST),
    (2, &[LABEL_B0], 0),
];

// One state, a rule of 4 parts and one of 2, in normal form.
const SMALL: &[Row] = &[
    (0, &[LABEL_F2, (0, None), (0, None)], 1),
    (0, &[LABEL_A0], 2),
];

// How many states there are, the rules, the limit, and the rules of the normal form, or none where
// it has too many parts.
type Form = (u8, &'static [Row], u64, Option<&'static [Row]>);

static FORMS: [Form; 7] = [
    (2, NESTED, 100, Some(NESTED_FORM)),
    (2, NESTED, 17, Some(NESTED_FORM)),
    (2, NESTED, 16, None),
    (3, WAYS, 100, Some(WAYS_FORM)),
    (3, CUT, 100, Some(CUT_FORM)),
    (1, SMALL, 7, Some(SMALL)),
    (1, SMALL, 6, None),
];

#[test]
fn normal_forms_are_as_worked_out(rt: HostRuntime) {
    for form in &FORMS {
        assert!(rt; has_form(rt.alloc(), form));
    }
}

// Whether a grammar in normal form has these rules, of which one has the label 2 over no state,
// and none has it over one.
fn has_one_with_2(normal: &Normal<MinPlus>, rows: &[Row]) -> bool {
    normal.rules_with(2, 0).len() == 1
        && normal.rules_with(2, 1).len() == 0
        && are_of_rows(normal.grammar().rule_list(), rows)
}

fn is_small_taken(alloc: Global) -> bool {
    match make_normal::<MinPlus>(alloc, 1, SMALL) {
        Some(normal) => has_one_with_2(&normal, SMALL),
        None => false,
    }
}

const ONE_NESTED: &[Row] = &[(0, &[LABEL_G1, LABEL_A0], 1)];

// Whether a grammar is said not to be in normal form.
fn is_refused(alloc: Global, grammar: Grammar<MinPlus>) -> bool {
    match Normal::new(alloc, grammar) {
        Ok(made) => made.is_none(),
        Err(_) => false,
    }
}

fn is_nested_refused(alloc: Global) -> bool {
    match make_grammar::<MinPlus>(alloc, 1, ONE_NESTED) {
        Some(grammar) => is_refused(alloc, grammar),
        None => false,
    }
}

#[test]
fn only_normal_grammars_are_taken(rt: HostRuntime) {
    assert!(rt; is_small_taken(rt.alloc()) && is_nested_refused(rt.alloc()));
}

// The rule that leads from a state to another at cost 1.
fn link(alloc: Global, left: u32, right: u32) -> Option<Rule<u32>> {
    make_rule(alloc, left, &[(right, None)], 1)
}

fn leaf(alloc: Global, left: u32) -> Option<Rule<u32>> {
    make_rule(alloc, left, &[LABEL_A0], 0)
}

/// The rules of a chain of states, each of which leads to the next at cost 1; the last one has a
/// rule of cost 0.
fn chain_rules(alloc: Global, states: u32) -> Option<Vec<Rule<u32>>> {
    let mut rules = Vec::new(alloc);
    for n in 1..states {
        rules.push(link(alloc, n - 1, n)?).ok()?;
    }
    rules.push(leaf(alloc, states - states.min(1))?).ok()?;
    Some(rules)
}

fn number_texts(alloc: Global, count: u32) -> Option<Vec<Vec<u8>>> {
    let mut texts = Vec::new(alloc);
    for n in 0..count {
        texts.push(n.to_string(alloc).ok()?.into_bytes()).ok()?;
    }
    Some(texts)
}

fn chain_grammar(alloc: Global, states: u32) -> Option<Grammar<MinPlus>> {
    let names = named(alloc, number_texts(alloc, states)?)?;
    grammar_over::<MinPlus>(names, chain_rules(alloc, states)?)
}

// How many rules there are, and what the first of them costs.
fn count_and_cost(rules: &[Rule<u32>]) -> Option<(usize, u64)> {
    match rules.first() {
        Some(rule) => Some((rules.len(), rule.cost.get())),
        None => None,
    }
}

// The same for the normal form within a limit; none where it has too many parts.
fn measure_within(grammar: &Grammar<MinPlus>, alloc: Global, limit: u64) -> Option<(usize, u64)> {
    if limit < 1 || limit > 20_000_000 {
        return None;
    }
    match normalize::<MinPlus>(alloc, grammar, limit) {
        Ok(normal) => count_and_cost(normal.grammar().rule_list()),
        Err(_) => None,
    }
}

// Whether a chain of 70,000 states has a normal form of a part for each state, and two for each
// rule, and none with a part less.
fn is_followed(alloc: Global, grammar: &Grammar<MinPlus>) -> bool {
    measure_within(grammar, alloc, 210_000) == Some((70_000, 69_999))
        && measure_within(grammar, alloc, 209_999) == None
}

fn is_chain_followed(alloc: Global) -> bool {
    match chain_grammar(alloc, 70_000) {
        Some(grammar) => is_followed(alloc, &grammar),
        None => false,
    }
}

#[test]
fn long_chains_are_followed(rt: HostRuntime) {
    assert!(rt; is_chain_followed(rt.alloc()));
}
