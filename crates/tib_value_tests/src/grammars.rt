// Small grammars, as written in comments: a label is a number here, 0 for f, 1 for a.
ghost use Rattle.std.specs.Prelude.{IfSome, length};
ghost use Rattle.tib_grammar.specs.Forms.{IsNormalSide};
ghost use Rattle.tib_grammar.specs.Range.{AreInRange};

use std::alloc::Global;
use tib_cost::{MinPlus, Semiring};
use tib_grammar::*;
use tib_tree::Label;

// A rule that costs nothing: its left state, its label, and the states below it, or the lone state
// where there is no label.
type Row = (u32, Option<Label>, &'static [u32]);

fn bytes_of(alloc: Global, texts: &[&str]) -> Option<Vec<Vec<u8>>> {
    let mut list = Vec::new(alloc);
    for text in texts {
        list.push(text.as_bytes().to_vec(alloc).ok()?).ok()?;
    }
    Some(list)
}

// The states of these names, where they are names; none at all where memory is refused.
fn read_names(alloc: Global, texts: &[&str]) -> Option<Option<Names>> {
    let list = bytes_of(alloc, texts)?;
    if list.len() > 1000 {
        return None;
    }
    Names::from_list(alloc, list).ok()
}

// Whether the texts are names of states, or are none, as is wanted.
fn are_told(alloc: Global, texts: &[&str], want: bool) -> bool {
    match read_names(alloc, texts) {
        Some(names) => names.is_some() == want,
        None => false,
    }
}

static NAMES: [(&[&str], bool); 7] = [
    (&["q", "q0", "x->", "é"], true),
    (&["->"], false),
    (&[""], false),
    (&["q.x"], false),
    (&["q r"], false),
    (&["q#"], false),
    (&["q", "p", "q"], false),
];

#[test]
fn state_names_are_told_from_others(rt: HostRuntime) {
    for (texts, want) in &NAMES {
        assert!(rt; are_told(rt.alloc(), *texts, *want));
    }
}

// The states as items.
fn holes(alloc: Global, states: &[u32]) -> Option<Vec<Item<u32>>> {
    let mut items = Vec::new(alloc);
    for state in states {
        items.push(Item::Hole(*state)).ok()?;
    }
    Some(items)
}

// The side of the states alone, where they are one tree; none at all where memory is refused.
fn side_of_holes(alloc: Global, states: &[u32]) -> Option<Option<Side<u32>>> {
    let items = holes(alloc, states)?;
    if items.len() > 1000 {
        return None;
    }
    Some(Side::from_preorder(items).ok())
}

// The same for a label over states, or the states alone where there is no label.
fn side(alloc: Global, root: Option<Label>, states: &[u32]) -> Option<Option<Side<u32>>> {
    if states.len() > 1000 {
        return None;
    }
    match root {
        Some(label) => Some(Some(Side::over(alloc, label, states).ok()?)),
        None => side_of_holes(alloc, states),
    }
}

// How many items a side has.
fn count_of(side: &Option<Side<u32>>) -> Option<usize> {
    match side {
        Some(side) => Some(side.items().len()),
        None => None,
    }
}

// Whether a label over states, or the states alone, are a side of this number of items, or none.
fn has_items(alloc: Global, root: Option<Label>, states: &[u32], want: Option<usize>) -> bool {
    match side(alloc, root, states) {
        Some(side) => count_of(&side) == want,
        None => false,
    }
}

static SIDES: [(Option<Label>, &[u32], Option<usize>); 3] = [
    (Some(0), &[7, 8], Some(3)),
    (None, &[7], Some(1)),
    (None, &[7, 8], None),
];

#[test]
fn a_side_is_one_tree(rt: HostRuntime) {
    for (root, states, want) in &SIDES {
        assert!(rt; has_items(rt.alloc(), *root, *states, *want));
    }
}

fn rule(alloc: Global, row: &Row) -> Option<Rule<u32>> {
    let (left, root, states) = row;
    let right = side(alloc, *root, *states)??;
    Some(Rule {
        left: *left,
        right,
        cost: MinPlus::one(),
    })
}

fn rules(alloc: Global, rows: &[Row]) -> Option<Vec<Rule<u32>>> {
    let mut rules = Vec::new(alloc);
    for row in rows {
        rules.push(rule(alloc, row)?).ok()?;
    }
    Some(rules)
}

// The grammar of these names and rules, where they make one; none at all where memory is refused.
fn made(alloc: Global, texts: &[&str], rows: &[Row]) -> Option<Option<Grammar<MinPlus>>> {
    let rules = rules(alloc, rows)?;
    if rules.len() > 1000 {
        return None;
    }
    Some(Grammar::new(read_names(alloc, texts)??, rules))
}

fn grammar(alloc: Global, texts: &[&str], rows: &[Row]) -> Option<Grammar<MinPlus>> {
    made(alloc, texts, rows)?
}

fn is_refused(alloc: Global, texts: &[&str], rows: &[Row]) -> bool {
    match made(alloc, texts, rows) {
        Some(made) => made.is_none(),
        None => false,
    }
}

// Whether the grammar is in normal form, and has one state and two rules.
fn has_counts(grammar: &Grammar<MinPlus>) -> bool {
    grammar.is_normal()
        && grammar.states() == 1
        && grammar.rules() == 2
        && grammar.rule_list().len() == 2
}

fn is_first_name(grammar: &Grammar<MinPlus>, name: &[u8]) -> bool {
    grammar.states() > 0 && grammar.name(0) == name
}

fn is_cost_of_second(grammar: &Grammar<MinPlus>, cost: u64) -> bool {
    grammar.rules() >= 2 && grammar.rule(2).cost.get() == cost
}

fn has_parts(grammar: &Grammar<MinPlus>) -> bool {
    has_counts(grammar) && is_first_name(grammar, b"q") && is_cost_of_second(grammar, 0)
}

// Whether the parts of a grammar are one name, which is q, and two rules.
fn are_parts(names: &Names, rules: &[Rule<u32>]) -> bool {
    names.find(b"q") == Some(0) && names.len() == 1 && rules.len() == 2
}

fn comes_apart(grammar: Grammar<MinPlus>) -> bool {
    let (names, rules) = grammar.into_parts();
    are_parts(&names, &rules)
}

// q -> f(q q), q -> a
static TREES: [Row; 2] = [(0, Some(0), &[0, 0]), (0, Some(1), &[])];

fn trees_come_apart(alloc: Global) -> bool {
    match grammar(alloc, &["q"], &TREES) {
        Some(grammar) => comes_apart(grammar),
        None => false,
    }
}

fn trees_have_parts(alloc: Global) -> bool {
    match grammar(alloc, &["q"], &TREES) {
        Some(grammar) => has_parts(&grammar),
        None => false,
    }
}

#[test]
fn a_grammar_gives_its_parts(rt: HostRuntime) {
    assert!(rt; trees_have_parts(rt.alloc()) && trees_come_apart(rt.alloc()));
}

// The names and rules of a grammar, and the first fault of its deterministic form.
static FAULTS: [(&[&str], &[Row], Option<DeterminismFault>); 3] = [
    // q -> f(p), q -> f(r), p -> a, r -> a
    (
        &["q", "p", "r"],
        &[
            (0, Some(0), &[1]),
            (0, Some(0), &[2]),
            (1, Some(1), &[]),
            (2, Some(1), &[]),
        ],
        Some(DeterminismFault::Shared {
            first: 3,
            second: 4,
        }),
    ),
    // q -> p, p -> f(q)
    (
        &["q", "p"],
        &[(0, None, &[1]), (1, Some(0), &[0])],
        Some(DeterminismFault::Chain { rule: 1 }),
    ),
    // q -> p, p -> f(p), p -> a
    (
        &["q", "p"],
        &[(0, None, &[1]), (1, Some(0), &[1]), (1, Some(1), &[])],
        None,
    ),
];

fn fault_of(alloc: Global, grammar: &Grammar<MinPlus>) -> Option<DeterminismFault> {
    match grammar.deterministic(alloc) {
        Ok(_) => None,
        Err(fault) => Some(fault),
    }
}

fn has_fault(alloc: Global, grammar: &Grammar<MinPlus>, want: &Option<DeterminismFault>) -> bool {
    fault_of(alloc, grammar) == *want
}

// Whether this is the first fault of the grammar of these names and rules.
fn is_first_fault(
    alloc: Global,
    texts: &[&str],
    rows: &[Row],
    want: &Option<DeterminismFault>,
) -> bool {
    match grammar(alloc, texts, rows) {
        Some(grammar) => has_fault(alloc, &grammar, want),
        None => false,
    }
}

#[test]
fn the_first_fault_is_named(rt: HostRuntime) {
    for (texts, rows, want) in &FAULTS {
        assert!(rt; is_first_fault(rt.alloc(), *texts, *rows, want));
    }
}

// q -> f(p), where p has no name
#[test]
fn each_state_has_a_name(rt: HostRuntime) {
    assert!(rt; is_refused(rt.alloc(), &["q"], &[(0, Some(0), &[1])]));
}

// q -> f(q p r p), p -> f(r q), r -> p
static THREE: [Row; 3] = [
    (0, Some(0), &[0, 1, 2, 1]),
    (1, Some(0), &[2, 0]),
    (2, None, &[1]),
];

// A rule: its left state, and its items.
type Wanted = (u32, &'static [Item<u32>]);

// The same rules where q gets the number 2, p 0 and r 1.
static RENAMED: [Wanted; 3] = [
    (
        2,
        &[
            Item::Label { label: 0, rank: 4 },
            Item::Hole(2),
            Item::Hole(0),
            Item::Hole(1),
            Item::Hole(0),
        ],
    ),
    (
        0,
        &[
            Item::Label { label: 0, rank: 2 },
            Item::Hole(1),
            Item::Hole(2),
        ],
    ),
    (1, &[Item::Hole(0)]),
];

fn is_of(rule: &Rule<u32>, want: &Wanted) -> bool {
    rule.left == want.0 && rule.right.items() == want.1
}

fn are_of(rules: &[Rule<u32>], want: &[Wanted]) -> bool {
    if rules.len() != want.len() {
        return false;
    }
    for i in 0..rules.len() {
        if !is_of(&rules[i], &want[i]) {
            return false;
        }
    }
    true
}

// Whether rules under new numbers of states are these.
fn are_rules_renamed(rules: &mut [Rule<u32>], numbers: &[u32], want: &[Wanted]) -> bool
    requires { AreInRange (length numbers.now) rules.old }
{
    rename_rules(rules, numbers);
    are_of(rules, want)
}

// The same for the rules of a grammar.
fn are_renamed(grammar: Grammar<MinPlus>, numbers: &[u32], want: &[Wanted]) -> bool {
    grammar.is_sound();
    let states = grammar.states() as usize;
    let (_, mut rules) = grammar.into_parts();
    numbers.len() == states && are_rules_renamed(&mut rules, numbers, want)
}

fn three_are_renamed(alloc: Global) -> bool {
    match grammar(alloc, &["q", "p", "r"], &THREE) {
        Some(grammar) => are_renamed(grammar, &[2, 0, 1], &RENAMED),
        None => false,
    }
}

#[test]
fn states_get_new_numbers(rt: HostRuntime) {
    assert!(rt; three_are_renamed(rt.alloc()));
}

// The first rule of a grammar in normal form.
fn first_rule(grammar: &Grammar<MinPlus>) -> Option<&Rule<u32>>
    ensures { IfSome result (λ rule. IsNormalSide rule.now.right) }
{
    if grammar.rules() == 0 || !grammar.is_normal() {
        return None;
    }
    Some(grammar.rule(1))
}

fn are_states(items: &[Item<u32>], states: &[u32]) -> bool {
    if items.len() != states.len() {
        return false;
    }
    for i in 0..items.len() {
        if items[i].state() != states[i] {
            return false;
        }
    }
    true
}

// Whether the root of a rule in normal form is this label, and these are the states below it.
fn is_over(rule: &Rule<u32>, label: Label, states: &[u32]) -> bool
    requires { IsNormalSide rule.now.right }
{
    let (own, rank) = rule.root();
    own == label && rank as usize == states.len() && are_states(rule.states_below(), states)
}

fn is_first_over(grammar: &Grammar<MinPlus>, label: Label, states: &[u32]) -> bool {
    match first_rule(grammar) {
        Some(rule) => is_over(rule, label, states),
        None => false,
    }
}

// q -> b(r q), where b is the label 7
fn is_seven_over_two(alloc: Global) -> bool {
    match grammar(alloc, &["q", "r"], &[(0, Some(7), &[1, 0])]) {
        Some(grammar) => is_first_over(&grammar, 7, &[1, 0]),
        None => false,
    }
}

#[test]
fn a_rule_gives_its_label_and_its_states(rt: HostRuntime) {
    assert!(rt; is_seven_over_two(rt.alloc()));
}
