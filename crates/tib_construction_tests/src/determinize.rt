// The reached sets of small grammars, and the limit.
ghost use Rattle.std.specs.Prelude.{◌≤◌};

use crate::grammars::{Row, are_rules, normal, normal_of, rule};
use std::alloc::Global;
use std::sync::Wait;
use std::thread::Threads;
use tib_cost::{Boolean, Bottleneck, Cost, MinPlus, Semiring};
use tib_determinize::{Residuals, Vector};
use tib_expand::{Found, HuntError, Open};
use tib_grammar::Rule;
use tib_normal::Normal;
use tib_reached::{Hunters, determinize, determinize_together};

// q -> f(p) # 1, q -> f(r) # 3, p -> a # 2 and r -> a # 1.
static AMBIGUOUS: [Row; 4] = [
    (0, 7, &[1], 1),
    (0, 7, &[2], 3),
    (1, 8, &[], 2),
    (2, 8, &[], 1),
];

// The same without costs, and with f(q p) from q.
static PLAIN: [Row; 5] = [
    (0, 7, &[1], 0),
    (0, 7, &[2], 0),
    (0, 9, &[0, 1], 0),
    (1, 8, &[], 0),
    (2, 8, &[], 0),
];

// s -> f(q) # 1, s -> f(p) # 2, s -> a, and q and p alike: the residual of p grows without end.
static ENDLESS: [Row; 7] = [
    (0, 7, &[1], 1),
    (0, 7, &[2], 2),
    (0, 8, &[], 0),
    (1, 7, &[1], 1),
    (1, 8, &[], 0),
    (2, 7, &[2], 2),
    (2, 8, &[], 0),
];

// q -> f(p) # 1, q -> f(r) # 3, p -> a # 2 and r -> b # 1: two vectors are in the first round.
static APART: [Row; 4] = [
    (0, 7, &[1], 1),
    (0, 7, &[2], 3),
    (1, 8, &[], 2),
    (2, 9, &[], 1),
];

// A state or position, and a residual.
type Entry = (u32, u64);

// A reached set: its vectors, its rules, its parts, and the positions with the start, each with the
// start's residual there.
type Wanted = (
    &'static [&'static [Entry]],
    &'static [Row],
    u64,
    &'static [Entry],
);

static SUMS: Wanted = (
    &[&[(1, 1), (2, 0)], &[(0, 0)]],
    &[(0, 8, &[], 1), (1, 7, &[0], 2)],
    10,
    &[(1, 0)],
);

static GREATEST: Wanted = (
    &[&[(1, 2), (2, 0)], &[(0, 0)]],
    &[(0, 8, &[], 1), (1, 7, &[0], 2)],
    10,
    &[(1, 0)],
);

static SUBSETS: Wanted = (
    &[&[(1, 0), (2, 0)], &[(0, 0)]],
    &[(0, 8, &[], 0), (1, 7, &[0], 0), (1, 9, &[1, 0], 0)],
    14,
    &[(1, 0)],
);

fn is_entry(state: u32, residual: Cost, entry: Entry) -> bool {
    let (own, cost) = entry;
    state == own && residual.get() == cost
}

fn are_entries(entries: &[(u32, Cost)], wanted: &[Entry]) -> bool {
    if entries.len() != wanted.len() {
        return false;
    }
    for i in 0..entries.len() {
        if !is_entry(entries[i].0, entries[i].1, wanted[i]) {
            return false;
        }
    }
    true
}

fn are_vectors(order: &[Vector], wanted: &[&'static [Entry]]) -> bool {
    if order.len() != wanted.len() {
        return false;
    }
    for i in 0..order.len() {
        if !are_entries(order[i].entries(), wanted[i]) {
            return false;
        }
    }
    true
}

// Whether the positions with the start among some vectors, each with the start's residual there,
// are those wanted.
fn are_finals<S: Semiring>(
    alloc: Global,
    residuals: &Residuals<S>,
    order: &[Vector],
    wanted: &[Entry],
) -> bool {
    if order.len() > 99 {
        return false;
    }
    match residuals.finals(alloc, order) {
        Ok(finals) => are_entries(&finals, wanted),
        Err(_) => false,
    }
}

// The same for the residuals of a grammar; false where memory is refused.
fn ends<S: Semiring>(
    alloc: Global,
    normal: &Normal<S>,
    order: &[Vector],
    wanted: &[Entry],
) -> bool {
    match Residuals::new(alloc, normal) {
        Ok(residuals) => are_finals(alloc, &residuals, order, wanted),
        Err(_) => false,
    }
}

// Whether a reached set is the one wanted; false where memory is refused.
fn is_wanted<S: Semiring>(
    alloc: Global,
    normal: &Normal<S>,
    found: &Found<Vector, Rule<u32>>,
    wanted: &Wanted,
) -> bool {
    let (vectors, rules, parts, finals) = wanted;
    let is_order = are_vectors(&found.order, vectors) && found.parts == *parts;
    is_order && are_rules(&found.rules, rules) && ends(alloc, normal, &found.order, finals)
}

// Whether the reached set of a grammar is the one wanted; false where memory is refused, or there
// are more than a hundred parts.
fn reaches<S: Semiring>(alloc: Global, normal: &Normal<S>, wanted: &Wanted) -> bool {
    match determinize(alloc, normal, 100, &Open) {
        Ok(found) => is_wanted(alloc, normal, &found, wanted),
        Err(_) => false,
    }
}

// The same for the grammar of these rules.
fn rows_reach<S: Semiring + Drop>(alloc: Global, rows: &[Row], wanted: &Wanted) -> bool {
    match normal::<S>(alloc, rows) {
        Some(normal) => reaches(alloc, &normal, wanted),
        None => false,
    }
}

// Whether each of three semirings has its residuals.
fn all_reach(alloc: Global) -> bool {
    rows_reach::<MinPlus>(alloc, &AMBIGUOUS, &SUMS)
        && rows_reach::<Bottleneck>(alloc, &AMBIGUOUS, &GREATEST)
        && rows_reach::<Boolean>(alloc, &PLAIN, &SUBSETS)
}

#[test]
fn residuals_are_kept(rt: HostRuntime) {
    assert!(rt; all_reach(rt.alloc()));
}

// Whether a limit is reported where a grammar has more parts.
fn stops<S: Semiring>(alloc: Global, normal: &Normal<S>, limit: u64) -> bool
    requires some { 1 ≤ limit }
    requires limit { limit ≤ 20000000 }
{
    match determinize(alloc, normal, limit, &Open) {
        Err(HuntError::TooMany { limit: told }) => told == limit,
        _ => false,
    }
}

// The same for the grammar of these rules.
fn rows_stop(alloc: Global, rows: &[Row], limit: u64) -> bool
    requires some { 1 ≤ limit }
    requires limit { limit ≤ 20000000 }
{
    match normal::<MinPlus>(alloc, rows) {
        Some(normal) => stops(alloc, &normal, limit),
        None => false,
    }
}

#[test]
fn the_limit(rt: HostRuntime) {
    assert!(rt; rows_stop(rt.alloc(), &AMBIGUOUS, 9) && rows_stop(rt.alloc(), &ENDLESS, 50));
}

// Whether three vectors, four rules and sixteen parts were reached.
fn has_counts(found: &Found<Vector, Rule<u32>>) -> bool {
    found.order.len() == 3 && found.rules.len() == 4 && found.parts == 16
}

// The same for what this number of workers reaches of a grammar.
fn reaches_together<R: Threads + Wait + Sync>(
    rt: &R,
    alloc: Global,
    normal: &Normal<MinPlus>,
    workers: u32,
) -> bool
    requires some { 1 ≤ workers }
    requires workers { workers ≤ 16 }
{
    let hunters = Hunters {
        rt,
        workers,
        gate: &Open,
    };
    match determinize_together(&hunters, alloc, normal, 100) {
        Ok(found) => has_counts(&found),
        Err(_) => false,
    }
}

// The same for the grammar of which two vectors are in the first round.
fn apart_together<R: Threads + Wait + Sync>(rt: &R, alloc: Global, workers: u32) -> bool
    requires some { 1 ≤ workers }
    requires workers { workers ≤ 16 }
{
    match normal(alloc, &APART) {
        Some(normal) => reaches_together(rt, alloc, &normal, workers),
        None => false,
    }
}

#[test]
fn every_number_of_workers_reaches_the_same(rt: HostRuntime) {
    for workers in 1..17 {
        assert!(rt; apart_together(&rt, rt.alloc(), workers));
    }
}

/// How many vectors have the state p, and how many rules have it beside the state r.
const MANY: u32 = 1500;

// For each number n below that q -> n # n + 1, p -> n # 0 and, from a state of its own, f(p r).
// Each label n is reached by a vector of its own, which has p. No vector has r.
fn crowd(alloc: Global) -> Option<Vec<Rule<u32>>> {
    let mut rules = Vec::new(alloc);
    for n in 0..MANY {
        rules.push(rule(alloc, 1, 10 + n, &[], 0)?).ok()?;
    }
    for n in 0..MANY {
        rules.push(rule(alloc, 2, 10 + n, &[], 1 + n as u64)?).ok()?;
    }
    for n in 0..MANY {
        rules.push(rule(alloc, 4 + n, 7, &[1, 3], 0)?).ok()?;
    }
    Some(rules)
}

// The grammar of these rules.
fn crowded(alloc: Global) -> Option<Normal<MinPlus>> {
    normal_of(alloc, 4 + MANY, crowd(alloc)?)
}

// Whether a vector for each label and no other edge are reached of a grammar.
fn reaches_labels_alone(alloc: Global, normal: &Normal<MinPlus>) -> bool {
    match determinize(alloc, normal, 20_000_000, &Open) {
        Ok(found) => found.order.len() == MANY as usize && found.rules.len() == MANY as usize,
        Err(_) => false,
    }
}

// Whether that is so of the grammar above.
fn reaches_crowd(alloc: Global) -> bool {
    match crowded(alloc) {
        Some(normal) => reaches_labels_alone(alloc, &normal),
        None => false,
    }
}

// For each vector and rule the positions of r are looked up, and there are none. A walk that tries
// every position in their place takes minutes.
#[test]
fn positions_without_the_other_state_are_not_tried(rt: HostRuntime) {
    assert!(rt; reaches_crowd(rt.alloc()));
}
