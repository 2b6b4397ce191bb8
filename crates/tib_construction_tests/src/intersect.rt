// The edges of pairs of states of two small grammars, and their reached set.
ghost use Rattle.std.specs.Prelude.{◌≤◌};

use crate::grammars::{Row, are_rules, is_rule, normal, normal_of, rule};
use std::alloc::Global;
use std::sync::Wait;
use std::thread::Threads;
use tib_cost::{Bottleneck, MOST, MinPlus, Semiring};
use tib_expand::{Edges, Expand, ExpandError, Found, HuntError, Open, TableKey};
use tib_grammar::Rule;
use tib_intersect::{PairRule, Pairs};
use tib_key_edges::StatePair;
use tib_normal::Normal;
use tib_reached::{Hunters, intersect, intersect_together};
use tib_tree::Label;

static LEFT: [Row; 4] = [
    (0, 7, &[0, 1], 1),
    (0, 8, &[], 2),
    (0, 7, &[1, 1], MOST),
    (1, 8, &[], 3),
];

// One rule has another label, and one another rank.
static RIGHT: [Row; 5] = [
    (0, 8, &[], 5),
    (0, 7, &[1, 0], 4),
    (0, 7, &[0], 1),
    (0, 9, &[0, 0], 1),
    (1, 8, &[], 6),
];

// The first state and the second one.
type States = (u32, u32);

// An edge: its label, the pairs that it leads to, and its cost.
type Edge = (Label, &'static [States], u64);

// A pair, a budget, and the edges of the pair with their parts; none where these are more than the
// budget.
type Case = (States, u64, Option<(&'static [Edge], u64)>);

const OF_STARTS: &[Edge] = &[(7, &[(0, 1), (1, 0)], 5), (8, &[], 7)];

static SUMS: [Case; 6] = [
    ((0, 0), 20_000_000, Some((OF_STARTS, 6))),
    ((0, 0), 6, Some((OF_STARTS, 6))),
    ((0, 0), 5, None),
    ((0, 1), 2, Some((&[(8, &[], 8)], 2))),
    ((1, 0), 2, Some((&[(8, &[], 8)], 2))),
    ((1, 1), 1, None),
];

static GREATEST: [Case; 1] = [(
    (0, 0),
    10,
    Some((
        &[
            (7, &[(0, 1), (1, 0)], 4),
            (8, &[], 5),
            (7, &[(1, 1), (1, 0)], MOST),
        ],
        10,
    )),
)];

fn sums() -> &'static [Case] {
    &SUMS
}

fn greatest() -> &'static [Case] {
    &GREATEST
}

fn are_pairs(pairs: &[StatePair], states: &[States]) -> bool {
    if pairs.len() != states.len() {
        return false;
    }
    for i in 0..pairs.len() {
        if (pairs[i].first(), pairs[i].second()) != states[i] {
            return false;
        }
    }
    true
}

// Whether the ends from one on, of this number, are these pairs.
fn leads_to(ends: &[StatePair], first: usize, rank: usize, states: &[States]) -> bool {
    if rank > ends.len() || first > ends.len() - rank {
        return false;
    }
    are_pairs(&ends[first..first + rank], states)
}

fn is_edge(rule: &PairRule, ends: &[StatePair], edge: &Edge) -> bool {
    let (label, states, cost) = edge;
    rule.label == *label
        && rule.cost.get() == *cost
        && leads_to(ends, rule.first_end as usize, rule.rank as usize, states)
}

fn are_edges(rules: &[PairRule], ends: &[StatePair], edges: &[Edge]) -> bool {
    if rules.len() != edges.len() {
        return false;
    }
    for i in 0..rules.len() {
        if !is_edge(&rules[i], ends, &edges[i]) {
            return false;
        }
    }
    true
}

// Whether the edges of a pair are those wanted, or more than the budget where none are.
fn is_wanted(
    answer: &Result<Edges<StatePair, PairRule>, ExpandError>,
    wanted: &Option<(&'static [Edge], u64)>,
) -> bool {
    match (answer, wanted) {
        (Ok(found), Some((edges, parts))) => {
            found.parts == *parts && are_edges(&found.rules, &found.ends, edges)
        }
        (Err(ExpandError::More), None) => true,
        _ => false,
    }
}

// Whether the answer to a case is the one wanted; false where there is no such state or budget.
fn agrees<S: Semiring>(alloc: Global, pairs: &Pairs<S>, case: &Case) -> bool {
    let ((first, second), budget, wanted) = case;
    if *first >= pairs.left.grammar().states() {
        return false;
    }
    if *second >= pairs.right.grammar().states() || *budget > 20_000_000 {
        return false;
    }
    let answer = pairs.expand(alloc, &[StatePair::new(*first, *second)], &(), 0, *budget);
    is_wanted(&answer, wanted)
}

// The same for the pairs of two grammars.
fn pairs_agree<S: Semiring>(
    alloc: Global,
    left: &Normal<S>,
    right: &Normal<S>,
    case: &Case,
) -> bool {
    match Pairs::new(alloc, left, right) {
        Ok(pairs) => agrees(alloc, &pairs, case),
        Err(_) => false,
    }
}

// The two grammars above.
fn both<S: Semiring + Drop>(alloc: Global) -> Option<(Normal<S>, Normal<S>)> {
    let left = normal(alloc, &LEFT)?;
    Some((left, normal(alloc, &RIGHT)?))
}

// The same for their pairs.
fn edges_agree<S: Semiring + Drop>(alloc: Global, case: &Case) -> bool {
    match both::<S>(alloc) {
        Some((left, right)) => pairs_agree(alloc, &left, &right, case),
        None => false,
    }
}

#[test]
fn a_pair_has_an_edge_for_each_two_rules_that_agree(rt: HostRuntime) {
    for case in sums() {
        assert!(rt; edges_agree::<MinPlus>(rt.alloc(), case));
    }
}

#[test]
fn a_product_is_that_of_the_semiring(rt: HostRuntime) {
    for case in greatest() {
        assert!(rt; edges_agree::<Bottleneck>(rt.alloc(), case));
    }
}

// Whether seeds are the pair of the starts, with no edge.
fn is_start(seeds: &Result<Edges<StatePair, PairRule>, ExpandError>) -> bool {
    match seeds {
        Ok(seeds) => seeds.rules.len() == 0 && are_pairs(&seeds.ends, &[(0, 0)]),
        Err(_) => false,
    }
}

// The same for those of the pairs of two grammars.
fn is_seed(alloc: Global, pairs: &Pairs<MinPlus>) -> bool {
    let seeds = pairs.seeds(alloc, 0);
    is_start(&seeds)
}

fn is_settled(rule: &Rule<u32>) -> bool {
    is_rule(rule, &(4, 7, &[5, 6], 0))
}

// Whether an edge from position 4 to the last two of the positions 9, 5 and 6 is settled to a rule
// of them.
fn settles(alloc: Global, pairs: &Pairs<MinPlus>) -> bool {
    let edge = PairRule {
        position: 4,
        label: 7,
        first_end: 1,
        rank: 2,
        cost: MinPlus::one(),
    };
    match pairs.settle(alloc, &edge, &[9, 5, 6]) {
        Ok(rule) => is_settled(&rule),
        Err(_) => false,
    }
}

// Both, for the pairs of two grammars.
fn begin_and_settle(alloc: Global, left: &Normal<MinPlus>, right: &Normal<MinPlus>) -> bool {
    match Pairs::new(alloc, left, right) {
        Ok(pairs) => is_seed(alloc, &pairs) && settles(alloc, &pairs),
        Err(_) => false,
    }
}

// The same for the two grammars above.
fn both_begin_and_settle(alloc: Global) -> bool {
    match both::<MinPlus>(alloc) {
        Some((left, right)) => begin_and_settle(alloc, &left, &right),
        None => false,
    }
}

#[test]
fn the_seed_is_the_pair_of_the_starts_and_an_edge_is_settled_over_positions(rt: HostRuntime) {
    assert!(rt; both_begin_and_settle(rt.alloc()));
}

fn is_filed(key: StatePair) -> bool {
    key.entries() == 2 && key.shelf() == 11
}

#[test]
fn a_key_has_two_entries_and_a_shelf(rt: HostRuntime) {
    assert!(rt; is_filed(StatePair::new(3, 4)) && StatePair::new(3, 9) < StatePair::new(4, 0));
}

// What is returned, by one worker or, where their number is not 0, by several.
fn reached<R: Threads + Wait + Sync>(
    rt: &R,
    alloc: Global,
    left: &Normal<MinPlus>,
    right: &Normal<MinPlus>,
    workers: u32,
    limit: u64,
) -> Result<Found<StatePair, Rule<u32>>, HuntError>
    requires workers { workers ≤ 16 }
    requires some { 1 ≤ limit }
    requires limit { limit ≤ 20000000 }
{
    if workers == 0 {
        return intersect(alloc, left, right, limit, &Open);
    }
    let hunters = Hunters {
        rt,
        workers,
        gate: &Open,
    };
    intersect_together(&hunters, alloc, left, right, limit)
}

static ALL: [Row; 4] = [
    (0, 7, &[1, 2], 5),
    (0, 8, &[], 7),
    (1, 8, &[], 8),
    (2, 8, &[], 8),
];

fn is_all(found: &Found<StatePair, Rule<u32>>) -> bool {
    found.parts == 19
        && are_pairs(&found.order, &[(0, 0), (0, 1), (1, 0)])
        && are_rules(&found.rules, &ALL)
}

// Whether all of 19 parts was reached, or the limit is reported where it is below them.
fn is_answer(answer: &Result<Found<StatePair, Rule<u32>>, HuntError>, limit: u64) -> bool {
    match answer {
        Ok(found) => limit >= 19 && is_all(found),
        Err(HuntError::TooMany { limit: told }) => limit < 19 && *told == limit,
        Err(HuntError::OutOfMemory) => false,
    }
}

// The same for two grammars; false where there is no such limit or number of workers.
fn reach_all<R: Threads + Wait + Sync>(
    rt: &R,
    alloc: Global,
    left: &Normal<MinPlus>,
    right: &Normal<MinPlus>,
    workers: u32,
    limit: u64,
) -> bool {
    if workers > 16 || limit == 0 || limit > 20_000_000 {
        return false;
    }
    let answer = reached(rt, alloc, left, right, workers, limit);
    is_answer(&answer, limit)
}

// The same for the two grammars above.
fn reaches<R: Threads + Wait + Sync>(rt: &R, alloc: Global, workers: u32, limit: u64) -> bool {
    match both::<MinPlus>(alloc) {
        Some((left, right)) => reach_all(rt, alloc, &left, &right, workers, limit),
        None => false,
    }
}

#[test]
fn three_pairs_are_reached_by_four_rules(rt: HostRuntime) {
    for limit in [20_000_000, 19, 18] {
        assert!(rt; reaches(&rt, rt.alloc(), 0, limit));
    }
}

#[test]
fn every_number_of_workers_reaches_the_three_pairs(rt: HostRuntime) {
    for workers in 1..17 {
        assert!(rt; reaches(&rt, rt.alloc(), workers, 19));
    }
}

// The rules of one tree: `length` labels 7, each below the one before, and a label 8 below the
// last.
fn links(alloc: Global, length: u32) -> Option<Vec<Rule<u32>>> {
    let mut rules = Vec::new(alloc);
    for state in 0..length {
        rules
            .push(rule(alloc, state, 7, &[state.wrapping_add(1)], 0)?)
            .ok()?;
    }
    rules.push(rule(alloc, length, 8, &[], 0)?).ok()?;
    Some(rules)
}

// The grammar of such a tree.
fn chain(alloc: Global, length: u32) -> Option<Normal<MinPlus>> {
    normal_of(alloc, length.wrapping_add(1), links(alloc, length)?)
}

fn has_counts(found: &Found<StatePair, Rule<u32>>) -> bool {
    found.order.len() == 70_001 && found.rules.len() == 70_001 && found.parts == 420_005
}

// Whether a grammar with itself reaches 70,001 pairs by as many rules, and 420,005 parts.
fn reaches_itself(alloc: Global, grammar: &Normal<MinPlus>) -> bool {
    match intersect(alloc, grammar, grammar, 20_000_000, &Open) {
        Ok(found) => has_counts(&found),
        Err(_) => false,
    }
}

fn chain_reaches_itself(alloc: Global) -> bool {
    match chain(alloc, 70_000) {
        Some(grammar) => reaches_itself(alloc, &grammar),
        None => false,
    }
}

#[test]
fn more_pairs_than_65536_are_reached(rt: HostRuntime) {
    assert!(rt; chain_reaches_itself(rt.alloc()));
}
