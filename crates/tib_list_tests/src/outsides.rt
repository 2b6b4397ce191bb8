// Outside costs of grammars that are made by a row of numbers, against the least cost of all
// contexts of few levels.
ghost use Rattle.std.specs.Prelude.{◌<◌};

use crate::normals::{normal_of, number_of};
use std::alloc::{AllocError, Global};
use std::test::Fail;
use tib_cost::{Cost, MinPlus};
use tib_grammar::{Rule, Side};
use tib_prune::outside;

const STATES: u32 = 3;

// A run that is cheapest around or from one of three states needs no state twice on its way down.
const LEVELS: u32 = 3;

// A rule: its left state, its label, the states below the label, how many of these there are, and
// its cost.
#[derive(Drop)]
struct Made {
    left: u32,
    label: u32,
    below: [u32; 2],
    count: usize,
    cost: u64,
}

// The next of a row of numbers (the multiplier is that of Knuth's MMIX).
fn next_number(seed: &mut u64) -> u32 {
    *seed = seed
        .wrapping_mul(6_364_136_223_846_793_005)
        .wrapping_add(1_442_695_040_888_963_407);
    (*seed >> 33) as u32
}

// The rule with this number, whose label no other has.
fn make_rule(seed: &mut u64, number: u32) -> Made
    requires { number < 7 }
{
    let count = (next_number(seed) % 3) as usize;
    Made {
        // in the order of their left states, as a normal form has them
        left: number * STATES / 7,
        label: number,
        below: [next_number(seed) % STATES, next_number(seed) % STATES],
        count,
        cost: u64::from(next_number(seed) % 20),
    }
}

fn make_rules(alloc: Global, seed: u64) -> Result<Vec<Made>, AllocError> {
    let mut seed = seed;
    let mut rules = Vec::new(alloc);
    for number in 0..7u32 {
        rules.push(make_rule(&mut seed, number))?;
    }
    Ok(rules)
}

fn sum(left: Option<u64>, right: Option<u64>) -> Option<u64> {
    match (left, right) {
        (Some(left), Some(right)) => Some(left.saturating_add(right)),
        _ => None,
    }
}

fn least(left: Option<u64>, right: Option<u64>) -> Option<u64> {
    match (left, right) {
        (Some(left), Some(right)) => Some(left.min(right)),
        (Some(left), None) => Some(left),
        (None, right) => right,
    }
}

// What a rule costs with the costs of its states, but for one place.
fn cost_but(rule: &Made, costs: &[Option<u64>], place: usize) -> Option<u64> {
    let mut all = Some(rule.cost);
    for (at, state) in rule.below.iter().enumerate() {
        if at < rule.count && at != place {
            all = sum(all, costs.get(*state as usize).copied().flatten());
        }
    }
    all
}

// The least cost of a run from each state whose tree has at most this many levels.
fn costs_within(
    alloc: Global,
    rules: &[Made],
    levels: u32,
) -> Result<Vec<Option<u64>>, AllocError> {
    let mut costs = vec![in alloc; None; STATES as usize]?;
    for _ in 0..levels {
        let before = costs.as_slice().to_vec(alloc)?;
        for rule in rules {
            let cost = cost_but(rule, &before, usize::MAX);
            if let Some(held) = costs.get_mut(rule.left as usize) {
                *held = least(*held, cost);
            }
        }
    }
    Ok(costs)
}

// The least cost of a run from the state 0 with one sub-run from this state left out, at most this
// many levels down.
fn context_cost(rules: &[Made], costs: &[Option<u64>], state: u32, levels: u32) -> Option<u64> {
    let mut best = if state == 0 { Some(0) } else { None };
    if levels == 0 {
        return best;
    }
    for rule in rules {
        for (place, below) in rule.below.iter().enumerate() {
            if place < rule.count && *below == state {
                let above = context_cost(rules, costs, rule.left, levels - 1);
                best = least(best, sum(above, cost_but(rule, costs, place)));
            }
        }
    }
    best
}

// The side of a rule.
fn side_of(alloc: Global, made: &Made) -> Result<Side<u32>, AllocError> {
    if made.count == 0 {
        Side::over(alloc, made.label, &made.below[..0])
    } else if made.count == 1 {
        Side::over(alloc, made.label, &made.below[..1])
    } else {
        Side::over(alloc, made.label, &made.below[..])
    }
}

fn rules_of(alloc: Global, made: &[Made]) -> Result<Vec<Rule<u32>>, AllocError> {
    let mut rules = Vec::new(alloc);
    for one in made {
        let right = side_of(alloc, one)?;
        if let Some(cost) = Cost::new(one.cost) {
            rules.push(Rule {
                left: one.left,
                right,
                cost,
            })?;
        }
    }
    Ok(rules)
}

fn outsides_of(alloc: Global, made: &[Made]) -> Result<Vec<Option<Cost>>, Fail> {
    let rules = rules_of(alloc, made)?;
    let normal = normal_of::<MinPlus>(alloc, STATES as u8, rules)?;
    Ok(outside::<MinPlus>(alloc, &normal)?)
}

// Whether these are the least costs of contexts around each state.
fn are_least(made: &[Made], insides: &[Option<u64>], outsides: &[Option<Cost>]) -> bool {
    for state in 0..STATES {
        let Some(cost) = outsides.get(state as usize) else {
            return false;
        };
        if number_of(cost) != context_cost(made, insides, state, LEVELS) {
            return false;
        }
    }
    outsides.len() == STATES as usize
}

// Whether the outside costs of the rules made from a seed are the least costs of contexts.
fn agrees(alloc: Global, seed: u64) -> Result<bool, Fail> {
    let made = make_rules(alloc, seed)?;
    let insides = costs_within(alloc, &made, LEVELS)?;
    let outsides = outsides_of(alloc, &made)?;
    Ok(are_least(&made, &insides, &outsides))
}

#[test]
fn outside_costs_are_those_of_all_contexts(rt: HostRuntime) -> Result<(), Fail> {
    for seed in 0..300u64 {
        assert!(rt; agrees(rt.alloc(), seed)?);
    }
    Ok(())
}
