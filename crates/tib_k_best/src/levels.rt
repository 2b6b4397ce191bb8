// The rules of a level, and what the rules cost, in order.
ghost use Rattle.std.specs.Prelude.{◌≡◌, ◌<◌, ◌^◌, length, map, IfOk};
ghost use Rattle.tib_grammar.specs.Forms.{AreNormal, IsNormalSide};
ghost use Rattle.tib_grammar.specs.Sides.{holes};
ghost use Rattle.tib_ranked_trees.specs.Levels.{level};
ghost use Rattle.tib_k_best.specs.Costs.{at_cost, AreCosts};

use std::alloc::{AllocError, Global};
use tib_cost::{Cost, Semiring};
use tib_grammar::{Rule, Side};

// How many states are below a rule.
fn count_of(rule: &Rule<u32>) -> usize
    requires { IsNormalSide rule.now.right }
    ensures many { result ≡ length (holes rule.now.right.kids) }
    ensures few { result < 2 ^ 32 }
{
    let (_label, rank) = rule.root();
    rank as usize
}

// The states below a rule, in order.
fn read_states(rule: &Rule<u32>, states: &mut Vec<u32>) -> Result<(), AllocError>
    requires { IsNormalSide rule.now.right }
    ensures { IfOk result (λ _. states.new.items ≡ holes rule.now.right.kids) }
{
    states.clear();
    let below = rule.states_below();
    for item in below {
        states.push(item.state())?;
    }
    Ok(())
}

// The same rule at another cost.
fn rule_at_cost(
    alloc: Global,
    rule: &Rule<u32>,
    cost: Cost,
    states: &mut Vec<u32>,
) -> Result<Rule<u32>, AllocError>
    requires { IsNormalSide rule.now.right }
    ensures { IfOk result (λ r. r ≡ at_cost cost rule.now) }
{
    count_of(rule);
    rule.right.items();
    read_states(rule, states)?;
    let (label, _rank) = rule.root();
    let right = Side::over(alloc, label, states)?;
    Ok(Rule {
        left: rule.left,
        right,
        cost,
    })
}

// A copy of the rules.
pub(crate) fn copied_rules(alloc: Global, rules: &[Rule<u32>]) -> Result<Vec<Rule<u32>>, AllocError>
    requires { AreNormal rules.now }
    ensures { IfOk result (λ v. v.items ≡ rules.now) }
{
    let mut states = Vec::new(alloc);
    let mut copies = Vec::with_capacity(alloc, rules.len())?;
    for rule in rules {
        copies.push(rule_at_cost(alloc, rule, rule.cost, &mut states)?)?;
    }
    Ok(copies)
}

/// The rules of a level: those that cost no more, each at no cost. Err only if memory is refused.
/// Worst case: one pass over the rules.
pub fn level_rules<S: Semiring>(
    alloc: Global,
    rules: &[Rule<u32>],
    cost: Cost,
) -> Result<Vec<Rule<u32>>, AllocError>
    requires { AreNormal rules.now }
    ensures { IfOk result (λ v. v.items ≡ level cost rules.now) }
{
    let mut states = Vec::new(alloc);
    let mut free = Vec::new(alloc);
    for rule in rules {
        if rule.cost > cost {
            continue;
        }
        free.push(rule_at_cost(alloc, rule, S::one(), &mut states)?)?;
    }
    Ok(free)
}

// What each rule costs, in order.
fn costs_of(alloc: Global, rules: &[Rule<u32>]) -> Result<Vec<Cost>, AllocError>
    ensures { IfOk result (λ v. v.items ≡ map (λ r. r.cost) rules.now) }
{
    let mut costs = Vec::with_capacity(alloc, rules.len())?;
    for rule in rules {
        costs.push(rule.cost)?;
    }
    Ok(costs)
}

/// The costs of the rules, ascending, one for each rule. Err only if memory is refused. Worst case:
/// O(r log r) steps for r rules.
pub fn sorted_costs(alloc: Global, rules: &[Rule<u32>]) -> Result<Vec<Cost>, AllocError>
    ensures { IfOk result (λ v. AreCosts rules.now v.items) }
{
    let mut costs = costs_of(alloc, rules)?;
    costs.sort()?;
    Ok(costs)
}
