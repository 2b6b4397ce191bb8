//! From the costs of states to the least one and the residuals over it.

ghost use Rattle.std.specs.Prelude.{◌≡◌, ◌≤◌, [], None, IfOk, IfNone, IfSome};
ghost use Rattle.tib_lex.specs.Lists.{Each, Along};
ghost use Rattle.tib_determinize.specs.Settling.{AreLeastCosts, AreResiduals, IsOver, least_from, lesser_with};

use crate::vector::Vector;
use std::alloc::{AllocError, Global};
use tib_cost::{Cost, Semiring};

/// What a label over some vectors steps to: the least cost, and the vector of the residuals over
/// it.
#[derive(Drop)]
pub(crate) struct Step {
    pub cost: Cost,
    pub vector: Vector,
}

// The lesser of two costs, of which the first may be none.
fn lesser(least: Option<Cost>, cost: Cost) -> Cost
    ensures { result ≡ lesser_with least cost }
{
    match least {
        None => cost,
        Some(other) => {
            if cost.get() < other.get() {
                cost
            } else {
                other
            }
        }
    }
}

// The least of some costs.
fn least_cost(costs: &[(u32, Cost)]) -> Option<Cost>
    ensures { result ≡ least_from None costs.now }
{
    let mut least: Option<Cost> = None;
    for (_, cost) in costs {
        least = Some(lesser(least, *cost));
    }
    least
}

// The states that have a cost, ascending, each at its least one.
fn least_costs(alloc: Global, costs: Vec<(u32, Cost)>) -> Result<Vec<(u32, Cost)>, AllocError>
    ensures { IfOk result (λ kept. AreLeastCosts costs.items kept.items) }
{
    let mut costs = costs;
    costs.sort()?;
    let mut kept = Vec::with_capacity(alloc, costs.len())?;
    let mut previous: Option<u32> = None;
    for (state, cost) in costs {
        if previous == Some(state) {
            continue;
        }
        previous = Some(state);
        kept.push((state, cost))?;
    }
    Ok(kept)
}

// The residuals of some costs over a cost that is above none of them.
fn residuals<S: Semiring>(
    alloc: Global,
    costs: &[(u32, Cost)],
    least: Cost,
) -> Result<Vec<(u32, Cost)>, AllocError>
    requires { Each (λ x. least ≤ x.1) costs.now }
    ensures { IfOk result (λ over. Along (IsOver S.product least) costs.now over.items) }
{
    let mut over = Vec::with_capacity(alloc, costs.len())?;
    for i in 0..costs.len() {
        let entry = &costs[i];
        over.push((entry.0, S::residual(entry.1, least)))?;
    }
    Ok(over)
}

/// The step that these costs of states give, and none where there are none.
pub(crate) fn settle<S: Semiring>(
    alloc: Global,
    costs: Vec<(u32, Cost)>,
) -> Result<Option<Step>, AllocError>
    ensures none { IfOk result (λ step. IfNone step (costs.items ≡ [])) }
    ensures some { IfOk result (λ step. IfSome step (λ s. AreResiduals S.product costs.items s.cost
        s.vector)) }
{
    let Some(cost) = least_cost(&costs) else {
        return Ok(None);
    };
    let kept = least_costs(alloc, costs)?;
    let over = residuals::<S>(alloc, &kept, cost)?;
    Ok(Some(Step {
        cost,
        vector: Vector::new(over),
    }))
}
