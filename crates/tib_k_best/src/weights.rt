// What the trees of a list cost in the whole grammar, and their places by cost.
ghost use Rattle.std.specs.Prelude.{◌≡◌, ◌<◌, ◌^◌, length, take, IfOk};
ghost use Rattle.tib_k_best.specs.Weights.{AreByCost, AreNumbered, AreWeights, CostAsListed, HaveCosts, places_from};

use crate::listed::List;
use std::alloc::{AllocError, Global};
use tib_cost::{Cost, Semiring};
use tib_normal::Normal;
use tib_weigh::weigh;

// What each tree of a list costs, in order.
pub(crate) fn weights_of<S: Semiring>(
    alloc: Global,
    normal: &Normal<S>,
    list: &List,
) -> Result<Vec<Cost>, AllocError>
    requires { HaveCosts S.product normal.now.rules list.now }
    ensures { IfOk result (λ v. AreWeights S.product normal.now.rules list.now v.items) }
{
    let mut weights = Vec::with_capacity(alloc, list.len() as usize)?;
    for i in 0..list.len() {
        let tree = list.tree(alloc, i)?;
        let Some(cost) = weigh::<S>(alloc, normal, &tree)? else {
            unreachable!();
        };
        weights.push(cost)?;
    }
    Ok(weights)
}

// The costs in a list, in order.
pub(crate) fn costs_of(alloc: Global, list: &List) -> Result<Vec<Cost>, AllocError>
    ensures long { IfOk result (λ v. length v.items ≡ length list.now) }
    ensures each { IfOk result (λ v. CostAsListed list.now v.items) }
{
    let mut costs = Vec::with_capacity(alloc, list.len() as usize)?;
    for i in 0..list.len() {
        costs.push(list.cost(i))?;
    }
    Ok(costs)
}

// Each cost with its place.
pub(crate) fn numbered(alloc: Global, weights: &[Cost]) -> Result<Vec<(Cost, u32)>, AllocError>
    requires few { length weights.now < 2 ^ 32 }
    ensures { IfOk result (λ v. AreNumbered weights.now (length weights.now) v.items) }
{
    let mut pairs = Vec::with_capacity(alloc, weights.len())?;
    for place in 0..weights.len() {
        pairs.push((weights[place], place as u32))?;
    }
    Ok(pairs)
}

// Each cost with its place, sorted.
pub(crate) fn by_cost(alloc: Global, weights: &[Cost]) -> Result<Vec<(Cost, u32)>, AllocError>
    requires few { length weights.now < 2 ^ 32 }
    ensures { IfOk result (λ v. AreByCost weights.now v.items) }
{
    let mut pairs = numbered(alloc, weights)?;
    pairs.sort()?;
    Ok(pairs)
}

// The places of a cost, ascending.
fn places_of(alloc: Global, weights: &[Cost], cost: Cost) -> Result<Vec<u32>, AllocError>
    requires few { length weights.now < 2 ^ 32 }
    ensures { IfOk result (λ v. v.items ≡ places_from cost 0 weights.now) }
{
    let mut places = Vec::new(alloc);
    for place in 0..weights.len() {
        if weights[place] == cost {
            places.push(place as u32)?;
        }
    }
    Ok(places)
}

// The first places of a cost, as many as are asked for, or all.
pub(crate) fn first_places(
    alloc: Global,
    weights: &[Cost],
    cost: Cost,
    most: usize,
) -> Result<Vec<u32>, AllocError>
    requires few { length weights.now < 2 ^ 32 }
    ensures { IfOk result (λ v. v.items ≡ take most (places_from cost 0 weights.now)) }
{
    let mut places = places_of(alloc, weights, cost)?;
    places.truncate(most);
    Ok(places)
}
