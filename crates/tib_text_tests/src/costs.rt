// Costs, products, residuals and weights of each semiring.
ghost use Rattle.std.specs.Prelude.{◌≤◌};

use tib_cost::{Boolean, Bottleneck, Cost, MOST, MinPlus, Scale, Semiring, Widest};

fn number(cost: Option<Cost>) -> Option<u64> {
    match cost {
        Some(cost) => Some(cost.get()),
        None => None,
    }
}

// Whether the greatest cost is this number, and the next number is no cost.
fn ends_at(most: u64) -> bool {
    number(Cost::new(MOST)) == Some(most) && number(Cost::new(MOST + 1)).is_none()
}

#[test]
fn costs_end_at_the_greatest(rt: HostRuntime) {
    assert!(rt; ends_at(1_000_000_000_000_000));
}

fn ones() -> [u64; 4] {
    [
        MinPlus::one().get(),
        Bottleneck::one().get(),
        Widest::one().get(),
        Boolean::one().get(),
    ]
}

#[test]
fn each_one_is_no_cost(rt: HostRuntime) {
    assert!(rt; ones() == [0, 0, 0, 0]);
}

fn products_of(zero: Cost, one: Cost, four: Cost, five: Cost, most: Cost) -> [Option<u64>; 5] {
    [
        number(MinPlus::times(most, zero)),
        number(MinPlus::times(most, one)),
        number(Bottleneck::times(four, five)),
        number(Widest::times(four, five)),
        number(Boolean::times(zero, zero)),
    ]
}

// Whether these are the products of 0, 1, 4, 5 and the greatest cost; none where one of those is no
// cost.
fn are_products(wanted: [Option<u64>; 5]) -> Option<bool> {
    let (zero, one, most) = (Cost::new(0)?, Cost::new(1)?, Cost::new(MOST)?);
    let (four, five) = (Cost::new(4)?, Cost::new(5)?);
    Some(products_of(zero, one, four, five, most) == wanted)
}

#[test]
fn products(rt: HostRuntime) {
    let found = are_products([Some(MOST), None, Some(5), Some(5), Some(0)]);
    assert!(rt; found == Some(true));
}

fn residuals_of(zero: Cost, three: Cost, five: Cost) -> [u64; 5]
    requires { three ≤ five }
{
    [
        MinPlus::residual(five, three).get(),
        Bottleneck::residual(five, three).get(),
        Bottleneck::residual(five, five).get(),
        Widest::residual(five, three).get(),
        Boolean::residual(zero, zero).get(),
    ]
}

// Whether these are the residuals of 0, 3 and 5; none where one of those is no cost.
fn are_residuals(wanted: [u64; 5]) -> Option<bool> {
    let (zero, three, five) = (Cost::new(0)?, Cost::new(3)?, Cost::new(5)?);
    Some(three.get() <= five.get() && residuals_of(zero, three, five) == wanted)
}

#[test]
fn residuals(rt: HostRuntime) {
    assert!(rt; are_residuals([2, 5, 0, 5, 0]) == Some(true));
}

// The costs and the weights of the numbers 0, 3 and the greatest.
fn costs_and_weights(zero: Cost, three: Cost, most: Cost) -> [u64; 7] {
    [
        Widest::cost(most).get(),
        Widest::cost(three).get(),
        Widest::weight(zero).get(),
        MinPlus::cost(three).get(),
        Bottleneck::weight(three).get(),
        Boolean::cost(zero).get(),
        Boolean::weight(zero).get(),
    ]
}

// Whether these are the costs and the weights of those numbers; none where one of them is no cost.
fn are_costs_and_weights(wanted: [u64; 7]) -> Option<bool> {
    let (zero, three, most) = (Cost::new(0)?, Cost::new(3)?, Cost::new(MOST)?);
    Some(costs_and_weights(zero, three, most) == wanted)
}

#[test]
fn the_greatest_weight_is_the_least_cost(rt: HostRuntime) {
    let found = are_costs_and_weights([0, 999_999_999_999_997, MOST, 3, 3, 0, 0]);
    assert!(rt; found == Some(true));
}

#[test]
fn widest_has_weights_and_boolean_has_none(rt: HostRuntime) {
    assert!(rt; Widest::SCALE.is_weighted() && !Boolean::SCALE.is_weighted());
}
