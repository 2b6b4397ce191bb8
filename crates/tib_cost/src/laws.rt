// What holds of costs in every semiring.
ghost use Rattle.std.specs.Prelude.{◌≡◌, ℕ, ◌<◌, ◌≤◌, max, true, false, Option, None, Some, IfSome};
ghost use Rattle.tib_cost.specs.Scale.{cost_in, weight_in};
ghost use Rattle.tib_cost.specs.Semiring.{most, IsResidual, HasResidual};
ghost use Rattle.tib_cost.specs.Least.{times, lesser, IsNoGreater, IsBelow, IsCut};

use crate::Semiring;

/// The order of two factors is free.
pub fn times_commutes<S: Semiring>()
    ensures { (v w : Option ℕ) → times S.product v w ≡ times S.product w v }
{}

/// A product of three factors may be grouped either way, even though each product is cut.
pub fn times_regroups<S: Semiring>()
    ensures { (u v w : Option ℕ) → times S.product (times S.product u v) w
        ≡ times S.product u (times S.product v w) }
{}

/// A product with none is none.
pub fn none_absorbs<S: Semiring>()
    ensures left { (v : Option ℕ) → times S.product None v ≡ None }
    ensures right { (v : Option ℕ) → times S.product v None ≡ None }
{}

/// The cost 0, which `one` gives, changes no cost.
pub fn one_is_neutral<S: Semiring>()
    ensures { (v : Option ℕ) → IsCut v → times S.product (Some 0) v ≡ v }
{}

/// A greater factor gives no lesser product, and none is greater than every cost.
pub fn times_grows<S: Semiring>()
    ensures { (u v w : Option ℕ) → IsNoGreater v w →
        IsNoGreater (times S.product u v) (times S.product u w) }
{}

/// A product is at least each of its factors.
pub fn times_is_at_least<S: Semiring>()
    ensures first { (a b : ℕ) → IfSome (times S.product (Some a) (Some b)) (λ c. a ≤ c) }
    ensures second { (a b : ℕ) → IfSome (times S.product (Some a) (Some b)) (λ c. b ≤ c) }
{}

/// In a levelled semiring a product is the greater factor.
pub fn times_is_greater<S: Semiring>()
    ensures { S.LEVELLED ≡ true → (a b : ℕ) → a ≤ most → b ≤ most →
        times S.product (Some a) (Some b) ≡ Some (max a b) }
{}

/// In a weighted semiring that is not levelled a lesser factor gives a lesser product.
pub fn times_is_strict<S: Semiring>()
    ensures { S.LEVELLED ≡ false → S.WEIGHTED ≡ true → (a b c : ℕ) → b < c →
        IfSome (times S.product (Some a) (Some c))
        (λ d. IsBelow (times S.product (Some a) (Some b)) d) }
{}

/// The product with the lesser of two costs is the lesser of the products.
pub fn times_distributes<S: Semiring>()
    ensures { (u v w : Option ℕ) → times S.product u (lesser v w)
        ≡ lesser (times S.product u v) (times S.product u w) }
{}

/// A residual exists wherever `residual` may be called.
pub fn residual_exists<S: Semiring>()
    ensures { (a m : ℕ) → m ≤ a → HasResidual S.product a m }
{}

/// The residual of a cost is the least cost whose product with the other one is that cost.
pub fn residual_is_least<S: Semiring>()
    ensures gives { (a m r : ℕ) → a ≤ most → IsResidual S.product a m r →
        times S.product (Some m) (Some r) ≡ Some a }
    ensures least { (a m r s : ℕ) → IsResidual S.product a m r →
        times S.product (Some m) (Some s) ≡ Some a → r ≤ s }
{}

/// A weight and its cost determine each other, and both are at most `MOST`.
pub fn weights_are_costs<S: Semiring>()
    ensures weight { (w : ℕ) → w ≤ most → weight_in S.SCALE (cost_in S.SCALE w) ≡ w }
    ensures cost { (c : ℕ) → c ≤ most → cost_in S.SCALE (weight_in S.SCALE c) ≡ c }
    ensures within { (w : ℕ) → w ≤ most → cost_in S.SCALE w ≤ most }
{}
