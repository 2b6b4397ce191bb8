// What holds of the runs of every transducer, in every semiring.
ghost use Rattle.std.specs.Prelude.{◌↔◌, ℕ, List, ◌∷◌};
ghost use Rattle.tib_lex.specs.Lists.{Has};
ghost use Rattle.tib_transducer.specs.Series.{HasOneSeries, HasCheaper, Covers, HaveSameSeries};
ghost use Rattle.tib_transducer.specs.declared.TransducerRule.{TransducerRule};

use tib_cost::Semiring;

/// A transducer gives two trees at most one cost, from each state.
pub fn one_cost<S: Semiring>()
    ensures { (rules : List (TransducerRule ℕ)) → HasOneSeries S.product rules }
{}

/// Two transducers have the same series where each has a rule as cheap for every rule of the other.
pub fn covering_keeps_the_series<S: Semiring>()
    ensures { (one two : List (TransducerRule ℕ)) → Covers two one → Covers one two →
        HaveSameSeries S.product one two }
{}

/// The series does not depend on the order of the rules, nor on how often a rule occurs.
pub fn order_is_free<S: Semiring>()
    ensures { (one two : List (TransducerRule ℕ)) →
        ((r : TransducerRule ℕ) → Has one r ↔ Has two r) → HaveSameSeries S.product one two }
{}

/// The series does not depend on a rule that another one undercuts: one with the same state and
/// sides that costs no more.
pub fn dearer_rule_is_free<S: Semiring>()
    ensures { (rules : List (TransducerRule ℕ)) (r : TransducerRule ℕ) → HasCheaper rules r →
        HaveSameSeries S.product (r ∷ rules) rules }
{}
