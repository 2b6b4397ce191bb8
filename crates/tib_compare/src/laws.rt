//! What holds of comparisons.
ghost use Rattle.tib_compare.specs.Beside.{SideBySideKeepsBoth};
ghost use Rattle.tib_compare.specs.Compared.{ExcludesTooLarge, HasOneAnswer};

/// Two grammars have one comparison.
pub fn an_answer_is_the_only_one()
    ensures { HasOneAnswer }
{}

/// Side by side each grammar has its series at its own states.
pub fn side_by_side_keeps_both_series()
    ensures { SideBySideKeepsBoth }
{}

/// A comparison excludes that the least tree that has a cost in exactly one is too large.
pub fn an_answer_is_not_too_large()
    ensures { ExcludesTooLarge }
{}
