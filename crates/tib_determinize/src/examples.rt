//! Definitions computed on a small grammar.

ghost use Rattle.std.specs.Prelude.{◌≡◌, ◌+◌};
ghost use Rattle.tib_determinize.specs.VectorGrammar.{IsDeterminized};
ghost use Rattle.tib_determinize.specs.Started.{started};
ghost use Rattle.tib_determinize.specs.Examples.{ambiguous, both, determinized, with_start};

/// In min-plus the grammar `0 -> f(1) # 1`, `0 -> f(2) # 3`, `1 -> a # 2`, `2 -> a # 1` reaches two
/// vectors, by `a # 1` and `f(a) # 2`.
pub fn ambiguous_is_determinized()
    ensures { IsDeterminized ◌+◌ ambiguous both determinized }
{}

/// With its fresh start this is `0 -> 2 # 0`, `1 -> a # 1`, `2 -> f(1) # 2`.
pub fn ambiguous_is_started()
    ensures { started both determinized ≡ with_start }
{}
