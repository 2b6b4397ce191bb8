// What holds for trimmed grammars and normal forms.
ghost use Rattle.std.specs.Prelude.{ℕ, List};
ghost use Rattle.tib_grammar.specs.Forms.{IsDeterministic};
ghost use Rattle.tib_grammar.specs.Range.{SidesEndInHoles};
ghost use Rattle.tib_grammar.specs.declared.Rule.{Rule};
ghost use Rattle.tib_k_best.specs.Trimmed.{TrimmedHasTrees};
ghost use Rattle.tib_normal.specs.NormalForm.{IsNormalForm};
ghost use Rattle.tib_ranked_trees.specs.Below.{IsDeterministicBelow};

use tib_cost::Semiring;

/// Each state below a rule of a trimmed grammar in normal form has a tree, as `k_best` requires.
pub fn trimmed_has_trees<S: Semiring>()
    ensures { TrimmedHasTrees S.product }
{}

/// A grammar in deterministic form is deterministic below the root, as `lazy_k_best` requires. So
/// is its normal form, which has no chain rules: there the start shares right-hand sides with the
/// states to which its chain rules led, as in what `determinize` gives.
pub fn deterministic_below<S: Semiring>()
    ensures itself { (rules : List (Rule ℕ)) → IsDeterministic rules → IsDeterministicBelow rules }
    ensures normal { (states : ℕ) (rules : List (Rule ℕ)) → SidesEndInHoles rules →
        IsDeterministic rules → (more : ℕ) (new : List (Rule ℕ)) →
        IsNormalForm S.product states rules more new → IsDeterministicBelow new }
{}
