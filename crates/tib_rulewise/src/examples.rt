// An example for each definition: what it gives on a small grammar and on a rule of a transducer.
ghost use Rattle.std.specs.Prelude.{◌≡◌, ◌+◌, [], ◌∷◌};
ghost use Rattle.tib_grammar.specs.Run.{rule_at};
ghost use Rattle.tib_rulewise.specs.Derivations.{rule_text, derivation_rule};
ghost use Rattle.tib_rulewise.specs.DerivationSeries.{IsDerivationCost};
ghost use Rattle.tib_rulewise.specs.Inverse.{inverse_rule};
ghost use Rattle.tib_rulewise.specs.Invertible.{IsInvertible};
ghost use Rattle.tib_rulewise.specs.Examples.{table, three_rules, first_derived, derivation, yielded, crossing, crossed, lone_rule};

/// The text of a rule's label, the rule of the derivations that begin with the first rule, and a
/// derivation with its cost.
pub fn derivations_compute()
    ensures text { rule_text 12 ≡ 114 ∷ (49 ∷ (50 ∷ [])) }
    ensures rule { derivation_rule 5 (rule_at three_rules 0) ≡ first_derived }
    ensures cost { IsDerivationCost ◌+◌ table three_rules 0 derivation yielded 6 }
{}

/// The inverse of a rule whose variables cross, and back again; and a rule that has no inverse.
pub fn inverses_compute()
    ensures there { inverse_rule crossing ≡ crossed }
    ensures back { inverse_rule crossed ≡ crossing }
    ensures invertible { IsInvertible crossing }
    ensures lone { IsInvertible lone_rule → ⊥ }
{}
