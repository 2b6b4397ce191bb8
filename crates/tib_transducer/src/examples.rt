// An example for each definition: what it gives on a small transducer.
ghost use Rattle.std.specs.Prelude.{◌≡◌, ◌+◌, ℕ, max, [], ◌∷◌, Some, None};
ghost use Rattle.tib_tree.specs.Trees.{none, tree, only};
ghost use Rattle.tib_transducer.specs.Rules.{transducer_rule, variable_at, states_in, variables_in};
ghost use Rattle.tib_transducer.specs.Run.{pick, AreTransducerRuns, Reads, outputs, transducer_cost};
ghost use Rattle.tib_transducer.specs.Series.{IsTransducerSeries};
ghost use Rattle.tib_transducer.specs.Range.{AreShaped, AreWithin, EndInHoles};
ghost use Rattle.tib_grammar.specs.Sides.{labels_in};
ghost use Rattle.tib_transducer.specs.Classes.{AreLinear, IsNondeleting, OneIsExtended, IsLabelled, OneIsLabelled};
ghost use Rattle.tib_transducer.specs.Examples.{first_parts, run, sentence, two_nouns, image};

/// The variables and pairs of the first rule, and the shape of all three.
pub fn rules_compute()
    ensures variable { variable_at (transducer_rule first_parts 0).left 1
        ≡ record { number = 1; label = Some 2 } }
    ensures states { states_in (transducer_rule first_parts 0).right ≡ 0 ∷ [] }
    ensures variables { variables_in (transducer_rule first_parts 0).right ≡ 0 ∷ [] }
    ensures shaped { AreShaped first_parts }
    ensures within { AreWithin 1 first_parts }
    ensures leaves { EndInHoles first_parts }
{}

/// A run, what it reads, what it outputs and what it costs. The label VP of the second variable
/// keeps it from S(NP(a) NP(a)).
pub fn runs_compute()
    ensures run { AreTransducerRuns first_parts (0 ∷ []) run }
    ensures picked { pick {A = ℕ} (tree 1 none (tree 2 none none)) (1 ∷ []) ≡ tree 2 none none }
    ensures reads { Reads first_parts run (only sentence) }
    ensures reads_no_other { Reads first_parts run (only two_nouns) → ⊥ }
    ensures output { outputs first_parts run ≡ only image }
    ensures sum { transducer_cost ◌+◌ first_parts run ≡ 1 }
    ensures greatest { transducer_cost max first_parts run ≡ 1 }
{}

/// The series: S(NP(a) VP(a)) becomes Z(n) at cost 1, and S(NP(a) NP(a)) becomes nothing.
pub fn series_compute()
    ensures sum { IsTransducerSeries ◌+◌ first_parts sentence image (Some 1) }
    ensures none { IsTransducerSeries ◌+◌ first_parts two_nouns image None }
{}

/// The classes: all rules are linear, the first leaves its second variable out and is labelled, and
/// none is extended.
pub fn classes_compute()
    ensures labels { labels_in (only (transducer_rule first_parts 0).left) ≡ 1 }
    ensures linear { AreLinear first_parts }
    ensures deleting { IsNondeleting (transducer_rule first_parts 0) → ⊥ }
    ensures labelled { IsLabelled (transducer_rule first_parts 0) }
    ensures one_labelled { OneIsLabelled first_parts }
    ensures not_extended { OneIsExtended first_parts → ⊥ }
{}
