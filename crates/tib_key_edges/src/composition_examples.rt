// An example for each definition: its value for a small input.
ghost use Rattle.std.specs.Prelude.{◌≡◌, ◌+◌, [], ◌∷◌};
ghost use Rattle.tib_tree.specs.Trees.{none, tree, only};
ghost use Rattle.tib_transducer.specs.Rules.{transducer_rule};
ghost use Rattle.tib_transducer.specs.Range.{AreShaped};
ghost use Rattle.tib_key_edges.specs.Plain.{ArePlain};
ghost use Rattle.tib_key_edges.specs.Translations.{AreTranslations, translated, choice_cost};
ghost use Rattle.tib_key_edges.specs.Composing.{IsComposite};
ghost use Rattle.tib_key_edges.specs.Examples.{copying, turning, composite, at_pair, turned};

/// The translation of F(q.x0 q.x0) by p.F(x0 x1) -> G(p.x1 p.x0) # 1 is G((q p).x0 (q p).x0), at
/// cost 1.
pub fn translations_compute()
    ensures are { AreTranslations turning (0 ∷ []) (only (transducer_rule copying 0).right)
        at_pair }
    ensures side { translated turning (0 ∷ []) (only (transducer_rule copying 0).right) at_pair
        ≡ turned }
    ensures cost { choice_cost ◌+◌ turning at_pair ≡ 1 }
{}

/// The two transducers meet the requirements, and their composite transducer has one state and two
/// rules.
pub fn composites_compute()
    ensures shaped { AreShaped turning }
    ensures plain { ArePlain turning }
    ensures composite { IsComposite ◌+◌ copying turning ((0, 0) ∷ []) composite }
{}
