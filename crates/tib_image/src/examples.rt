//! What the definitions give on a small transducer that copies, and one tree.
ghost use Rattle.std.specs.Prelude.{◌≡◌, List, [], ◌∷◌, ◌+◌, map, Some, None};
ghost use Rattle.tib_expand.specs.Reached.{parts_of};
ghost use Rattle.tib_grammar.specs.GrammarOf.{named_rule};
ghost use Rattle.tib_key_edges.specs.Ends.{key_at};
ghost use Rattle.tib_transducer.specs.Rules.{transducer_rule};
ghost use Rattle.tib_image.specs.Nodes.{MatchesAt, nodes_of};
ghost use Rattle.tib_image.specs.Image.{image_of};
ghost use Rattle.tib_image.specs.Examples.{copying, one_tree, both, outputs};

/// The first rule matches at the root, where its variable is at the leaf, and not at the leaf; two
/// keys with three edges have fourteen parts.
pub fn images_compute()
    ensures root { MatchesAt (transducer_rule copying 0).left one_tree 0 }
    ensures nodes { nodes_of (transducer_rule copying 0).left one_tree 0 ≡ 1 ∷ [] }
    ensures leaf { MatchesAt (transducer_rule copying 1).left one_tree 1 }
    ensures elsewhere { MatchesAt (transducer_rule copying 0).left one_tree 1 → ⊥ }
    ensures parts { parts_of (image_of copying one_tree) both
        (map (named_rule (key_at both)) outputs) ≡ 14 }
{}
