//! What the definitions give on a small transducer and the string u u v.
ghost use Rattle.std.specs.Prelude.{◌≡◌, ℕ, ◌+◌, max, List, [], ◌∷◌};
ghost use Rattle.tib_tree.specs.Trees.{only};
ghost use Rattle.tib_grammar.specs.Sides.{over};
ghost use Rattle.tib_lex.specs.Lists.{total};
ghost use Rattle.tib_strings.specs.Run.{AreStringRuns, StringRunsRead, strings, string_cost};
ghost use Rattle.tib_strings.specs.Cuts.{IsCut, spans};
ghost use Rattle.tib_image.specs.ParseOperation.{edge_parts};
ghost use Rattle.tib_strings.specs.CutLists.{cuts_of};
ghost use Rattle.tib_image.specs.ParseEdges.{edges_of};
ghost use Rattle.tib_image.specs.ParseExamples.{two_pairs, spelling, sentence, spelled, spelling_run};

/// A run, what it reads, puts out and costs.
pub fn string_runs_compute()
    ensures run { AreStringRuns spelling (0 ∷ []) spelling_run }
    ensures reads { StringRunsRead spelling spelling_run (only spelled) }
    ensures output { strings spelling spelling_run ≡ sentence ∷ [] }
    ensures sum { string_cost ◌+◌ spelling spelling_run ≡ 3 }
    ensures greatest { string_cost max spelling spelling_run ≡ 2 }
{}

/// Cuts, and the edges of keys: four of the start, one of the first word, one of the two others,
/// none of the last word.
pub fn edges_compute()
    ensures cuts { cuts_of sentence two_pairs 0 3 ≡ (0 ∷ 3 ∷ []) ∷ (1 ∷ 3 ∷ []) ∷ (2 ∷ 3 ∷ []) ∷
        (3 ∷ 3 ∷ []) ∷ [] }
    ensures spans { spans two_pairs 0 (1 ∷ 3 ∷ []) ≡ (0, 1) ∷ (1, 3) ∷ [] }
    ensures start { total edge_parts (edges_of spelling sentence (0, 0, 3, 0)) ≡ 16 }
{}
