// An example for each definition of the field: what it gives on a small value.
ghost use Rattle.std.specs.Prelude.{◌≡◌, ◌⊎◌, ℕ, ◌+◌, max, List, [], ◌∷◌, Some, None};
ghost use Rattle.tib_cost.specs.Semiring.{most};
ghost use Rattle.tib_cost.specs.Least.{IsLeast, lesser, times};
ghost use Rattle.tib_tree.specs.Trees.{none, tree, only, size, preorder_of};
ghost use Rattle.tib_tree.specs.Growth.{text_at, texts, HasLabels};
ghost use Rattle.tib_grammar.specs.Sides.{label, hole, HolesAreLeaves, holes_of, fill, leaves, over, Lone};
ghost use Rattle.tib_grammar.specs.Run.{rule_at, AreRuns, yields, cost};
ghost use Rattle.tib_grammar.specs.Series.{IsSeriesAt, IsSeries};
ghost use Rattle.tib_grammar.specs.Forms.{AreNormal, IsNormalSide};
ghost use Rattle.tib_normal.specs.NormalForm.{IsChain, chain_cost, IsDistance, heads, inner_rules, all_inner, first_inner, rule_parts, normal_parts, IsNormalForm};
ghost use Rattle.tib_weigh.specs.Examples.{table, pair, side, binary, run, two_ways, nested_side, nested, places, normal_rules};

/// Trees, and the texts of their labels.
pub fn trees_compute()
    ensures size { size pair ≡ 3 }
    ensures preorder { preorder_of pair ≡ (0, 2) ∷ (1, 0) ∷ (1, 0) ∷ [] }
    ensures label { text_at table 1 ≡ 97 ∷ [] }
    ensures texts { texts table (only pair) ≡ tree (83 ∷ [])
        (tree (97 ∷ []) none (tree (97 ∷ []) none none)) none }
    ensures labels { HasLabels table pair }
{}

/// Sides, what their holes carry, and what is in place of the holes.
pub fn sides_compute()
    ensures holes { holes_of side ≡ 0 ∷ 1 ∷ [] }
    ensures fill { fill (only side) (tree 1 none (tree 2 none none))
        ≡ tree 0 (tree 1 none (tree 1 (tree 2 none none) none)) none }
    ensures over { over {A = ℕ} {P = ℕ} 1 (3 ∷ 4 ∷ []) ≡ record
        { label = label 1; kids = tree (hole 3) none (tree (hole 4) none none) } }
    ensures lone { holes_of {A = ℕ} {P = ℕ} (Lone 5) ≡ 5 ∷ [] }
    ensures leaves { HolesAreLeaves (only side) }
    ensures no_leaf { HolesAreLeaves {A = ℕ} {P = ℕ} (tree (hole 0) (leaves (1 ∷ [])) none) → ⊥ }
{}

/// The least cost of a set, the sum and the product of costs.
pub fn costs_compute()
    ensures least { IsLeast (λ n. (n ≡ 5) ⊎ (n ≡ 3)) (Some 3) }
    ensures no_least { IsLeast (λ n. n ≡ most + 1) None }
    ensures lesser { lesser (Some 5) (Some 3) ≡ Some 3 }
    ensures lesser_none { lesser None (Some 5) ≡ Some 5 }
    ensures sum { times ◌+◌ (Some 2) (Some 3) ≡ Some 5 }
    ensures greater { times max (Some 2) (Some 3) ≡ Some 3 }
    ensures cut { times ◌+◌ (Some most) (Some 1) ≡ None }
{}

/// A run, what it yields and what it costs.
pub fn runs_compute()
    ensures run { AreRuns binary (0 ∷ []) run }
    ensures yields { yields binary run ≡ only pair }
    ensures sum { cost ◌+◌ binary run ≡ 5 }
    ensures greatest { cost max binary run ≡ 2 }
{}

/// The series: of two runs that yield S(a a), at 7 and at 5 by their sums, the cheaper one gives
/// it.
pub fn series_compute()
    ensures normal { AreNormal two_ways }
    ensures sum { IsSeries ◌+◌ two_ways pair (Some 5) }
    ensures greatest { IsSeries max two_ways pair (Some 2) }
    ensures none { IsSeries ◌+◌ two_ways (record { label = 1; kids = none }) None }
    ensures at_a_state { IsSeriesAt ◌+◌ two_ways 2 (record { label = 1; kids = none }) (Some 2) }
{}

/// The normal form of rules with a nested side and a chain rule, step by step.
pub fn normal_forms_compute()
    ensures not_normal { IsNormalSide nested_side → ⊥ }
    ensures chain { IsChain nested 0 (1 ∷ []) 1 }
    ensures chain_cost { chain_cost ◌+◌ nested (1 ∷ []) ≡ 1 }
    ensures distance { IsDistance ◌+◌ nested 0 1 (Some 1) }
    ensures heads { heads 2 nested_side.kids ≡ leaves (2 ∷ 0 ∷ []) }
    ensures inner_rules { inner_rules 2 nested_side.kids ≡ places }
    ensures all_inner { all_inner 2 nested ≡ places }
    ensures first_inner { first_inner 2 nested 1 ≡ 4 }
    ensures rule_parts { rule_parts (rule_at normal_rules 0) ≡ 4 }
    ensures normal_parts { normal_parts 4 normal_rules ≡ 17 }
    ensures normal_form { IsNormalForm ◌+◌ 2 nested 4 normal_rules }
{}
