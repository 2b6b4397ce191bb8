//! Where an edge of a pair comes from, besides a rule of the first transducer.

use std::marker::Model;

/// A choice of rules of the second transducer for a side, kept as its preorder: the position of a
/// rule at a label, none at a pair, each with the number of choices below it. No value of it is
/// made: it distinguishes edges.
#[derive(Drop)]
pub struct Choice {
    rules: Vec<(Option<u32>, u32)>,
}

impl Model for Choice {
    ghost use Rattle.std.specs.Coded.{coded_ℕ, coded_option};
    ghost use Rattle.std.specs.Prelude.{ℕ, Option};
    ghost use Rattle.tib_tree.specs.Trees.{Trees, trees_code};

    ghost Value = { Trees (Option ℕ) };

    ghost coded = { trees_code (coded_option coded_ℕ) };

    ghost use Rattle.tib_compose.specs.ChoiceView.{choice_of};

    ghost view = { choice_of };
}
