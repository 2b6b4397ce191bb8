// What a match is.
use smallvec::SmallVec;
use std::marker::Model;
use tib_cost::Cost;

/// A list of states at the holes of a side, and what it costs to run a grammar down to them.
#[derive(Drop)]
pub struct Match {
    /// The cost.
    pub cost: Cost,
    /// The states at the holes, in preorder.
    pub states: SmallVec<u32, 4>,
}

impl Model for Match {
    ghost use Rattle.std.specs.Prelude.{ℕ, List};
    ghost use Rattle.std.specs.Coded.{coded×, coded_list, coded_ℕ};
    ghost use Rattle.tib_match.specs.MatchView.{match_of};

    ghost Value = { List ℕ × ℕ };

    ghost coded = { coded× (coded_list coded_ℕ) coded_ℕ };

    ghost view = { match_of };
}
