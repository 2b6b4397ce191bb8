// The lists of the states, and the candidates that were made.
ghost use Rattle.std.specs.Prelude.{◌≡◌, ◌<◌, [], length};
ghost use Rattle.std.proofs.Common.{get_or};
ghost use Rattle.tib_ranked_trees.specs.Held.{entry_at};

use crate::shared::Shared;
use std::marker::Model;
use tib_cost::Cost;
use tib_grammar::Rule;
use tib_tree::Labels;

/// A tree on the list of a state, with its cost and the candidate that it came from.
#[derive(Clone, Copy, Debug)]
pub struct Entry {
    /// The tree's number.
    pub tree: u32,
    /// What it costs.
    pub cost: Cost,
    /// The candidate's number.
    pub candidate: u32,
}

/// A rule with a rank for each state below it. The ranks are in one list, from `start` on.
#[derive(Clone, Copy, Debug)]
pub struct Candidate {
    /// The rule's place.
    pub rule: u32,
    /// Where its ranks begin.
    pub start: usize,
    /// What its tree costs.
    pub cost: Cost,
    /// How many nodes its tree has.
    pub size: u64,
}

/// The lists of all states, each from its best tree on, with the candidates that were made.
#[derive(Drop)]
pub struct Lists<'a> {
    pub(crate) rules: &'a [Rule<u32>],
    pub(crate) labels: &'a Labels,
    pub(crate) label_ranks: &'a [u32],
    pub(crate) trees: Shared,
    pub(crate) lists: Vec<Vec<Entry>>,
    pub(crate) candidates: Vec<Candidate>,
    pub(crate) ranks: Vec<u32>,
}

impl<'a> Model for Lists<'a> {
    ghost use Rattle.std.specs.Prelude.{map};
    ghost use Rattle.tib_ranked_trees.specs.ListsOf.{ListsOf, items_of, lists_code};

    ghost Value = { ListsOf };

    ghost coded = { lists_code };

    ghost view = { λ x. record {
      rules = x.rules.now;
      labels = x.labels.now;
      label_ranks = x.label_ranks.now;
      trees = x.trees;
      lists = map items_of x.lists.items;
      candidates = x.candidates.items;
      ranks = x.ranks.items;
    } };
}

impl<'a> Lists<'a> {
    /// The entry of a state with a rank, from 0 and below the length of its list.
    pub fn entry(&self, state: u32, rank: u32) -> &Entry
        requires state { state < length self.now.lists }
        requires rank { rank < length (get_or self.now.lists state []) }
        ensures { result.now ≡ entry_at self.now state rank }
    {
        &self.lists[state as usize][rank as usize]
    }
}
