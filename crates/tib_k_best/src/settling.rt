// First trees, state by state, the least candidate first (Knuth 1977).
ghost use Rattle.std.specs.Prelude.{◌≡◌, ◌<◌, ◌≤◌, length, OnOk, IfErr};
ghost use Rattle.tib_ranked_trees.specs.Levels.{IsOrderly};
ghost use Rattle.tib_ranked_trees.specs.Held.{candidate_at, IsCandidate, IsSound};
ghost use Rattle.tib_k_best.specs.Causes.{IsCause};
ghost use Rattle.tib_k_best.specs.Queues.{left_over, IsListed, IsSettled, IsTaken};

use crate::error::KBestError;
use crate::queue::Queue;
use std::alloc::{AllocError, Global};
use tib_cost::Semiring;
use tib_ranked_trees::{Entry, Lists};

// The most nodes that a listed tree may have.
const MOST_NODES: u64 = tib_tree::MOST_NODES as u64;

// Appends the tree of a candidate to the list of its state.
fn list(alloc: Global, lists: &mut Lists, candidate: u32) -> Result<(), AllocError>
    requires sound { IsSound lists.old }
    requires below { candidate < length lists.old.candidates }
    requires is { IsCandidate lists.old (candidate_at lists.old candidate) }
    ensures { OnOk result (IsListed lists.old candidate lists.new) }
{
    let rule = lists.candidate(candidate).rule;
    let start = lists.candidate(candidate).start;
    let cost = lists.candidate(candidate).cost;
    let state = lists.left(rule);
    let tree = lists.tree_of(alloc, rule, start)?;
    lists.place(
        state,
        Entry {
            tree,
            cost,
            candidate,
        },
    )
}

impl Queue {
    // Gives the state of the least candidate its first tree, if it has none yet.
    pub(crate) fn settle<S: Semiring>(
        &mut self,
        alloc: Global,
        lists: &mut Lists,
        candidate: u32,
    ) -> Result<(), KBestError>
        requires orderly { IsOrderly S.product lists.old.rules }
        requires taken { IsTaken S.product lists.old candidate self.old }
        ensures settled { OnOk result (IsSettled S.product lists.new self.new) }
        ensures rules { OnOk result (lists.new.rules ≡ lists.old.rules) }
        ensures labels { OnOk result (lists.new.labels ≡ lists.old.labels) }
        ensures states { OnOk result (length lists.new.lists ≡ length lists.old.lists) }
        ensures less { OnOk result (left_over self.new ≤ left_over self.old) }
        ensures cause { IfErr result (IsCause S.product lists.old.labels lists.old.rules 1) }
    {
        let state = lists.left(lists.candidate(candidate).rule);
        if lists.len(state) > 0 {
            return Ok(());
        }
        if lists.candidate(candidate).size > MOST_NODES {
            return Err(KBestError::TreeTooLarge { state });
        }
        match list(alloc, lists, candidate) {
            Ok(()) => {}
            Err(_) => return Err(KBestError::OutOfMemory),
        }
        match self.release::<S>(lists, state) {
            Ok(()) => Ok(()),
            Err(_) => Err(KBestError::OutOfMemory),
        }
    }
}
