//! The items of one round as a task, which several workers perform.

ghost use Rattle.std.specs.Prelude.{◌≤◌, ◌<◌, ◌^◌, length};

use crate::lookups::{Ruled, split_ends};
use crate::terms::Terms;
use indexmap::IndexSet;
use std::alloc::Global;
use std::collections::LinkedList;
use tib_expand::{Expand, ExpandError, Gate};
use tib_table::Problem;
use tib_workers::{Performed, Task, Unperformed};

/// The items of a round, each with the edges of its position, on the terms of the round. The keys
/// are those of the order so far. Items are counted from the first position that is not expanded.
/// Only those ends of an item that the order lacks are handed on.
#[derive(Drop)]
pub(crate) struct JobOf<'a, 'b, 'c, E: Expand, G: Gate> {
    pub terms: &'a Terms<'b, E, G>,
    pub keys: &'c IndexSet<E::Key>,
    pub first: u32,
    pub ghost within: { first ≤ length keys.now.keys },
    pub ghost few: { length keys.now.keys < 2 ^ 32 },
}

impl<'a, 'b, 'c, E: Expand, G: Gate> Problem for JobOf<'a, 'b, 'c, E, G> {
    ghost use Rattle.tib_hunt.specs.Jobs.{IsLackedEnd};

    type Key = E::Key;

    type Data = (E, LinkedList<E::Key>, u64, E::Index);

    ghost about = { λ j. (j.terms.now.problem.now, j.keys.now.keys, j.first, j.terms.now.index.now) };

    ghost may_hold = { IsLackedEnd E.hunted };
}

impl<'a, 'b, 'c, E: Expand, G: Gate> Task for JobOf<'a, 'b, 'c, E, G> {
    ghost use Rattle.tib_hunt.specs.Jobs.{items_in, GivesEdges, ItemExceeds, IsExpandable, ends_held};

    type Rules = Ruled<E::Over>;

    ghost count_of = { items_in };

    ghost gives = { GivesEdges E.hunted E.reading };

    ghost exceeds = { ItemExceeds E.hunted };

    ghost is_ready = { IsExpandable E.admits E.indexes };

    fn count(&self) -> u32 {
        self.keys.len() as u32 - self.first
    }

    fn pass(&self, worker: u32, item: u32) {
        self.terms.gate.pass(worker, self.first + item)
    }

    fn perform(
        &self,
        alloc: Global,
        item: u32,
        budget: u64,
    ) -> Result<Performed<E::Key, Ruled<E::Over>>, Unperformed> {
        let position = self.first + item;
        let order = self.keys.as_slice();
        let Terms { problem, index, .. } = *self.terms;
        let edges = match problem.expand(alloc, order, index, position, budget) {
            Ok(edges) => edges,
            Err(ExpandError::More) => return Err(Unperformed::More),
            Err(ExpandError::OutOfMemory) => return Err(Unperformed::OutOfMemory),
        };
        let Ok(split) = split_ends(alloc, self.keys, edges.ends) else {
            return Err(Unperformed::OutOfMemory);
        };
        let rules = Ruled {
            rules: edges.rules,
            at: Some(split.at),
        };
        Ok(Performed {
            ends: split.ends,
            rules,
            parts: edges.parts,
        })
    }

    ghost holds_ends = { ends_held E.hunted E.reading };
}
