// A queue of states by their costs, for shortest paths (Dijkstra 1959) and least costs of runs
// (Knuth 1977).
ghost use Rattle.std.specs.Prelude.{◌≡◌, ℕ, ◌+◌, ◌<◌, ◌≤◌, ◌⊎◌, List, [], ◌∷◌, length, Contains, OnOk, IfSome, IfNone, map};
ghost use Rattle.tib_normal.specs.Entries.{AddsEntry, TakesLeast};

use std::alloc::{AllocError, Global};
use std::cmp::Reverse;
use std::collections::BinaryHeap;
use std::marker::Model;
use tib_cost::Cost;

/// States with costs at which they can be reached, the least cost first.
#[derive(Drop)]
pub struct Agenda {
    heap: BinaryHeap<Reverse<(Cost, u32)>>,
}

impl Model for Agenda {
    ghost use Rattle.std.specs.Prelude.{ℕ, List};
    ghost use Rattle.tib_normal.specs.Agenda.{entries_of, IsOrdered};

    ghost Value = { List (ℕ × ℕ) };

    ghost view = { entries_of };

    ghost invariant = { IsOrdered };
}

impl Agenda {
    /// An empty agenda. It takes no memory.
    pub fn new(alloc: Global) -> Agenda
        ensures { result ≡ [] }
    {
        Agenda {
            heap: BinaryHeap::new(alloc),
        }
    }

    /// Adds a state with a cost. Err only if memory is refused; then nothing is known of the
    /// entries. Worst case: O(log n) with n entries, besides the growth of the heap.
    pub fn push(&mut self, cost: Cost, state: u32) -> Result<(), AllocError>
        ensures { OnOk result (AddsEntry self.old (cost, state) self.new) }
    {
        self.heap.push(Reverse((cost, state)))?;
        Ok(())
    }

    /// Takes an entry of the least cost, or returns none where there is no entry. Worst case: O(log
    /// n) with n entries.
    pub fn pop(&mut self) -> Option<(Cost, u32)>
        ensures some { IfSome result (λ e. TakesLeast self.old e self.new) }
        ensures none { IfNone result (self.old ≡ []) }
        ensures empty { IfNone result (self.new ≡ []) }
    {
        match self.heap.pop() {
            Some(Reverse(entry)) => Some(entry),
            None => None,
        }
    }
}
