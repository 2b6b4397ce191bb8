//! The search through all translations of a right-hand side: what comes next, and where it comes
//! back to.

ghost use Rattle.std.specs.Prelude.{◌≡◌, ◌<◌, ◌^◌, ◌++◌, ◌∷◌, [], OnOk, IfOk, take};
ghost use Rattle.tib_compose.specs.Searches.{Begins, ComesBack, IsAgain, Meets};

use crate::branch::{Branch, Reading};
use crate::pending::{Pending, Piece};
use std::alloc::{AllocError, Global};
use tib_cost::{Cost, Semiring};

/// A label that is read, with the branch that came to it, and which of the rules that read it comes
/// next.
#[derive(Drop)]
pub struct ReturnPoint {
    /// The label.
    pub reading: Reading,
    /// The cost so far.
    pub cost: Cost,
    /// How many items were put out.
    pub done: usize,
    /// How many tasks there were.
    pub tasks: usize,
    /// The number of the next task.
    pub next: usize,
    /// How many of the rules that read the label were tried.
    pub tried: usize,
}

/// A branch, and the turns at which the search comes back, the last first.
#[derive(Drop)]
pub struct Search {
    /// The branch.
    pub branch: Branch,
    /// The turns.
    pub turns: Vec<ReturnPoint>,
}

impl Search {
    /// The search for the translations of a whole right-hand side by a state, at a cost. Err only
    /// if memory is refused. Cost: one step.
    pub fn new<S: Semiring>(alloc: Global, cost: Cost, state: u32) -> Result<Search, AllocError>
        ensures begins { IfOk result (Begins S.product cost state) }
    {
        let mut pending = Pending::new(alloc);
        pending.push::<S>(Piece::Read { node: 0, state }, Cost::new(0))?;
        Ok(Search {
            branch: Branch {
                cost,
                done: Vec::new(alloc),
                pending,
            },
            turns: Vec::new(alloc),
        })
    }

    /// Turns at a label that the branch came to. Err only if memory is refused; then no turn is
    /// kept. Cost: one step, and now and then a copy of all turns.
    pub fn meet(&mut self, reading: Reading) -> Result<(), AllocError>
        ensures meets { OnOk result (Meets reading self.old self.new) }
    {
        let turn = ReturnPoint {
            reading,
            cost: self.branch.cost,
            done: self.branch.done.len(),
            tasks: self.branch.pending.tasks.len(),
            next: self.branch.pending.next,
            tried: 0,
        };
        self.turns.push(turn)?;
        Ok(())
    }

    /// Comes back to the branch at a turn; its cost stays. It takes no memory, and one step for
    /// each item and each task that is dropped.
    pub fn back_to(&mut self, turn: &ReturnPoint)
        ensures { ComesBack turn.now self.old self.new }
    {
        self.branch.done.truncate(turn.done);
        self.branch.pending.back_to(turn.tasks, turn.next);
    }

    /// Keeps a turn at which one more rule was tried. Err only if memory is refused; then the turn
    /// is lost. Cost: that of `meet`.
    pub fn again(&mut self, turn: ReturnPoint) -> Result<(), AllocError>
        requires few { turn.tried < 2 ^ 32 }
        ensures again { OnOk result (IsAgain turn self.old self.new) }
    {
        let ReturnPoint {
            reading,
            cost,
            done,
            tasks,
            next,
            tried,
        } = turn;
        self.turns.push(ReturnPoint {
            reading,
            cost,
            done,
            tasks,
            next,
            tried: tried + 1,
        })?;
        Ok(())
    }
}
