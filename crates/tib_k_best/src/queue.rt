// What waits while the states get their first trees.
ghost use Rattle.std.specs.Prelude.{◌≡◌, ◌<◌, ◌++◌, ◌∷◌, [], length, map, replicate, OnOk, IfOk, IfSome, IfNone};
ghost use Rattle.std.proofs.Math.ListN.{set};
ghost use Rattle.tib_k_best.specs.QueueOf.{empty_queue, rules_of, waiting_at};
ghost use Rattle.tib_k_best.specs.Queues.{IsPopped};

use std::alloc::{AllocError, Global};
use std::marker::Model;

/// A rule that waits for the first tree of the state at a place below it. The states before it have
/// trees.
#[derive(Clone, Copy, Debug)]
pub struct Waiting {
    /// The rule's place.
    pub rule: u32,
    /// Which of the states below it the rule waits for.
    pub place: u32,
}

/// For each state, the rules that wait for its first tree; and the candidates of the rules that
/// wait for none, the least first.
#[derive(Drop)]
pub struct Queue {
    pub(crate) waiting: Vec<Vec<Waiting>>,
    pub(crate) heap: Vec<u32>,
}

impl Model for Queue {
    ghost use Rattle.std.specs.Prelude.{map};
    ghost use Rattle.tib_k_best.specs.QueueOf.{QueueOf, rules_of};

    ghost Value = { QueueOf };

    ghost view = { λ w. record { waiting = map rules_of w.waiting.items; heap = w.heap.items } };
}

// No rules for each state.
fn no_rules(alloc: Global, states: usize) -> Result<Vec<Vec<Waiting>>, AllocError>
    ensures { IfOk result (λ v. map rules_of v.items ≡ replicate states []) }
{
    let mut waiting = Vec::with_capacity(alloc, states)?;
    for _state in 0..states {
        waiting.push(Vec::new(alloc))?;
    }
    Ok(waiting)
}

impl Queue {
    // A queue in which nothing waits.
    pub(crate) fn new(alloc: Global, states: usize) -> Result<Queue, AllocError>
        ensures { IfOk result (λ w. w ≡ empty_queue states) }
    {
        Ok(Queue {
            waiting: no_rules(alloc, states)?,
            heap: Vec::new(alloc),
        })
    }

    // Makes a rule wait for a state.
    pub(crate) fn wait(&mut self, state: u32, waiting: Waiting) -> Result<(), AllocError>
        requires { state < length self.old.waiting }
        ensures { OnOk result (self.new ≡ record self.old {
          waiting
              = set self.old.waiting state (waiting_at self.old state ++ waiting ∷ []);
        }) }
    {
        self.waiting[state as usize].push(waiting)?;
        Ok(())
    }

    // Takes one of the rules that wait for a state.
    pub(crate) fn pop_waiting(&mut self, state: u32) -> Option<Waiting>
        requires { state < length self.old.waiting }
        ensures some { IfSome result (λ a. IsPopped self.old state a self.new) }
        ensures none { IfNone result (waiting_at self.old state ≡ []) }
        ensures same { IfNone result (self.new ≡ self.old) }
    {
        self.waiting[state as usize].pop()
    }
}
