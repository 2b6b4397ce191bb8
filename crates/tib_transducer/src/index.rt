//! The positions of the rules of a transducer by their state.

ghost use Rattle.std.specs.Prelude.{◌≡◌, ℕ, IfOk, List, [], length};
ghost use Rattle.tib_transducer.specs.declared.TransducerRule.{TransducerRule};
ghost use Rattle.tib_transducer.specs.Moves.{moves_of, held, IsStateIndex};

use crate::Transducer;
use std::alloc::{AllocError, Global};

/// For each state the positions of its rules, ascending.
#[derive(Drop)]
pub struct StateIndex {
    buckets: Vec<Vec<u32>>,
}

/// An empty list for each state. Err only if memory is refused.
fn empty_buckets(alloc: Global, states: u32) -> Result<Vec<Vec<u32>>, AllocError>
    ensures long { IfOk result (λ b. length b.items ≡ states) }
    ensures empty { IfOk result (λ b. (q : ℕ) → held b.items q ≡ []) }
{
    let mut buckets = Vec::with_capacity(alloc, states as usize)?;
    for _ in 0..states {
        buckets.push(Vec::new(alloc))?;
    }
    Ok(buckets)
}

impl StateIndex {
    /// The positions of the rules of a transducer by their state. Err only if memory is refused.
    /// Cost: one pass over the states and one over the rules.
    pub fn new<S>(alloc: Global, transducer: &Transducer<S>) -> Result<StateIndex, AllocError>
        ensures { IfOk result (IsStateIndex transducer.now.rules) }
    {
        transducer.is_sound();
        let mut buckets = empty_buckets(alloc, transducer.states())?;
        for (n, rule) in transducer.rule_list().iter().enumerate() {
            buckets[rule.state as usize].push(n as u32)?;
        }
        Ok(StateIndex { buckets })
    }

    /// The positions of the rules of a state, ascending. It takes no memory and one step.
    pub fn of(&self, state: u32) -> &[u32]
        ensures { (rules : List (TransducerRule ℕ)) → IsStateIndex rules self.now → result.now
            ≡ moves_of state rules }
    {
        match self.buckets.get(state as usize) {
            Some(positions) => positions,
            None => &[],
        }
    }
}
