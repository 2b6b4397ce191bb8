// The rules of a label and rank by the states at one child place.
ghost use Rattle.std.specs.Prelude.{◌≡◌, ℕ, ◌<◌, length, IfOk, nat_lt};
ghost use Rattle.tib_grammar.specs.Forms.{AreNormal};
ghost use Rattle.tib_weigh.specs.Buckets.{AreRules};
ghost use Rattle.tib_weigh.specs.Tables.{bucket, IsTable};

use crate::ready::Ready;
use crate::slots::Slots;
use std::alloc::{AllocError, Global};
use tib_grammar::Rule;

// How many slots a table has at most for each of its rules.
const SLOTS_A_RULE: usize = 4;

/// Some rules by the states at one of their child places, how many there are of a state on average,
/// and whether many slots have none.
#[derive(Drop)]
pub(crate) struct Table {
    slots: Slots,
    average: usize,
    is_sparse: bool,
}

impl Table {
    /// The table of some rules of one rank at a child place, in a grammar of this number of states.
    /// Err only if memory is refused. Worst case: memory in proportion to the number of positions,
    /// and time in proportion to that times the rank.
    pub(crate) fn new(
        alloc: Global,
        rules: &[Rule<u32>],
        positions: &[u32],
        place: usize,
        rank: u32,
        states: u32,
    ) -> Result<Table, AllocError>
        requires normal { AreNormal rules.now }
        requires rules { AreRules rules.now rank positions.now }
        requires place { place < rank }
        ensures { IfOk result (IsTable rules.now rank positions.now place) }
    {
        let most = positions.len().saturating_mul(SLOTS_A_RULE);
        let many = most.min(states as usize).max(1);
        let slots = Slots::new(alloc, rules, positions, place, rank, many)?;
        let used = slots.used();
        Ok(Table {
            average: positions.len().div_ceil(used.max(1)),
            is_sparse: used.saturating_mul(4) < many.saturating_mul(3),
            slots,
        })
    }

    /// About how many rules this number of states leaves. It takes a few steps.
    pub(crate) fn left_by(&self, states: usize) -> usize {
        states.saturating_mul(self.average)
    }

    /// Whether more than a fourth of the slots have no rule. It takes a step.
    pub(crate) fn is_sparse(&self) -> bool {
        self.is_sparse
    }

    /// Whether `at` gives any rule for a state. It takes a few steps.
    pub(crate) fn has(&self, state: u32) -> bool
        ensures { result ≡ nat_lt 0 (length (bucket self.now state)) }
    {
        self.slots.has(state)
    }

    /// The rules of a state, and maybe rules of others. It takes a few steps.
    pub(crate) fn at(&self, state: u32) -> &[Ready]
        ensures { result.now ≡ bucket self.now state }
    {
        self.slots.at(state)
    }
}
