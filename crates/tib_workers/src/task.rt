//! Problems whose items workers perform.

ghost use Rattle.std.specs.Prelude.{◌≡◌, ◌≤◌, ◌<◌, ℕ, List, IfOk, IfErr};
ghost use Rattle.std.specs.List.{All};
ghost use Rattle.tib_lex.specs.Limits.{most_parts};

use std::alloc::Global;
use tib_table::Problem;

/// What an item gives: the keys at which it ends, what is read over them, and its parts.
#[derive(Drop)]
pub struct Performed<K, T> {
    /// The ends, in any order, and any of them more than once.
    pub ends: Vec<K>,
    /// What is read over the ends.
    pub rules: T,
    /// The parts.
    pub parts: u64,
}

/// Why an item is not performed.
#[derive(Debug, Drop, PartialEq, Eq)]
pub enum Unperformed {
    /// It has more parts than the budget.
    More,
    /// Memory was refused.
    OutOfMemory,
}

/// A problem with items, numbered from 0. Each is performed independently.
pub trait Task: Problem {
    /// What an item gives in addition to its ends.
    type Rules: Drop;

    // How many items there are.
    ghost count_of: { Self.Data → ℕ };

    // What an item gives: its ends, its rules and its parts.
    ghost gives: { Self.Data → ℕ → List Self.Key → Self.Rules → ℕ → Type 0 };

    // The item has more parts than the budget.
    ghost exceeds: { Self.Data → ℕ → ℕ → Type 0 };

    // What must hold for an item to be performed.
    ghost is_ready: { Self.Data → Type 0 };

    /// How many items there are.
    fn count(&self) -> u32
        ensures { result ≡ count_of (Self.about self.now) };

    /// Called when a worker is about to perform an item that was drawn.
    fn pass(&self, worker: u32, item: u32)
        requires { item < count_of (Self.about self.now) };

    /// Performs an item within a budget of at most 20,000,000 parts. `More` comes only where it has
    /// more parts than the budget, `OutOfMemory` if memory is refused.
    fn perform(
        &self,
        alloc: Global,
        item: u32,
        budget: u64,
    ) -> Result<Performed<Self::Key, Self::Rules>, Unperformed>
        requires item { item < count_of (Self.about self.now) }
        requires ready { is_ready (Self.about self.now) }
        requires budget { budget ≤ most_parts }
        ensures given { IfOk result (λ r. gives (Self.about self.now) item r.ends.items r.rules
            r.parts) }
        ensures within { IfOk result (λ r. r.parts ≤ budget) }
        ensures more { IfErr result (λ e. e ≡ Unperformed.More → exceeds (Self.about self.now) item
            budget) };

    ghost holds_ends: { (d : Self.Data) (i : ℕ) (ends : List Self.Key) (rules : Self.Rules) (parts : ℕ) → i < count_of d → gives d i ends rules parts → All (Self.may_hold d) ends };
}

impl<P: Task> Task for &P {
    type Rules = P::Rules;

    ghost count_of = { P.count_of };

    ghost gives = { P.gives };

    ghost exceeds = { P.exceeds };

    ghost is_ready = { P.is_ready };

    fn count(&self) -> u32 {
        P::count(*self)
    }

    fn pass(&self, worker: u32, item: u32) {
        P::pass(*self, worker, item)
    }

    fn perform(
        &self,
        alloc: Global,
        item: u32,
        budget: u64,
    ) -> Result<Performed<P::Key, P::Rules>, Unperformed> {
        P::perform(*self, alloc, item, budget)
    }

    ghost holds_ends = { P.holds_ends };
}
