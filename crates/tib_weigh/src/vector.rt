// Sparse vectors of costs: an entry for each state that has a cost, in ascending order of the
// states.
ghost use Rattle.std.specs.Prelude.{◌≡◌, ℕ, ◌+◌, ◌<◌, ◌≤◌, length, drop, min, IfOk, Some, nat_eq, if◌then◌else◌};
ghost use Rattle.tib_cost.specs.Least.{lesser as lesser_of};
ghost use Rattle.tib_lex.specs.Lists.{Each};
ghost use Rattle.tib_weigh.specs.Entries.{cost_in, EndsBy, IsAscending};

use std::alloc::AllocError;
use tib_cost::Cost;

/// A state, and the least cost of a run from it.
#[derive(Clone, Copy, Debug)]
pub struct Entry {
    pub state: u32,
    pub cost: Cost,
}

// The first place from which on no state is below this one, found by halving.
fn place_of(vector: &[Entry], state: u32) -> usize
    requires { IsAscending vector.now }
    ensures within { result ≤ length vector.now }
    ensures passed { cost_in (drop result vector.now) state ≡ cost_in vector.now state }
    ensures rest { Each (λ e. state ≤ e.state) (drop result vector.now) }
{
    let mut low = 0;
    let mut high = vector.len();
    while low < high {
        let middle = low + (high - low) / 2;
        if vector[middle].state < state {
            low = middle + 1;
        } else {
            high = middle;
        }
    }
    low
}

/// The cost at a state. Worst case: O(log n) steps for n entries.
pub(crate) fn cost_at(vector: &[Entry], state: u32) -> Option<Cost>
    requires { IsAscending vector.now }
    ensures { result ≡ cost_in vector.now state }
{
    let place = place_of(vector, state);
    if place == vector.len() {
        return None;
    }
    let entry = vector[place];
    if entry.state == state {
        Some(entry.cost)
    } else {
        None
    }
}

/// The lesser of two costs.
pub(crate) fn lesser(a: Cost, b: Cost) -> Cost
    ensures { result ≡ min a b }
{
    a.min(b)
}

/// Lowers the cost at the last state to this one, or puts a further state last. Err only if memory
/// is refused; the vector is then as before. Worst case: a few steps, and now and then the vector
/// is moved.
pub(crate) fn add_cost(vector: &mut Vec<Entry>, state: u32, cost: Cost) -> Result<(), AllocError>
    requires ascends { IsAscending vector.old.items }
    requires last { EndsBy state vector.old.items }
    ensures ascends { IfOk result (λ _. IsAscending vector.new.items) }
    ensures last { IfOk result (λ _. EndsBy state vector.new.items) }
    ensures costs { IfOk result (λ _. (q : ℕ) → cost_in vector.new.items q
        ≡ (if nat_eq state q then lesser_of (cost_in vector.old.items q) (Some cost) else
        cost_in vector.old.items q)) }
{
    let Some(last) = vector.pop() else {
        vector.push(Entry { state, cost })?;
        return Ok(());
    };
    if last.state == state {
        let cost = lesser(last.cost, cost);
        vector.push(Entry { state, cost })?;
    } else {
        vector.push(last)?;
        vector.push(Entry { state, cost })?;
    }
    Ok(())
}
