// How many runs a grammar has.
ghost use Rattle.std.specs.Prelude.{◌≡◌, ℕ, ◌<◌, IfOk};
ghost use Rattle.tib_grammar.specs.Range.{AreInRange};
ghost use Rattle.tib_count.specs.Counts.{IsCountOf};
ghost use Rattle.tib_count.specs.Counted.{IsRun, HaveRuns};

use crate::count::Count;
use crate::edges::Edges;
use crate::order::order_of;
use crate::sums::sum_runs;
use std::alloc::{AllocError, Global};
use tib_grammar::Rule;

/// How many runs there are from the start of a grammar over this number of states, each of which
/// has a run where it is in a right-hand side; a run is counted whatever it costs. The states that
/// the start leads to are put in an order in which each comes after those that it leads to (Tarjan
/// 1976), and there are endlessly many runs where this cannot be. The number of a state is then the
/// sum over its rules of the products over the states in their right-hand sides. Err only if memory
/// is refused. It takes time and memory in proportion to the states and the right-hand sides.
pub fn count_runs(alloc: Global, states: usize, rules: &[Rule<u32>]) -> Result<Count, AllocError>
    requires start { 0 < states }
    requires range { AreInRange states rules.now }
    requires runs { HaveRuns rules.now }
    ensures { IfOk result (IsCountOf (IsRun rules.now)) }
{
    let edges = Edges::new(alloc, rules)?;
    let Some(order) = order_of(alloc, &edges, states)? else {
        return Ok(Count::Endless);
    };
    sum_runs(alloc, rules, &order, states)
}
