// Makes candidates and puts them into a heap.
ghost use Rattle.std.specs.Prelude.{◌≡◌, ◌+◌, ◌<◌, ℕ, length, OnOk};
ghost use Rattle.std.proofs.Common.{get_or};
ghost use Rattle.tib_grammar.specs.Run.{rule_at};
ghost use Rattle.tib_ranked_trees.specs.Levels.{states_of, states_at};
ghost use Rattle.tib_ranked_trees.specs.Pass.{zeros_at, AreRanks};
ghost use Rattle.tib_ranked_trees.specs.Held.{entries_of, list_of, raise, ranks_from, IsTuple};
ghost use Rattle.tib_lazy_lists.specs.Offers.{IsHeld, IsOffered};

use std::alloc::AllocError;
use tib_cost::Semiring;
use tib_ranked_trees::Lists;
use tib_ranked_trees::heap::push;

// Makes a candidate of a rule with the ranks from `start` on and puts it into a heap, unless it
// costs more than the greatest cost.
fn add<S: Semiring>(
    lists: &mut Lists,
    heap: &mut Vec<u32>,
    rule: u32,
    start: usize,
) -> Result<(), AllocError>
    requires held { IsHeld S.product lists.old heap.old.items }
    requires tuple { IsTuple lists.old rule (ranks_from lists.old rule start) }
    ensures { OnOk result (IsOffered S.product (Unit {0}) lists.old rule
        (ranks_from lists.old rule start)
        heap.old.items lists.new heap.new.items) }
{
    let Some(candidate) = lists.make::<S>(rule, start)? else {
        return Ok(());
    };
    push(lists, heap, candidate)
}

// Offers a heap the first candidate of a rule.
pub(crate) fn add_first<S: Semiring>(
    lists: &mut Lists,
    heap: &mut Vec<u32>,
    rule: u32,
) -> Result<(), AllocError>
    requires held { IsHeld S.product lists.old heap.old.items }
    requires rule { rule < length lists.old.rules }
    requires ranks { AreRanks (entries_of lists.old) (states_at lists.old.rules rule)
        (zeros_at lists.old.rules rule) }
    ensures { OnOk result (IsOffered S.product (Unit {0}) lists.old rule
        (zeros_at lists.old.rules rule)
        heap.old.items lists.new heap.new.items) }
{
    let start = lists.zeros(rule)?;
    add::<S>(lists, heap, rule, start)
}

// Offers a heap the candidate with the ranks from `start` on, but with the i-th one raised by one.
fn add_raised<S: Semiring>(
    lists: &mut Lists,
    heap: &mut Vec<u32>,
    rule: u32,
    start: usize,
    i: usize,
) -> Result<(), AllocError>
    requires held { IsHeld S.product lists.old heap.old.items }
    requires tuple { IsTuple lists.old rule (ranks_from lists.old rule start) }
    requires below { i < length (states_at lists.old.rules rule) }
    requires next { get_or (ranks_from lists.old rule start) i 0 + 1
        < length (list_of lists.old (get_or (states_at lists.old.rules rule) i 0)) }
    ensures { OnOk result (IsOffered S.product (Unit {0}) lists.old rule
        (raise i (ranks_from lists.old rule start)) heap.old.items lists.new heap.new.items) }
{
    let raised = lists.raised(rule, start, i)?;
    add::<S>(lists, heap, rule, raised)
}

// Offers a heap the candidate with the i-th rank raised by one, if there is that entry.
pub(crate) fn add_next<S: Semiring>(
    lists: &mut Lists,
    heap: &mut Vec<u32>,
    rule: u32,
    start: usize,
    i: usize,
) -> Result<(), AllocError>
    requires held { IsHeld S.product lists.old heap.old.items }
    requires tuple { IsTuple lists.old rule (ranks_from lists.old rule start) }
    requires below { i < length (states_at lists.old.rules rule) }
    ensures { OnOk result (IsOffered S.product
        (get_or (ranks_from lists.old rule start) i 0 + 1
        < length (list_of lists.old (get_or (states_at lists.old.rules rule) i 0)))
        lists.old rule (raise i (ranks_from lists.old rule start)) heap.old.items lists.new
        heap.new.items) }
{
    let next = lists.rank(rule, start, i) as usize + 1;
    if next >= lists.len(lists.state(rule, i)) {
        return Ok(());
    }
    add_raised::<S>(lists, heap, rule, start, i)
}
