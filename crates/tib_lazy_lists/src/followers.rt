// The first candidates of a state's rules, and those that follow a candidate.
ghost use Rattle.std.specs.Prelude.{◌≡◌, ◌<◌, ℕ, length, OnOk};
ghost use Rattle.std.proofs.Common.{get_or};
ghost use Rattle.tib_ranked_trees.specs.Held.{candidate_at};
ghost use Rattle.tib_lazy_lists.specs.Offers.{AreOpened, AreStarted, HasFollowers, IsHeld};

use crate::adding::{add_first, add_next};
use std::alloc::AllocError;
use tib_cost::Semiring;
use tib_ranked_trees::Lists;

// Offers a heap the first candidates of some rules, except that of one rule.
pub(crate) fn add_firsts<S: Semiring>(
    lists: &mut Lists,
    heap: &mut Vec<u32>,
    rules: &[u32],
    but: u32,
) -> Result<(), AllocError>
    requires held { IsHeld S.product lists.old heap.old.items }
    requires started { AreStarted lists.old }
    requires rules { (i : ℕ) → i < length rules.now →
        get_or rules.now i 0 < length lists.old.rules }
    ensures { OnOk result (AreOpened S.product lists.old rules.now but (length rules.now)
        heap.old.items lists.new heap.new.items) }
{
    for rule in rules {
        if *rule != but {
            add_first::<S>(lists, heap, *rule)?;
        }
    }
    Ok(())
}

// Offers a heap the candidates that follow one: those with one rank raised by one, from its last
// rank that is not 0 on. So each list of ranks is made once.
pub(crate) fn add_followers<S: Semiring>(
    lists: &mut Lists,
    heap: &mut Vec<u32>,
    last: u32,
) -> Result<(), AllocError>
    requires held { IsHeld S.product lists.old heap.old.items }
    requires last { last < length lists.old.candidates }
    ensures { OnOk result (HasFollowers S.product lists.old (candidate_at lists.old last)
        heap.old.items lists.new heap.new.items) }
{
    let rule = lists.candidate(last).rule;
    let start = lists.candidate(last).start;
    let count = lists.count(rule);
    for i in lists.last(rule, start)..count {
        add_next::<S>(lists, heap, rule, start, i)?;
    }
    Ok(())
}
