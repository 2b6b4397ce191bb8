//! What holds after every complete run of a round, whatever the order of its events. Several
//! workers number those ends of an item that the order lacks; one worker numbers all ends where it
//! works on the core. That a round makes what a complete run leaves is a clause of it. No clause
//! says that the steps of several workers are the events of a run, in the order in which the
//! machine does them: that is seen in the code.

ghost use Rattle.std.specs.Prelude.{length, ◌-◌};
ghost use Rattle.tib_expand.specs.Expanded.{IsEndAt};
ghost use Rattle.tib_hunt.specs.RoundLaw.{EveryRun, TwoRuns, IsLackedAt};

use crate::round_of::RoundOf;
use tib_expand::Expand;

/// After every complete run of a round's events each item was drawn once and filed once, and the
/// keys on the shelves are the distinct ends of the items that are numbered, each once. By
/// definition, the filed edges are those of the filed items. That a row has the edges of its item
/// is no part of this law.
pub fn every_run<E: Expand>(round: &RoundOf<'_, E>)
    ensures lacked { let p = E.hunted round.now.problem.now in let order = round.now.order.now in
        EveryRun E.Key.eq E.Key.shelf_of round.now.first (length order - round.now.first)
        (p.edge order) (IsLackedAt p order) }
    ensures all { let p = E.hunted round.now.problem.now in let order = round.now.order.now in
        EveryRun E.Key.eq E.Key.shelf_of round.now.first (length order - round.now.first)
        (p.edge order) (IsEndAt p order) }
{
    let _round = round;
}

/// Two complete runs of one round leave the same keys and the same filed items, and so, by
/// definition, the same filed edges.
pub fn two_runs<E: Expand>(round: &RoundOf<'_, E>)
    ensures lacked { let p = E.hunted round.now.problem.now in let order = round.now.order.now in
        TwoRuns E.Key.eq E.Key.shelf_of round.now.first (length order - round.now.first)
        (p.edge order) (IsLackedAt p order) }
    ensures all { let p = E.hunted round.now.problem.now in let order = round.now.order.now in
        TwoRuns E.Key.eq E.Key.shelf_of round.now.first (length order - round.now.first)
        (p.edge order) (IsEndAt p order) }
{
    let _round = round;
}
