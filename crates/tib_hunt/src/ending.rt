//! The end of a round: what it made is taken in, its new keys are appended in ascending order, and
//! its rows are settled, by one thread or by several.

ghost use Rattle.std.specs.Prelude.{◌≡◌, ◌≤◌, ◌<◌, ◌^◌, ◌++◌, [], length, IfErr, OnOk};
ghost use Rattle.tib_lex.specs.Lists.{Each, Distinct};
ghost use Rattle.tib_expand.specs.Reached.{IfTooMany, IsBeyond, most_parts};
ghost use Rattle.tib_hunt.specs.Numbered.{placed, keys_of};
ghost use Rattle.tib_hunt.specs.Rows.{IsRowBelow};
ghost use Rattle.tib_hunt.specs.States.{AreSettled, IsBetweenRounds, AppendsOutcome, WorksRound, HavePositions, LacksAll, rows_in};

use crate::dividing::place_together;
use crate::placing::{EndPositions, place_rows};
use crate::shelved_round::Worked;
use crate::state::{HuntState, TakenIn};
use crate::terms::Terms;
use std::alloc::{AllocError, Global};
use std::thread::Threads;
use tib_expand::{Expand, Gate, HuntError};
use tib_table::{Lookup, put_fresh, put_fresh_together};

impl<E: Expand> HuntState<E> {
    // Appends the fresh keys in ascending order, and settles the rules of the rows.
    fn settle_fresh(
        &mut self,
        alloc: Global,
        problem: &E,
        taken: TakenIn<E::Key, E::Over>,
    ) -> Result<(), AllocError>
        requires placed { taken.fresh.items ≡ placed 0 (keys_of taken.fresh.items) }
        requires few { length (self.old.keys.keys ++ keys_of taken.fresh.items) < 2 ^ 32 }
        requires distinct { Distinct (self.old.keys.keys ++ keys_of taken.fresh.items) }
        requires on { HavePositions taken }
        requires below { Each (IsRowBelow E.reading.places (length self.old.keys.keys)
            (length (self.old.keys.keys ++ keys_of taken.fresh.items))) (rows_in taken) }
        ensures rows { OnOk result (self.new.rows.items ≡ []) }
        ensures parts { OnOk result (self.new.parts ≡ self.old.parts) }
        ensures settled { OnOk result (AreSettled E.Key.cmp E.reading (length self.old.keys.keys)
            self.old.keys.keys (keys_of taken.fresh.items) (rows_in taken) self.old self.new) }
    {
        let TakenIn {
            fresh,
            positions,
            rows,
        } = taken;
        let first = self.keys.len() as u32;
        let moved = put_fresh(alloc, &mut self.keys, fresh)?;
        let ends = EndPositions {
            on_shelves: &positions,
            first,
            moved: &moved,
        };
        place_rows(alloc, problem, rows, &ends, &mut self.rules)?;
        self.rows = Vec::new(alloc);
        Ok(())
    }

    // The same by several threads. The fresh keys and the rows are halved `times` times.
    fn settle_together<R: Threads + Sync>(
        &mut self,
        rt: &R,
        alloc: Global,
        problem: &E,
        times: u32,
        taken: TakenIn<E::Key, E::Over>,
    ) -> Result<(), AllocError>
    where
        E: Sync,
        E::Key: Send + Sync,
        E::Over: Send,
        E::Rule: Send,
        E::Index: Send,
        requires placed { taken.fresh.items ≡ placed 0 (keys_of taken.fresh.items) }
        requires few { length (self.old.keys.keys ++ keys_of taken.fresh.items) < 2 ^ 32 }
        requires distinct { Distinct (self.old.keys.keys ++ keys_of taken.fresh.items) }
        requires on { HavePositions taken }
        requires below { Each (IsRowBelow E.reading.places (length self.old.keys.keys)
            (length (self.old.keys.keys ++ keys_of taken.fresh.items))) (rows_in taken) }
        ensures rows { OnOk result (self.new.rows.items ≡ []) }
        ensures parts { OnOk result (self.new.parts ≡ self.old.parts) }
        ensures settled { OnOk result (AreSettled E.Key.cmp E.reading (length self.old.keys.keys)
            self.old.keys.keys (keys_of taken.fresh.items) (rows_in taken) self.old self.new) }
    {
        let TakenIn {
            fresh,
            positions,
            rows,
        } = taken;
        let first = self.keys.len() as u32;
        let moved = put_fresh_together(rt, alloc, times, &mut self.keys, fresh)?;
        let ends = EndPositions {
            on_shelves: &positions,
            first,
            moved: &moved,
        };
        place_together(rt, alloc, problem, rows, &ends, &mut self.rules, times)?;
        self.rows = Vec::new(alloc);
        Ok(())
    }

    /// Ends a round: takes in what it made, and appends the new ends in ascending order. `TooMany`
    /// only if the reached set passes the limit, `OutOfMemory` if memory is refused; nothing is
    /// then promised of the state.
    pub fn end_round(
        &mut self,
        alloc: Global,
        problem: &E,
        limit: u64,
        first: u32,
        worked: Worked<E::Key, E::Over>,
    ) -> Result<(), HuntError>
        requires limit { limit ≤ most_parts }
        requires between { IsBetweenRounds (E.hunted problem.now) (E.admits problem.now) E.reading
            first limit self.old }
        requires worked { WorksRound (E.hunted problem.now) E.reading E.Key.shelf_of
            self.old.keys.keys first self.old.parts limit worked }
        ensures between { OnOk result (IsBetweenRounds (E.hunted problem.now) (E.admits problem.now)
            E.reading (length self.old.keys.keys) limit self.new) }
        ensures run { OnOk result (AppendsOutcome (E.hunted problem.now) E.Key.eq E.Key.shelf_of
            self.old.keys.keys first self.new.keys.keys) }
        ensures rows { OnOk result (self.new.rows.items ≡ []) }
        ensures more { IfErr result (IfTooMany limit (IsBeyond (E.hunted problem.now) limit)) }
    {
        let taken = match self.take_round(alloc, problem, limit, first, Lookup::Needed, worked) {
            Ok(taken) => taken,
            Err(error) => return Err(error),
        };
        let Ok(()) = self.settle_fresh(alloc, problem, taken) else {
            return Err(HuntError::OutOfMemory);
        };
        Ok(())
    }

    /// Ends a round of this number of workers, 1 or more. It takes in what they made without a
    /// look-up, since the order has none of the keys of their shelves. At most as many threads sort
    /// the new ends and settle the rows. Errors are those of `end_round`.
    pub fn end_round_together<R: Threads + Sync, G: Gate>(
        &mut self,
        rt: &R,
        alloc: Global,
        terms: &Terms<'_, E, G>,
        first: u32,
        workers: u32,
        worked: Worked<E::Key, E::Over>,
    ) -> Result<(), HuntError>
    where
        E: Sync,
        E::Key: Send + Sync,
        E::Over: Send,
        E::Rule: Send,
        E::Index: Send,
        requires workers { 1 ≤ workers }
        requires limit { terms.now.limit ≤ most_parts }
        requires between { IsBetweenRounds (E.hunted terms.now.problem.now) (E.admits
            terms.now.problem.now) E.reading first terms.now.limit self.old }
        requires worked { WorksRound (E.hunted terms.now.problem.now) E.reading E.Key.shelf_of
            self.old.keys.keys first self.old.parts terms.now.limit worked }
        requires apart { LacksAll self.old.keys.keys worked }
        ensures between { OnOk result (IsBetweenRounds (E.hunted terms.now.problem.now) (E.admits
            terms.now.problem.now) E.reading (length self.old.keys.keys) terms.now.limit self.new) }
        ensures run { OnOk result (AppendsOutcome (E.hunted terms.now.problem.now) E.Key.eq
            E.Key.shelf_of self.old.keys.keys first self.new.keys.keys) }
        ensures rows { OnOk result (self.new.rows.items ≡ []) }
        ensures more { IfErr result (IfTooMany terms.now.limit (IsBeyond (E.hunted
            terms.now.problem.now) terms.now.limit)) }
    {
        let Terms { problem, limit, .. } = *terms;
        let taken = match self.take_round(alloc, problem, limit, first, Lookup::Needless, worked) {
            Ok(taken) => taken,
            Err(error) => return Err(error),
        };
        let Ok(()) = self.settle_together(rt, alloc, problem, workers.ilog2(), taken) else {
            return Err(HuntError::OutOfMemory);
        };
        Ok(())
    }
}
