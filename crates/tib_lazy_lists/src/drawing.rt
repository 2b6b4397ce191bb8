// How one state takes its least candidate.
ghost use Rattle.std.specs.Prelude.{◌≡◌, ◌<◌, ℕ, length, IfOk, OnOk};
ghost use Rattle.std.proofs.Common.{get_or};
ghost use Rattle.tib_lazy_lists.specs.Offers.{AreStarted, IsHeld};
ghost use Rattle.tib_lazy_lists.specs.AskingOf.{state_of};
ghost use Rattle.tib_lazy_lists.specs.Asks.{IsDrawn, IsOpened};

use crate::asking::{Asked, Stage};
use crate::followers::{add_firsts, add_followers};
use std::alloc::AllocError;
use tib_cost::Semiring;
use tib_ranked_trees::Lists;
use tib_ranked_trees::heap::pop;

impl Asked {
    // Offers the first candidates of a state's rules, unless this was done before.
    fn open<S: Semiring>(&mut self, lists: &mut Lists, rules: &[u32]) -> Result<(), AllocError>
        requires held { IsHeld S.product lists.old self.old.heap.items }
        requires last { self.old.last < length lists.old.candidates }
        requires started { AreStarted lists.old }
        requires rules { (i : ℕ) → i < length rules.now →
            get_or rules.now i 0 < length lists.old.rules }
        ensures { OnOk result (IsOpened S.product lists.old rules.now (state_of self.old) lists.new
            (state_of self.new)) }
    {
        match self.stage {
            Stage::Closed => {}
            _ => return Ok(()),
        }
        let first = lists.candidate(self.last).rule;
        add_firsts::<S>(lists, &mut self.heap, rules, first)?;
        self.stage = Stage::Open;
        Ok(())
    }

    // Takes the least candidate of a state, after those that follow the one that it took last were
    // offered. If none waits, its list is complete.
    pub(crate) fn draw<S: Semiring>(
        &mut self,
        lists: &mut Lists,
        rules: &[u32],
    ) -> Result<Option<u32>, AllocError>
        requires held { IsHeld S.product lists.old self.old.heap.items }
        requires last { self.old.last < length lists.old.candidates }
        requires started { AreStarted lists.old }
        requires rules { (i : ℕ) → i < length rules.now →
            get_or rules.now i 0 < length lists.old.rules }
        ensures { IfOk result (λ o. IsDrawn S.product lists.old rules.now (state_of self.old)
            lists.new (state_of self.new) o) }
    {
        self.open::<S>(lists, rules)?;
        add_followers::<S>(lists, &mut self.heap, self.last)?;
        let Some(candidate) = pop(lists, &mut self.heap) else {
            self.stage = Stage::Whole;
            return Ok(None);
        };
        self.last = candidate;
        Ok(Some(candidate))
    }
}
