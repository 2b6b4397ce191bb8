//! The edges of a pair: for each rule of its state of the first transducer, and each translation of
//! the rule's right-hand side.

ghost use Rattle.std.specs.Prelude.{◌≡◌, ◌<◌, ◌≤◌, length, IfOk, OnOk, Err};
ghost use Rattle.tib_expand.specs.Reached.{most_parts};
ghost use Rattle.tib_compose.specs.KeyEdges.{HasListing, IsSourceOf, KeyOverruns, ListsKey, ListsRule, RuleOverruns};
ghost use Rattle.tib_compose.specs.CompositionListing.{IsWithinBudget};

use crate::bounds::Bounds;
use crate::composite::Composite;
use crate::counting::overruns;
use crate::ends::ends_of;
use crate::flat::flat_root;
use crate::listing::CompositionListing;
use crate::plenty::Plenties;
use crate::search::Search;
use crate::source::Source;
use crate::translating::go_on;
use std::alloc::{AllocError, Global};
use tib_cost::Semiring;
use tib_expand::ExpandError;
use tib_key_edges::StatePair;
use tib_transducer::TransducerRule;

impl<'a, S: Semiring> Composite<'a, S> {
    /// The right-hand side of a rule of the first transducer, as what is to be translated by a
    /// state of the second, with the bounds of what a search comes to. Err only if memory is
    /// refused.
    fn source_of<'b>(
        &self,
        alloc: Global,
        rule: &'b TransducerRule<u32>,
        state: u32,
    ) -> Result<Source<'b>, AllocError>
        ensures { IfOk result (IsSourceOf S.product self.now.second.now.rules rule.now) }
    {
        let items = rule.right.items();
        if items.len() > 4_000_000_000 {
            return Err(AllocError);
        }
        let ends = ends_of(alloc, items)?;
        let bounds = Bounds::new(alloc);
        let plenties = Plenties::new(alloc);
        let mut source = Source {
            items,
            ends,
            bounds,
            plenties,
        };
        self.set_bounds(alloc, &mut source, state)?;
        Ok(source)
    }

    /// Lists the edges of a pair along the rule of the first transducer at a position, by a search
    /// of the translations of its right-hand side. `More` exactly where they have more parts than
    /// the budget leaves, at once where the lower bound on them shows it.
    fn search_rule(
        &self,
        alloc: Global,
        key: StatePair,
        position: u32,
        listing: &mut CompositionListing<'a>,
    ) -> Result<(), ExpandError>
        requires below { position < length self.now.first.now.rules }
        requires within { IsWithinBudget listing.old }
        requires listing { HasListing key listing.old }
        ensures listed { OnOk result (ListsRule S.product self.now.first.now.rules
            self.now.second.now.rules key position listing.old listing.new) }
        ensures more { result ≡ Err ExpandError.More → RuleOverruns S.product
            self.now.first.now.rules self.now.second.now.rules key position listing.old }
        ensures within { OnOk result (IsWithinBudget listing.new) }
        ensures budget { OnOk result (listing.new.budget ≡ listing.old.budget) }
    {
        self.second.is_sound();
        let rule = &self.first.rule_list()[position as usize];
        let Ok(source) = self.source_of(alloc, rule, key.second()) else {
            return Err(ExpandError::OutOfMemory);
        };
        if overruns::<S>(&source, rule, key.second(), listing) {
            return Err(ExpandError::More);
        }
        let Ok(mut search) = Search::new::<S>(alloc, rule.cost, key.second()) else {
            return Err(ExpandError::OutOfMemory);
        };
        match go_on(alloc, &source, &rule.left, &mut search, listing) {
            Ok(()) => {}
            Err(fault) => return Err(fault),
        }
        for _ in 0..u64::MAX {
            match self.step(alloc, &source, &rule.left, &mut search, listing) {
                Ok(true) => {}
                Ok(false) => return Ok(()),
                Err(fault) => return Err(fault),
            }
        }
        Err(ExpandError::OutOfMemory)
    }

    /// Lists the edges of a pair along the rule of the first transducer at a position. `More`
    /// exactly where they have more parts than the budget leaves.
    fn list_rule(
        &self,
        alloc: Global,
        key: StatePair,
        position: u32,
        listing: &mut CompositionListing<'a>,
    ) -> Result<(), ExpandError>
        requires below { position < length self.now.first.now.rules }
        requires within { IsWithinBudget listing.old }
        requires listing { HasListing key listing.old }
        ensures listed { OnOk result (ListsRule S.product self.now.first.now.rules
            self.now.second.now.rules key position listing.old listing.new) }
        ensures more { result ≡ Err ExpandError.More → RuleOverruns S.product
            self.now.first.now.rules self.now.second.now.rules key position listing.old }
        ensures within { OnOk result (IsWithinBudget listing.new) }
        ensures budget { OnOk result (listing.new.budget ≡ listing.old.budget) }
    {
        let rule = &self.first.rule_list()[position as usize];
        match flat_root(rule.right.items()) {
            Some((label, rank)) => self.list_flat(alloc, key, position, label, rank, listing),
            None => self.search_rule(alloc, key, position, listing),
        }
    }

    /// The edges of a pair at a position. `More` exactly where they have more parts than the
    /// budget.
    pub(crate) fn list_edges(
        &self,
        alloc: Global,
        key: StatePair,
        position: u32,
        budget: u64,
    ) -> Result<CompositionListing<'a>, ExpandError>
        requires budget { budget ≤ most_parts }
        ensures listed { IfOk result (ListsKey S.product self.now.first.now.rules
            self.now.second.now.rules key position) }
        ensures more { result ≡ Err ExpandError.More → KeyOverruns S.product
            self.now.first.now.rules self.now.second.now.rules key position budget }
        ensures within { IfOk result IsWithinBudget }
        ensures budget { IfOk result (λ l. l.budget ≡ budget) }
    {
        let mut listing = CompositionListing::new(alloc, position, budget);
        for rule_position in self.moves.of(key.first()) {
            match self.list_rule(alloc, key, *rule_position, &mut listing) {
                Ok(()) => {}
                Err(fault) => return Err(fault),
            }
        }
        Ok(listing)
    }
}
