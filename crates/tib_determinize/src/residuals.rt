//! The vectors of residuals over a grammar, as what is hunted.

ghost use Rattle.std.specs.Prelude.{◌≡◌, ℕ, ◌+◌, ◌<◌, ◌≤◌, ◌^◌, [], length, IfOk, IfSome, OnOk, Err};
ghost use Rattle.tib_determinize.specs.Holders.{AreHolders};
ghost use Rattle.tib_grammar.specs.Forms.{AreNormal};
ghost use Rattle.tib_lex.specs.Lists.{Each};
ghost use Rattle.tib_expand.specs.Reached.{most_parts};
ghost use Rattle.tib_determinize.specs.Shapes.{shapes_in};
ghost use Rattle.tib_determinize.specs.Determinization.{LeftsBelow};
ghost use Rattle.tib_determinize.specs.Started.{finals};
ghost use Rattle.tib_determinize.specs.Stepped.{AddsSteps, HasSteps, IsWithinBudget, StepsExceed, StepsOverrun};
ghost use Rattle.tib_determinize.specs.Tries.{by_last, behind_label, leaf_tries, leaf_try, tries};
ghost use Rattle.tib_determinize.specs.Occurrences.{HaveStanding, LackNone};
ghost use Rattle.tib_determinize.specs.Vectors.{Rises, vector_at};

use crate::alive::{begin, begin_at};
use crate::holders::Holders;
use crate::listing::VectorListing;
use crate::occurrences::{Occurrence, Occurrences};
use crate::shapes::shapes_of;
use crate::started::final_positions;
use crate::vector::Vector;
use crate::walk::{Walk, list, list_all};
use crate::wide::wide_states;
use std::alloc::{AllocError, Global};
use tib_cost::{Cost, Semiring};
use tib_expand::ExpandError;
use tib_normal::Normal;
use tib_tree::Label;

/// The vectors of states with residuals over a grammar, reached from those of the labels over no
/// state.
#[derive(Drop)]
pub struct Residuals<'a, S> {
    /// The grammar.
    pub normal: &'a Normal<S>,
    shapes: Vec<(Label, u32)>,
    pub(crate) wide: Vec<bool>,
    occurrences: Occurrences,
    pub ghost listed: { shapes.items ≡ shapes_in normal.now.rules },
    pub ghost lack_none: { LackNone normal.now.rules occurrences.many occurrences.lists.items },
    pub ghost left_range: { LeftsBelow (length normal.now.names) normal.now.rules },
}

impl<'a, S: Semiring> Residuals<'a, S> {
    /// The vectors over a grammar. Err only if memory is refused. Cost: a sort of the labels and
    /// ranks of its rules, and one step for each place of each rule.
    pub fn new(alloc: Global, normal: &'a Normal<S>) -> Result<Residuals<'a, S>, AllocError>
        ensures { IfOk result (λ r. r.normal.now ≡ normal.now) }
    {
        normal.grammar().is_sound();
        let shapes = shapes_of(alloc, normal.grammar().rule_list())?;
        let wide = wide_states(alloc, normal.grammar().rule_list())?;
        let many = if shapes.len() < 65536 {
            shapes.len() as u32
        } else {
            65536
        };
        let occurrences = Occurrences::new(alloc, normal.grammar().rule_list(), many)?;
        Ok(Residuals {
            normal,
            shapes,
            wide,
            occurrences,
        })
    }

    /// The positions whose vectors have the start, each with the start's residual. Err only if
    /// memory is refused. Worst case: one look at each entry.
    pub fn finals(&self, alloc: Global, order: &[Vector]) -> Result<Vec<(u32, Cost)>, AllocError>
        requires { length order.now < 2 ^ 32 }
        ensures { IfOk result (λ found. found.items ≡ finals 0 order.now) }
    {
        final_positions(alloc, order)
    }
}

// Lists the edges of the label and the rank of a walk at its position, for each place at which the
// position is last.
fn list_shape<S: Semiring>(
    alloc: Global,
    walk: &Walk<'_>,
    places: &[Occurrence],
    listing: &mut VectorListing,
) -> Result<(), ExpandError>
    requires normal { AreNormal walk.now.rules.now }
    requires standing { (many : ℕ) × HaveStanding walk.now.rules.now many walk.now.label
        walk.now.rank (vector_at walk.now.order.now walk.now.position) places.now }
    requires holders { AreHolders walk.now.wide.now walk.now.order.now
        walk.now.holders.now.lists.items }
    requires rise { Each (λ v. Rises v) walk.now.order.now }
    requires position { walk.now.position < length walk.now.order.now }
    requires within { IsWithinBudget listing.old }
    ensures added { OnOk result (AddsSteps S.product walk.now.rules.now walk.now.order.now
        (behind_label walk.now.label (by_last walk.now.position walk.now.rank 0 walk.now.rank))
        listing.old listing.new) }
    ensures more { result ≡ Err ExpandError.More → StepsOverrun S.product walk.now.rules.now
        walk.now.order.now (behind_label walk.now.label
        (by_last walk.now.position walk.now.rank 0 walk.now.rank)) listing.old }
    ensures within { OnOk result (IsWithinBudget listing.new) }
    ensures budget { listing.new.budget ≡ listing.old.budget }
{
    for last in 0..walk.rank {
        let walk = Walk { last, ..*walk };
        let Ok(alive) = begin_at::<S>(alloc, &walk, places) else {
            return Err(ExpandError::OutOfMemory);
        };
        match list_all::<S>(alloc, &walk, alive, listing) {
            Ok(()) => {}
            Err(fault) => return Err(fault),
        }
    }
    Ok(())
}

impl<'a, S: Semiring> Residuals<'a, S> {
    /// The edges of a position of an order.
    pub(crate) fn list_position(
        &self,
        alloc: Global,
        order: &[Vector],
        holders: &Holders,
        position: u32,
        budget: u64,
    ) -> Result<VectorListing, ExpandError>
        requires rise { Each (λ v. Rises v) order.now }
        requires position { position < length order.now }
        requires holders { AreHolders self.now.wide.items order.now holders.now.lists.items }
        requires budget { budget ≤ most_parts }
        ensures listed { IfOk result (HasSteps S.product self.now.normal.now.rules order.now
            (tries position (shapes_in self.now.normal.now.rules))) }
        ensures more { result ≡ Err ExpandError.More → StepsExceed S.product
            self.now.normal.now.rules order.now (tries position
            (shapes_in self.now.normal.now.rules)) budget }
        ensures within { IfOk result IsWithinBudget }
        ensures budget { IfOk result (λ l. l.budget ≡ budget) }
    {
        let rules = self.normal.grammar().rule_list();
        let vector = &order[position as usize];
        let Ok(found) = self.occurrences.standing(alloc, vector) else {
            return Err(ExpandError::OutOfMemory);
        };
        let mut listing = VectorListing::new(alloc, budget);
        let shapes: &[(Label, u32)] = &self.shapes;
        for i in 0..shapes.len() {
            let (label, rank) = shapes[i];
            let places = self.occurrences.of_label(&found, label);
            let walk = Walk {
                rules,
                order,
                wide: &self.wide,
                holders,
                label,
                rank,
                position,
                last: 0,
            };
            match list_shape::<S>(alloc, &walk, places, &mut listing) {
                Ok(()) => {}
                Err(fault) => return Err(fault),
            }
        }
        Ok(listing)
    }
}

impl<'a, S: Semiring> Residuals<'a, S> {
    // Lists the edge of a label over no vector, where its rank is 0.
    fn list_leaf(
        &self,
        alloc: Global,
        shape: (Label, u32),
        listing: &mut VectorListing,
    ) -> Result<(), ExpandError>
        requires within { IsWithinBudget listing.old }
        ensures added { OnOk result (AddsSteps S.product self.now.normal.now.rules []
            (leaf_try shape) listing.old listing.new) }
        ensures more { result ≡ Err ExpandError.More → StepsOverrun S.product
            self.now.normal.now.rules [] (leaf_try shape) listing.old }
        ensures within { OnOk result (IsWithinBudget listing.new) }
        ensures budget { listing.new.budget ≡ listing.old.budget }
    {
        let (label, rank) = shape;
        if rank != 0 {
            return Ok(());
        }
        let normal = self.normal;
        let rules = normal.grammar().rule_list();
        let Ok(alive) = begin::<S>(alloc, normal.rules_with(label, 0)) else {
            return Err(ExpandError::OutOfMemory);
        };
        let holders = Holders::new(alloc);
        let walk = Walk {
            rules,
            order: &[],
            wide: &[],
            holders: &holders,
            label,
            rank: 0,
            position: 0,
            last: 0,
        };
        list::<S>(alloc, &walk, &[], &alive, listing)
    }

    /// The edges of the labels over no vector.
    pub(crate) fn list_leaves(
        &self,
        alloc: Global,
        budget: u64,
    ) -> Result<VectorListing, ExpandError>
        requires budget { budget ≤ most_parts }
        ensures listed { IfOk result (HasSteps S.product self.now.normal.now.rules []
            (leaf_tries (shapes_in self.now.normal.now.rules))) }
        ensures more { result ≡ Err ExpandError.More → StepsExceed S.product
            self.now.normal.now.rules [] (leaf_tries (shapes_in self.now.normal.now.rules)) budget }
        ensures within { IfOk result IsWithinBudget }
        ensures budget { IfOk result (λ l. l.budget ≡ budget) }
    {
        let mut listing = VectorListing::new(alloc, budget);
        let shapes: &[(Label, u32)] = &self.shapes;
        for i in 0..shapes.len() {
            let shape = &shapes[i];
            match self.list_leaf(alloc, (shape.0, shape.1), &mut listing) {
                Ok(()) => {}
                Err(fault) => return Err(fault),
            }
        }
        Ok(listing)
    }
}
