//! The image of a tree as an operation: its seed, its edges, and the rules that stand for these.

use crate::key::Key;
use crate::operation::Image;
use std::alloc::{AllocError, Global};
use tib_cost::Semiring;
use tib_expand::{Edges, Expand, ExpandError};
use tib_grammar::Rule;
use tib_key_edges::{SideRule, settled_side};
use tib_transducer::Pair;

impl<'a, S: Semiring> Expand for Image<'a, S> {
    ghost use Rattle.std.specs.Prelude.{◌<◌};
    ghost use Rattle.tib_tree.specs.Trees.{size};
    ghost use Rattle.tib_image.specs.Image.{image_of};
    ghost use Rattle.tib_image.specs.Laws.{image_reading, image_is_lawful};

    type Key = Key;

    type Over = SideRule<'a, Pair<u32>>;

    type Rule = Rule<u32>;

    type Index = ();

    type Origin = u32;

    type Edge = Rule<Key>;

    ghost hunted = { λ i. image_of i.transducer.now.rules i.tree.now };

    ghost admits = { λ i k. k.1 < size i.tree.now };

    ghost indexes = { λ _ _ _. Unit {0} };

    ghost reading = { image_reading };

    fn seeds(
        &self,
        alloc: Global,
        budget: u64,
    ) -> Result<Edges<Key, SideRule<'a, Pair<u32>>>, ExpandError> {
        let _budget = budget;
        let Ok(ends) = Vec::from_array(alloc, [Key::new(0, 0)]) else {
            return Err(ExpandError::OutOfMemory);
        };
        Ok(Edges {
            ends,
            rules: Vec::new(alloc),
            parts: 0,
        })
    }

    fn begin_index(&self, _alloc: Global) -> Result<(), AllocError> {
        Ok(())
    }

    fn extend_index(
        &self,
        _alloc: Global,
        _index: &mut (),
        _order: &[Key],
        _from: u32,
    ) -> Result<(), AllocError> {
        Ok(())
    }

    fn expand(
        &self,
        alloc: Global,
        order: &[Key],
        _index: &(),
        n: u32,
        budget: u64,
    ) -> Result<Edges<Key, SideRule<'a, Pair<u32>>>, ExpandError> {
        match self.list_edges(alloc, order[n as usize], n, budget) {
            Ok(listing) => Ok(listing.into_edges()),
            Err(fault) => Err(fault),
        }
    }

    fn settle(
        &self,
        alloc: Global,
        rule: &SideRule<'a, Pair<u32>>,
        ends: &[u32],
    ) -> Result<Rule<u32>, AllocError> {
        let right = settled_side(alloc, rule.side, ends, rule.first_end)?;
        Ok(Rule {
            left: rule.position,
            right,
            cost: rule.cost,
        })
    }

    ghost lawful = { λ i. image_is_lawful i.transducer.now.rules i.tree.now };
}
