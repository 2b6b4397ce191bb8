//! Composition as an operation of the hunt: its seed, its edges, and the rules that stand for
//! these.

use crate::choice::Choice;
use crate::composite::Composite;
use crate::placed_rule::PlacedRule;
use crate::settling::settled_rule;
use std::alloc::{AllocError, Global};
use tib_cost::Semiring;
use tib_expand::{Edges, Expand, ExpandError};
use tib_key_edges::StatePair;
use tib_transducer::TransducerRule;

impl<'a, S: Semiring> Expand for Composite<'a, S> {
    ghost use Rattle.std.specs.Prelude.{◌<◌, length};
    ghost use Rattle.tib_key_edges.specs.Composition.{composition};
    ghost use Rattle.tib_compose.specs.EdgeLaws.{compose_reading, composition_is_lawful};

    type Key = StatePair;

    type Over = PlacedRule<'a>;

    type Rule = TransducerRule<u32>;

    type Index = ();

    type Origin = (u32, Choice);

    type Edge = TransducerRule<StatePair>;

    ghost hunted = { λ c. composition S.product c.first.now.rules c.second.now.rules };

    ghost admits = { λ c k. (k.0 < length c.first.now.names) × (k.1 < length c.second.now.names) };

    ghost indexes = { λ _ _ _. Unit {0} };

    ghost reading = { compose_reading };

    fn seeds(
        &self,
        alloc: Global,
        budget: u64,
    ) -> Result<Edges<StatePair, PlacedRule<'a>>, ExpandError> {
        let _budget = budget;
        let Ok(ends) = Vec::from_array(alloc, [StatePair::new(0, 0)]) else {
            return Err(ExpandError::OutOfMemory);
        };
        Ok(Edges {
            ends,
            rules: Vec::new(alloc),
            parts: 0,
        })
    }

    fn begin_index(&self, _alloc: Global) -> Result<(), AllocError> {
        Ok(())
    }

    fn extend_index(
        &self,
        _alloc: Global,
        _index: &mut (),
        _order: &[StatePair],
        _from: u32,
    ) -> Result<(), AllocError> {
        Ok(())
    }

    fn expand(
        &self,
        alloc: Global,
        order: &[StatePair],
        _index: &(),
        n: u32,
        budget: u64,
    ) -> Result<Edges<StatePair, PlacedRule<'a>>, ExpandError> {
        self.second.is_sound();
        match self.list_edges(alloc, order[n as usize], n, budget) {
            Ok(listing) => Ok(listing.into_edges()),
            Err(fault) => Err(fault),
        }
    }

    fn settle(
        &self,
        alloc: Global,
        rule: &PlacedRule<'a>,
        ends: &[u32],
    ) -> Result<TransducerRule<u32>, AllocError> {
        settled_rule(alloc, rule, ends)
    }

    ghost lawful = { λ c. composition_is_lawful S.product c.first.now.rules c.second.now.rules
        (length c.first.now.names) (length c.second.now.names) c.first_start c.second_start c.first_range c.second_range };
}
