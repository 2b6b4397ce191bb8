//! Forward application as an operation: its seed, its edges, and the rules that stand for these.

use crate::forward::Forward;
use crate::forward_listing::ForwardRule;
use crate::key::Key;
use std::alloc::{AllocError, Global};
use std::collections::LinkedList;
use tib_cost::Semiring;
use tib_expand::{Edges, Expand, ExpandError};
use tib_grammar::Rule;
use tib_key_edges::settled_side;

impl<'a, S: Semiring> Expand for Forward<'a, S> {
    ghost use Rattle.std.specs.Prelude.{◌<◌, length};
    ghost use Rattle.tib_apply.specs.TableEdges.{table_image};
    ghost use Rattle.tib_apply.specs.ForwardLaws.{forward_is_lawful};
    ghost use Rattle.tib_apply.specs.ForwardRules.{forward_reading};

    type Key = Key;

    type Over = ForwardRule<'a>;

    type Rule = Rule<u32>;

    type Index = ();

    type Origin = (u32, LinkedList<u32>);

    type Edge = Rule<Key>;

    ghost hunted = { λ f. table_image S.product f.grammar.now.rules f.transducer.now.rules f.runs };

    ghost admits = { λ f k. k.0 < length f.grammar.now.names };

    ghost indexes = { λ _ _ _. Unit {0} };

    ghost reading = { forward_reading };

    fn seeds(
        &self,
        alloc: Global,
        budget: u64,
    ) -> Result<Edges<Key, ForwardRule<'a>>, ExpandError> {
        let _budget = budget;
        let Ok(ends) = Vec::from_array(alloc, [Key::new(0, 0, 0)]) else {
            return Err(ExpandError::OutOfMemory);
        };
        Ok(Edges {
            ends,
            rules: Vec::new(alloc),
            parts: 0,
        })
    }

    fn begin_index(&self, _alloc: Global) -> Result<(), AllocError> {
        Ok(())
    }

    fn extend_index(
        &self,
        _alloc: Global,
        _index: &mut (),
        _order: &[Key],
        _from: u32,
    ) -> Result<(), AllocError> {
        Ok(())
    }

    fn expand(
        &self,
        alloc: Global,
        order: &[Key],
        _index: &(),
        n: u32,
        budget: u64,
    ) -> Result<Edges<Key, ForwardRule<'a>>, ExpandError> {
        match self.list_edges(alloc, order[n as usize], n, budget) {
            Ok(listing) => Ok(listing.into_edges()),
            Err(fault) => Err(fault),
        }
    }

    fn settle(
        &self,
        alloc: Global,
        rule: &ForwardRule<'a>,
        ends: &[u32],
    ) -> Result<Rule<u32>, AllocError> {
        let right = settled_side(alloc, rule.side, ends, rule.first_end)?;
        Ok(Rule {
            left: rule.position,
            right,
            cost: rule.cost,
        })
    }

    ghost lawful = { λ f. forward_is_lawful S.product f.grammar.now.rules f.transducer.now.rules f.runs
        (length f.grammar.now.names) f.start f.range };
}
