//! Parsing as an operation: its seed, its edges, and the rules that stand for these.

use crate::parse::key::Key;
use crate::parse::listing::ParseRule;
use crate::parse::operation::Parse;
use std::alloc::{AllocError, Global};
use std::collections::LinkedList;
use tib_cost::Semiring;
use tib_expand::{Edges, Expand, ExpandError};
use tib_grammar::Rule;
use tib_key_edges::settled_side;

impl<'a, S: Semiring> Expand for Parse<'a, S> {
    ghost use Rattle.std.specs.Prelude.{length};
    ghost use Rattle.tib_image.specs.Restrictions.{restricted_labels};
    ghost use Rattle.tib_image.specs.ParseOperation.{IsKey, parse};
    ghost use Rattle.tib_image.specs.ParseLaws.{parse_reading, parse_is_lawful, within_from};

    type Key = Key;

    type Over = ParseRule<'a>;

    type Rule = Rule<u32>;

    type Index = ();

    type Origin = (u32, LinkedList<u32>);

    type Edge = Rule<Key>;

    ghost hunted = { λ p. parse p.transducer.now.rules p.string.now };

    ghost admits = { λ p k. IsKey (length p.transducer.now.names) (length p.string.now)
        (length (restricted_labels p.transducer.now.rules)) k };

    ghost indexes = { λ _ _ _. Unit {0} };

    ghost reading = { parse_reading };

    fn seeds(&self, alloc: Global, budget: u64) -> Result<Edges<Key, ParseRule<'a>>, ExpandError> {
        let _budget = budget;
        let to = self.string.len() as u32;
        let Ok(ends) = Vec::from_array(alloc, [Key::new(0, 0, to, 0)]) else {
            return Err(ExpandError::OutOfMemory);
        };
        Ok(Edges {
            ends,
            rules: Vec::new(alloc),
            parts: 0,
        })
    }

    fn begin_index(&self, _alloc: Global) -> Result<(), AllocError> {
        Ok(())
    }

    fn extend_index(
        &self,
        _alloc: Global,
        _index: &mut (),
        _order: &[Key],
        _from: u32,
    ) -> Result<(), AllocError> {
        Ok(())
    }

    fn expand(
        &self,
        alloc: Global,
        order: &[Key],
        _index: &(),
        n: u32,
        budget: u64,
    ) -> Result<Edges<Key, ParseRule<'a>>, ExpandError> {
        match self.list_edges(alloc, order[n as usize], n, budget) {
            Ok(listing) => Ok(listing.into_edges()),
            Err(fault) => Err(fault),
        }
    }

    fn settle(
        &self,
        alloc: Global,
        rule: &ParseRule<'a>,
        ends: &[u32],
    ) -> Result<Rule<u32>, AllocError> {
        let right = settled_side(alloc, rule.side, ends, rule.first_end)?;
        Ok(Rule {
            left: rule.position,
            right,
            cost: rule.cost,
        })
    }

    ghost lawful = { λ p. parse_is_lawful (length p.transducer.now.names) p.start p.transducer.now.rules
        (within_from (length p.transducer.now.names) p.transducer.now.rules p.range) p.string.now };
}
