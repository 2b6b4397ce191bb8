// Backward application as an operation: its seed, its edges, and the rules that stand for these.
ghost use Rattle.std.specs.Prelude.{length};

use crate::backward::Backward;
use crate::key::Key;
use crate::placing::place_ends;
use std::alloc::{AllocError, Global};
use std::collections::LinkedList;
use tib_cost::Semiring;
use tib_expand::{Edges, Expand, ExpandError};
use tib_grammar::Rule;

impl<'a, S: Semiring> Expand for Backward<'a, S> {
    ghost use Rattle.std.specs.Prelude.{◌<◌, length};
    ghost use Rattle.tib_apply.specs.BackwardLaws.{backward_is_lawful};
    ghost use Rattle.tib_apply.specs.KeyRules.{key_reading};
    ghost use Rattle.tib_apply.specs.Operations.{inverse_image};

    type Key = Key;

    type Over = Rule<u32>;

    type Rule = Rule<u32>;

    type Index = ();

    type Origin = (u32, LinkedList<u32>);

    type Edge = Rule<Key>;

    ghost hunted = { λ p. inverse_image S.product p.transducer.now.rules p.grammar.now.rules };

    ghost admits = { λ p k. k.1 < length p.grammar.now.names };

    ghost indexes = { λ _ _ _. Unit {0} };

    ghost reading = { key_reading };

    fn seeds(&self, alloc: Global, budget: u64) -> Result<Edges<Key, Rule<u32>>, ExpandError> {
        let _budget = budget;
        let Ok(ends) = Vec::from_array(alloc, [Key::new(0, 0, 0)]) else {
            return Err(ExpandError::OutOfMemory);
        };
        Ok(Edges {
            ends,
            rules: Vec::new(alloc),
            parts: 0,
        })
    }

    fn begin_index(&self, _alloc: Global) -> Result<(), AllocError> {
        Ok(())
    }

    fn extend_index(
        &self,
        _alloc: Global,
        _index: &mut (),
        _order: &[Key],
        _from: u32,
    ) -> Result<(), AllocError> {
        Ok(())
    }

    fn expand(
        &self,
        alloc: Global,
        order: &[Key],
        _index: &(),
        n: u32,
        budget: u64,
    ) -> Result<Edges<Key, Rule<u32>>, ExpandError> {
        match self.list_edges(alloc, order[n as usize], n, budget) {
            Ok(list) => Ok(list.into_edges()),
            Err(fault) => Err(fault),
        }
    }

    fn settle(
        &self,
        alloc: Global,
        rule: &Rule<u32>,
        ends: &[u32],
    ) -> Result<Rule<u32>, AllocError> {
        let right = place_ends(alloc, &rule.right, ends)?;
        Ok(Rule {
            left: rule.left,
            right,
            cost: rule.cost,
        })
    }

    ghost lawful = { λ p. backward_is_lawful S.product p.grammar.now.rules (length p.grammar.now.names) p.range
        p.transducer.now.rules p.start };
}
