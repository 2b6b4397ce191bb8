//! The keys of two grammars as an operation: its seeds, its edges, and the rules that stand for
//! these.

ghost use Rattle.std.specs.Prelude.{◌≡◌, ℕ, ◌<◌, length};

use crate::difference::Difference;
use crate::holders::Holders;
use crate::subset_key::SubsetKey;
use std::alloc::{AllocError, Global};
use tib_cost::Semiring;
use tib_determinize::{Origin, VectorRule};
use tib_expand::{Edges, Expand, ExpandError};
use tib_grammar::{Rule, Side};

impl<'a, S: Semiring> Expand for Difference<'a, S> {
    ghost use Rattle.std.specs.Prelude.{length};
    ghost use Rattle.tib_difference.specs.Difference.{difference, IsKey};
    ghost use Rattle.tib_difference.specs.Held.{AreHolders};
    ghost use Rattle.tib_difference.specs.KeyLaws.{difference_is_lawful};
    ghost use Rattle.tib_difference.specs.KeyRules.{key_reading};

    type Key = SubsetKey;

    type Over = VectorRule;

    type Rule = Rule<u32>;

    type Index = Holders;

    type Origin = Origin;

    type Edge = Rule<SubsetKey>;

    ghost hunted = { λ p. difference p.left.now.rules p.right.now.rules };

    ghost admits = { λ p k. IsKey (length p.left.now.names) (length p.right.now.names) k };

    ghost indexes = { λ p order index. AreHolders order index.lists.items };

    ghost reading = { key_reading };

    fn seeds(
        &self,
        alloc: Global,
        budget: u64,
    ) -> Result<Edges<SubsetKey, VectorRule>, ExpandError> {
        self.left.grammar();
        match self.list_seeds(alloc, budget) {
            Ok(listing) => Ok(listing.into_edges()),
            Err(fault) => Err(fault),
        }
    }

    fn begin_index(&self, alloc: Global) -> Result<Holders, AllocError> {
        Ok(Holders::new(alloc))
    }

    fn extend_index(
        &self,
        alloc: Global,
        index: &mut Holders,
        order: &[SubsetKey],
        from: u32,
    ) -> Result<(), AllocError> {
        index.extend(alloc, order, from)
    }

    fn expand(
        &self,
        alloc: Global,
        order: &[SubsetKey],
        index: &Holders,
        n: u32,
        budget: u64,
    ) -> Result<Edges<SubsetKey, VectorRule>, ExpandError> {
        self.left.grammar();
        match self.list_position(alloc, order, index, n, budget) {
            Ok(listing) => Ok(listing.into_edges()),
            Err(fault) => Err(fault),
        }
    }

    fn settle(
        &self,
        alloc: Global,
        rule: &VectorRule,
        ends: &[u32],
    ) -> Result<Rule<u32>, AllocError> {
        let right = Side::over(alloc, rule.label, rule.positions.as_slice())?;
        Ok(Rule {
            left: ends[rule.end as usize],
            right,
            cost: rule.cost,
        })
    }

    ghost lawful = { λ p. difference_is_lawful p.left.now.rules p.right.now.rules
        (length p.left.now.names) (length p.right.now.names) p.left_range p.right_range };
}
