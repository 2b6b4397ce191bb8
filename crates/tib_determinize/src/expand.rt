//! The vectors over a grammar as an operation: its seeds, its edges, and the rules that stand for
//! these.

ghost use Rattle.std.specs.Prelude.{◌≡◌, ℕ, ◌<◌, length};

use crate::holders::Holders;
use crate::origin::Origin;
use crate::residuals::Residuals;
use crate::vector::Vector;
use crate::vector_rule::VectorRule;
use std::alloc::{AllocError, Global};
use tib_cost::Semiring;
use tib_expand::{Edges, Expand, ExpandError};
use tib_grammar::{Rule, Side};

impl<'a, S: Semiring> Expand for Residuals<'a, S> {
    ghost use Rattle.std.specs.Prelude.{length};
    ghost use Rattle.tib_determinize.specs.Determinization.{determinization, IsVector};
    ghost use Rattle.tib_determinize.specs.Holders.{AreHolders};
    ghost use Rattle.tib_determinize.specs.VectorLaws.{vectors_are_lawful};
    ghost use Rattle.tib_determinize.specs.VectorRules.{vector_reading};

    type Key = Vector;

    type Over = VectorRule;

    type Rule = Rule<u32>;

    type Index = Holders;

    type Origin = Origin;

    type Edge = Rule<Vector>;

    ghost hunted = { λ p. determinization S.product p.normal.now.rules };

    ghost admits = { λ p k. IsVector (length p.normal.now.names) k };

    ghost indexes = { λ p order index. AreHolders p.wide.items order index.lists.items };

    ghost reading = { vector_reading };

    fn seeds(&self, alloc: Global, budget: u64) -> Result<Edges<Vector, VectorRule>, ExpandError> {
        self.normal.grammar();
        match self.list_leaves(alloc, budget) {
            Ok(listing) => Ok(listing.into_edges()),
            Err(fault) => Err(fault),
        }
    }

    fn begin_index(&self, alloc: Global) -> Result<Holders, AllocError> {
        Ok(Holders::new(alloc))
    }

    fn extend_index(
        &self,
        alloc: Global,
        index: &mut Holders,
        order: &[Vector],
        from: u32,
    ) -> Result<(), AllocError> {
        index.extend(alloc, &self.wide, order, from)
    }

    fn expand(
        &self,
        alloc: Global,
        order: &[Vector],
        index: &Holders,
        n: u32,
        budget: u64,
    ) -> Result<Edges<Vector, VectorRule>, ExpandError> {
        self.normal.grammar();
        match self.list_position(alloc, order, index, n, budget) {
            Ok(listing) => Ok(listing.into_edges()),
            Err(fault) => Err(fault),
        }
    }

    fn settle(
        &self,
        alloc: Global,
        rule: &VectorRule,
        ends: &[u32],
    ) -> Result<Rule<u32>, AllocError> {
        let right = Side::over(alloc, rule.label, rule.positions.as_slice())?;
        Ok(Rule {
            left: ends[rule.end as usize],
            right,
            cost: rule.cost,
        })
    }

    ghost lawful = { λ p. vectors_are_lawful S.product p.normal.now.rules (length p.normal.now.names) p.left_range };
}
